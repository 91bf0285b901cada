// A chooser and a watch, as a run uses them.
use dc_choice::{Chooser, CountWatch, ListChooser, Watch};
use dc_text::{Choices, Counts, Event};
use std::test::Fail;

// A draw of a run.
fn draw<C: Chooser>(chooser: &mut C) -> Option<u64> {
    chooser.next()
}

// An event of a run, which happens several times.
fn tell<W: Watch>(watch: &mut W, event: &Event, times: u64) -> Counts {
    for _ in 0..times {
        watch.hear(event);
    }
    watch.counts()
}

#[test]
fn a_list_is_given_to_its_end(rt: HostRuntime) -> Result<(), Fail> {
    let list = Vec::from_slice(rt.alloc(), &[5, 0, 18446744073709551615])?;
    let mut chooser = ListChooser::new(Choices::of(list));
    for wanted in [Some(5), Some(0), Some(18446744073709551615), None, None] {
        assert_eq!(rt; draw(&mut chooser), wanted);
    }
    Ok(())
}

#[test]
fn each_event_raises_its_own_count(rt: HostRuntime) {
    let mut watch = CountWatch::new();
    assert_eq!(rt; watch.counts(), Counts::new());
    let write = Event::Write {
        object: 4,
        from: 0,
        len: 4,
    };
    for (event, times) in [
        (Event::Draw(7), 1),
        (Event::Create(4), 2),
        (Event::Kill(4), 3),
        (write, 4),
        (Event::Free(4), 5),
        (Event::Check(false), 6),
        (Event::Call(1), 7),
    ] {
        tell(&mut watch, &event, times);
    }
    let wanted = Counts {
        draws: 1,
        creates: 2,
        kills: 3,
        writes: 4,
        frees: 5,
        checks: 6,
        calls: 7,
        returns: 8,
    };
    assert_eq!(rt; tell(&mut watch, &Event::Return, 8), wanted);
}
