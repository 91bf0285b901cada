// What the innermost set names, by its place.
use crate::steps::Step::{Free, FreeAt, Pop, Push, Range, RangeAt};
use crate::steps::{MAX, first_wrong};
use std::test::Fail;

#[test]
fn in_the_order_in_which_it_was_added(rt: HostRuntime) -> Result<(), Fail> {
    let steps = [
        Push(9),
        RangeAt(0, None),
        FreeAt(0, None),
        Range(1, 5, 10, 4),
        Free(2, 7),
        Range(3, MAX, MAX, MAX),
        Range(1, 5, 10, 4),
        Free(1, MAX),
        RangeAt(0, Some((5, 10, 4))),
        RangeAt(1, Some((MAX, MAX, MAX))),
        RangeAt(2, Some((5, 10, 4))),
        RangeAt(3, None),
        RangeAt(18446744073709551615, None),
        FreeAt(0, Some(7)),
        FreeAt(1, Some(MAX)),
        FreeAt(2, None),
        FreeAt(18446744073709551615, None),
    ];
    assert_eq!(rt; first_wrong(rt.alloc(), &steps)?, None);
    Ok(())
}

#[test]
fn of_the_innermost_set_alone(rt: HostRuntime) -> Result<(), Fail> {
    let steps = [
        Push(9),
        Range(1, 5, 10, 4),
        Free(2, 7),
        Push(9),
        RangeAt(0, None),
        FreeAt(0, None),
        Range(1, 6, 0, 1),
        Free(2, 8),
        RangeAt(0, Some((6, 0, 1))),
        FreeAt(0, Some(8)),
        Pop,
        RangeAt(0, Some((5, 10, 4))),
        RangeAt(1, None),
        FreeAt(0, Some(7)),
        FreeAt(1, None),
        Pop,
        RangeAt(0, None),
        FreeAt(0, None),
    ];
    assert_eq!(rt; first_wrong(rt.alloc(), &steps)?, None);
    Ok(())
}
