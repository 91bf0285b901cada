// Runs.
use crate::build::{
    adding_program, bodiless_program, endless_program, local_program, set_program,
    startless_program, variable_program,
};
use dc_choice::{CountWatch, ListChooser};
use dc_goto::GotoProgram;
use dc_machine::run_goto;
use dc_text::Choices;
use dc_world::{End, RunReport, Which};
use std::alloc::{AllocError, Global};
use std::test::Fail;

/// Which end it is.
pub fn word(end: &End) -> &'static str {
    match end {
        End::Returned(_) => "returned",
        End::Blocked => "blocked",
        End::Undefined(_) => "undefined",
        End::NoBody(_) => "no body",
        End::Limit(Which::Objects) => "objects",
        End::Limit(Which::Depth) => "depth",
        End::ChoicesEnded => "choices ended",
        End::Cut => "cut",
    }
}

/// The run of a program on a list.
pub fn run(
    alloc: Global,
    p: &GotoProgram,
    list: &[u64],
    steps: u64,
) -> Result<RunReport, AllocError> {
    let choices = Choices::of(Vec::from_slice(alloc, list)?);
    let mut chooser = ListChooser::new(choices);
    let mut watch = CountWatch::new();
    run_goto(alloc, p, &mut chooser, &mut watch, steps)
}

// A run of a program, and what it comes to.
struct Row {
    name: &'static str,
    program: Made,
    list: &'static [u64],
    steps: u64,
    end: &'static str,
    used: usize,
    counts: [u128; 8],
    failed: &'static [&'static str],
}

// The programs.
#[derive(Clone, Copy)]
enum Made {
    Set(u64, i128),
    Bodiless,
    Endless,
    Adding,
    Startless,
}

fn make_program(alloc: Global, program: Made) -> Result<GotoProgram, AllocError> {
    match program {
        Made::Set(target, more) => set_program(alloc, 100, target, more),
        Made::Bodiless => bodiless_program(alloc),
        Made::Endless => endless_program(alloc),
        Made::Adding => adding_program(alloc),
        Made::Startless => startless_program(alloc),
    }
}

const ALL: [u128; 8] = [6, 1, 1, 1, 0, 2, 1, 1];

const ROWS: [Row; 10] = [
    Row {
        name: "the contract is kept",
        program: Made::Set(2, 1),
        list: &[0, 0, 0, 0, 0, 41],
        steps: 1000,
        end: "returned",
        used: 6,
        counts: ALL,
        failed: &[],
    },
    Row {
        name: "numbers are left",
        program: Made::Set(2, 1),
        list: &[256, 1, 2, 3, 65534, 4294967337, 7, 8],
        steps: 1000,
        end: "returned",
        used: 6,
        counts: ALL,
        failed: &[],
    },
    Row {
        name: "the argument is too great",
        program: Made::Set(2, 1),
        list: &[0, 0, 0, 0, 0, 100],
        steps: 1000,
        end: "blocked",
        used: 6,
        counts: [6, 0, 0, 0, 0, 0, 0, 0],
        failed: &[],
    },
    Row {
        name: "the postcondition fails",
        program: Made::Set(2, 2),
        list: &[0, 0, 0, 0, 0, 41],
        steps: 1000,
        end: "returned",
        used: 6,
        counts: ALL,
        failed: &["set.postcondition.1"],
    },
    Row {
        name: "the write isn't listed, and the postcondition fails",
        program: Made::Set(3, 2),
        list: &[0, 0, 0, 0, 0, 41],
        steps: 1000,
        end: "returned",
        used: 6,
        counts: ALL,
        failed: &["set.assigns.1", "set.postcondition.1"],
    },
    Row {
        name: "there is no body",
        program: Made::Bodiless,
        list: &[0, 0, 0, 0, 0, 41],
        steps: 1000,
        end: "no body",
        used: 6,
        counts: [6, 0, 0, 0, 0, 0, 1, 0],
        failed: &[],
    },
    Row {
        name: "calls without end",
        program: Made::Endless,
        list: &[],
        steps: 100000,
        end: "depth",
        used: 0,
        counts: [0, 0, 0, 0, 0, 0, 1024, 0],
        failed: &[],
    },
    Row {
        name: "a sum that fits",
        program: Made::Adding,
        list: &[2147483646],
        steps: 3,
        end: "returned",
        used: 1,
        counts: [1, 0, 0, 0, 0, 0, 0, 0],
        failed: &[],
    },
    Row {
        name: "a sum that doesn't fit",
        program: Made::Adding,
        list: &[2147483647],
        steps: 3,
        end: "undefined",
        used: 1,
        counts: [1, 0, 0, 0, 0, 0, 0, 0],
        failed: &[],
    },
    Row {
        name: "there is no start",
        program: Made::Startless,
        list: &[1],
        steps: 3,
        end: "no body",
        used: 0,
        counts: [0, 0, 0, 0, 0, 0, 0, 0],
        failed: &[],
    },
];

/// The counts in their order.
pub fn counted(report: &RunReport) -> [u128; 8] {
    let c = &report.counts;
    [
        c.draws, c.creates, c.kills, c.writes, c.frees, c.checks, c.calls, c.returns,
    ]
}

#[test]
fn rows(rt: HostRuntime) -> Result<(), Fail> {
    for row in &ROWS {
        let p = make_program(rt.alloc(), row.program)?;
        let report = run(rt.alloc(), &p, row.list, row.steps)?;
        assert_eq!(rt; word(&report.end), row.end, "{}", row.name);
        assert_eq!(rt;
            report.used.as_slice(),
            &row.list[..row.used],
            "{}",
            row.name
        );
        assert_eq!(rt; counted(&report), row.counts, "{}", row.name);
        assert_eq!(rt; report.failed.len(), row.failed.len(), "{}", row.name);
        for (name, wanted) in report.failed.as_slice().iter().zip(row.failed) {
            assert_eq!(rt; name.as_slice(), wanted.as_bytes(), "{}", row.name);
        }
    }
    Ok(())
}

#[test]
fn choices_end_at_each_place(rt: HostRuntime) -> Result<(), Fail> {
    let p = set_program(rt.alloc(), 100, 2, 1)?;
    let list: [u64; 6] = [0, 0, 0, 0, 0, 41];
    for taken in 0..6 {
        let report = run(rt.alloc(), &p, &list[..taken], 1000)?;
        assert_eq!(rt; word(&report.end), "choices ended", "{}", taken);
        assert_eq!(rt; report.used.len(), taken);
        assert_eq!(rt; counted(&report), [taken as u128, 0, 0, 0, 0, 0, 0, 0]);
    }
    Ok(())
}

#[test]
fn cut_at_each_step(rt: HostRuntime) -> Result<(), Fail> {
    let p = set_program(rt.alloc(), 100, 2, 1)?;
    for steps in 0..18 {
        let report = run(rt.alloc(), &p, &[0, 0, 0, 0, 0, 41], steps)?;
        assert_eq!(rt; word(&report.end), "cut", "{}", steps);
    }
    let report = run(rt.alloc(), &p, &[0, 0, 0, 0, 0, 41], 18)?;
    assert_eq!(rt; word(&report.end), "returned");
    Ok(())
}

#[test]
fn one_object_too_many(rt: HostRuntime) -> Result<(), Fail> {
    let p = set_program(rt.alloc(), 100, 2, 1)?;
    let mut list = vec![in rt.alloc(); 0; 65539]?;
    list[4] = 65533;
    list[65538] = 41;
    let report = run(rt.alloc(), &p, list.as_slice(), 1000)?;
    assert_eq!(rt; word(&report.end), "objects");
    assert_eq!(rt; counted(&report), [65539, 65533, 0, 0, 0, 0, 1, 0]);
    list[4] = 65532;
    list[65537] = 41;
    let report = run(rt.alloc(), &p, list.as_slice(), 1000)?;
    assert_eq!(rt; word(&report.end), "returned");
    assert_eq!(rt; counted(&report), [65538, 65533, 1, 1, 0, 2, 1, 1]);
    Ok(())
}

// Sizes that an object may have, and some that are answered as want of memory.
const SIZES: [(u64, bool); 4] = [
    (0, true),
    (16777216, true),
    (16777217, false),
    (18446744073709551615, false),
];

#[test]
fn the_greatest_object(rt: HostRuntime) -> Result<(), Fail> {
    for (size, fits) in &SIZES {
        let p = local_program(rt.alloc(), *size)?;
        let ended = run(rt.alloc(), &p, &[], 10).is_ok();
        assert_eq!(rt; ended, *fits, "{}", size);
    }
    Ok(())
}

#[test]
fn variables_are_drawn_in_place(rt: HostRuntime) -> Result<(), Fail> {
    let p = variable_program(rt.alloc())?;
    let report = run(rt.alloc(), &p, &[1, 2, 259, 4], 10)?;
    let value = match report.end {
        End::Returned(value) => value,
        _ => None,
    };
    assert_eq!(rt; value, Some(67305985));
    Ok(())
}
