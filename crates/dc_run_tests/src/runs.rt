// Runs.

use crate::build::{read_program, unfinished_program};
use dc_choice::{CountWatch, ListChooser};
use dc_program::Program;
use dc_run::{run_contract, run_plain};
use dc_text::Choices;
use dc_world::{End, RunReport, Which};
use std::alloc::{AllocError, Global};
use std::test::Fail;

// Which end it is, with the function that it names.
fn word(end: &End) -> &'static str {
    match end {
        End::Returned(None) => "returned",
        End::Returned(Some(_)) => "returned an int",
        End::Blocked => "blocked",
        End::Undefined(name) => match name.as_slice() {
            b"f" => "undefined f",
            b"set" => "undefined set",
            _ => "undefined",
        },
        End::NoBody(_) => "no body",
        End::Limit(Which::Objects) => "objects",
        End::Limit(Which::Depth) => "depth",
        End::ChoicesEnded => "choices ended",
        End::Cut => "cut",
    }
}

// The int that was returned, or 0.
fn returned(end: &End) -> i128 {
    match end {
        End::Returned(Some(z)) => *z,
        _ => 0,
    }
}

// The run of a program on a list, with its contract or plain.
fn run(
    alloc: Global,
    p: &Program,
    plain: bool,
    list: &[u64],
    steps: u64,
) -> Result<RunReport, AllocError> {
    let choices = Choices::of(Vec::from_slice(alloc, list)?);
    let mut chooser = ListChooser::new(choices);
    let mut watch = CountWatch::new();
    if plain {
        run_plain(alloc, p, &mut chooser, &mut watch, steps)
    } else {
        run_contract(alloc, p, &mut chooser, &mut watch, steps)
    }
}

// The programs.
#[derive(Clone, Copy)]
enum Source {
    Kept,
    Free,
    Unlisted,
    Overclaimed,
    Next,
    Unfinished,
    Keep,
}

fn make_program(alloc: Global, source: Source) -> Result<Program, AllocError> {
    match source {
        Source::Kept => read_program(alloc, KEPT),
        Source::Free => read_program(alloc, FREE),
        Source::Unlisted => read_program(alloc, UNLISTED),
        Source::Overclaimed => read_program(alloc, OVERCLAIMED),
        Source::Next => read_program(alloc, NEXT),
        Source::Unfinished => unfinished_program(alloc),
        Source::Keep => read_program(alloc, KEEP),
    }
}

// The function writes its argument and one more to the variable.
const KEPT: &str =
    "int g; void set(int x) __CPROVER_requires(x < 100) __CPROVER_ensures(g == x + 1) __CPROVER_assigns(g) { g = x + 1; }";

const FREE: &str =
    "int g; void set(int x) __CPROVER_ensures(g == x + 1) __CPROVER_assigns(g) { g = x + 1; }";

const UNLISTED: &str =
    "int g; void set(int x) __CPROVER_requires(x < 100) __CPROVER_ensures(g == x + 2) { g = x + 1; }";

const OVERCLAIMED: &str =
    "int g; void set(int x) __CPROVER_requires(x < 100) __CPROVER_ensures(g == x + 2) __CPROVER_assigns(g) { g = x + 1; }";

const NEXT: &str =
    "int f(int x) __CPROVER_ensures(__CPROVER_return_value == x + 1) { x = x + 1; return x; }";

const KEEP: &str = "int g; void f(void) { g = g; }";

// A run of a program, and what it comes to.
struct Row {
    name: &'static str,
    source: Source,
    list: &'static [u64],
    steps: u64,
    end: &'static str,
    returned: i128,
    used: &'static [u64],
    counts: [u128; 8],
    failed: &'static [&'static str],
}

// Draws, creates, kills, writes, frees, checks, calls and returns of a run of `set` that returns.
const ALL: [u128; 8] = [6, 1, 1, 1, 0, 1, 1, 1];

const ROWS: [Row; 14] = [
    Row {
        name: "the contract is kept",
        source: Source::Kept,
        list: &[0, 0, 0, 0, 0, 41],
        steps: 1000,
        end: "returned",
        returned: 0,
        used: &[0, 0, 0, 0, 0, 41],
        counts: ALL,
        failed: &[],
    },
    Row {
        name: "numbers are left",
        source: Source::Kept,
        list: &[256, 1, 2, 3, 65534, 4294967337, 7, 8],
        steps: 1000,
        end: "returned",
        returned: 0,
        used: &[256, 1, 2, 3, 65534, 4294967337],
        counts: ALL,
        failed: &[],
    },
    Row {
        name: "the argument is too great",
        source: Source::Kept,
        list: &[0, 0, 0, 0, 0, 100],
        steps: 1000,
        end: "blocked",
        returned: 0,
        used: &[0, 0, 0, 0, 0, 100],
        counts: [6, 0, 0, 0, 0, 0, 0, 0],
        failed: &[],
    },
    Row {
        name: "the sum is no int",
        source: Source::Free,
        list: &[0, 0, 0, 0, 0, 2147483647],
        steps: 1000,
        end: "undefined set",
        returned: 0,
        used: &[0, 0, 0, 0, 0, 2147483647],
        counts: [6, 1, 0, 0, 0, 0, 1, 0],
        failed: &[],
    },
    Row {
        name: "the variable may not be written, and the ensures doesn't hold",
        source: Source::Unlisted,
        list: &[0, 0, 0, 0, 0, 41],
        steps: 1000,
        end: "returned",
        returned: 0,
        used: &[0, 0, 0, 0, 0, 41],
        counts: ALL,
        failed: &["set.assigns.1", "set.postcondition.1"],
    },
    Row {
        name: "the ensures doesn't hold",
        source: Source::Overclaimed,
        list: &[0, 0, 0, 0, 0, 41],
        steps: 1000,
        end: "returned",
        returned: 0,
        used: &[0, 0, 0, 0, 0, 41],
        counts: ALL,
        failed: &["set.postcondition.1"],
    },
    Row {
        name: "no step is left for the body",
        source: Source::Kept,
        list: &[0, 0, 0, 0, 0, 41],
        steps: 1,
        end: "cut",
        returned: 0,
        used: &[0, 0, 0, 0, 0, 41],
        counts: [6, 1, 0, 0, 0, 0, 1, 0],
        failed: &[],
    },
    Row {
        name: "no step at all",
        source: Source::Kept,
        list: &[0, 0, 0, 0, 0, 41],
        steps: 0,
        end: "cut",
        returned: 0,
        used: &[],
        counts: [0, 0, 0, 0, 0, 0, 0, 0],
        failed: &[],
    },
    Row {
        name: "the argument and one more is returned",
        source: Source::Next,
        list: &[0, 41],
        steps: 3,
        end: "returned an int",
        returned: 42,
        used: &[0, 41],
        counts: [2, 1, 1, 1, 0, 1, 1, 1],
        failed: &[],
    },
    Row {
        name: "no step is left for the return",
        source: Source::Next,
        list: &[0, 41],
        steps: 2,
        end: "cut",
        returned: 0,
        used: &[0, 41],
        counts: [2, 1, 0, 1, 0, 0, 1, 0],
        failed: &[],
    },
    Row {
        name: "there is no int that is one more",
        source: Source::Next,
        list: &[0, 2147483647],
        steps: 3,
        end: "undefined f",
        returned: 0,
        used: &[0, 2147483647],
        counts: [2, 1, 0, 0, 0, 0, 1, 0],
        failed: &[],
    },
    Row {
        name: "the least int and one more",
        source: Source::Next,
        list: &[65535, 2147483648],
        steps: 3,
        end: "returned an int",
        returned: -2147483647,
        used: &[65535, 2147483648],
        counts: [2, 1, 1, 1, 0, 1, 1, 1],
        failed: &[],
    },
    Row {
        name: "an int function falls off its end",
        source: Source::Unfinished,
        list: &[0, 41],
        steps: 1000,
        end: "undefined f",
        returned: 0,
        used: &[0, 41],
        counts: [2, 1, 0, 1, 0, 0, 1, 0],
        failed: &[],
    },
    Row {
        name: "a variable is written that may not be",
        source: Source::Keep,
        list: &[7, 0, 0, 0, 0],
        steps: 1000,
        end: "returned",
        returned: 0,
        used: &[7, 0, 0, 0, 0],
        counts: [5, 0, 0, 1, 0, 0, 1, 1],
        failed: &["f.assigns.1"],
    },
];

fn counted(report: &RunReport) -> [u128; 8] {
    let c = &report.counts;
    [
        c.draws, c.creates, c.kills, c.writes, c.frees, c.checks, c.calls, c.returns,
    ]
}

#[test]
fn rows(rt: HostRuntime) -> Result<(), Fail> {
    for row in &ROWS {
        let p = make_program(rt.alloc(), row.source)?;
        for plain in [false, true] {
            let report = run(rt.alloc(), &p, plain, row.list, row.steps)?;
            assert_eq!(rt; word(&report.end), row.end, "{}", row.name);
            assert_eq!(rt; returned(&report.end), row.returned, "{}", row.name);
            assert_eq!(rt; report.used.as_slice(), row.used, "{}", row.name);
            assert_eq!(rt; counted(&report), row.counts, "{}", row.name);
            assert_eq!(rt; report.failed.len(), row.failed.len(), "{}", row.name);
            for (name, wanted) in report.failed.as_slice().iter().zip(row.failed) {
                assert_eq!(rt; name.as_slice(), wanted.as_bytes(), "{}", row.name);
            }
        }
    }
    Ok(())
}

#[test]
fn choices_end_at_each_place(rt: HostRuntime) -> Result<(), Fail> {
    let p = read_program(rt.alloc(), KEPT)?;
    let list: [u64; 6] = [0, 0, 0, 0, 0, 41];
    for plain in [false, true] {
        for taken in 0..6 {
            let report = run(rt.alloc(), &p, plain, &list[..taken], 1000)?;
            assert_eq!(rt; word(&report.end), "choices ended", "{}", taken);
            assert_eq!(rt; report.used.len(), taken);
            assert_eq!(rt; counted(&report), [taken as u128, 0, 0, 0, 0, 0, 0, 0]);
        }
    }
    Ok(())
}

#[test]
fn one_object_too_many(rt: HostRuntime) -> Result<(), Fail> {
    let p = read_program(rt.alloc(), KEPT)?;
    let mut list = vec![in rt.alloc(); 0; 65539]?;
    list[4] = 65533;
    list[65538] = 41;
    let report = run(rt.alloc(), &p, false, list.as_slice(), 1000)?;
    assert_eq!(rt; word(&report.end), "objects");
    assert_eq!(rt; counted(&report), [65539, 65533, 0, 0, 0, 0, 1, 0]);
    list[4] = 65532;
    list[65537] = 41;
    let report = run(rt.alloc(), &p, false, list.as_slice(), 1000)?;
    assert_eq!(rt; word(&report.end), "returned");
    assert_eq!(rt; counted(&report), [65538, 65533, 1, 1, 0, 1, 1, 1]);
    Ok(())
}
