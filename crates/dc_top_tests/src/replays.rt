// Replays of texts and sources, by the first file, the choices and the steps.
use crate::harness::{EMPTY_FUNCTION, Faults, NO_FAULT, SET, Wanted, assert_gives, run_both};
use dc_scan_tests::examples::{EMPTY_FUNCTION as EMPTY_FUNCTION_TEXT, SET as SET_TEXT};
use std::test::Fail;

// A run, and what is wanted of it.
struct Replay {
    words: &'static [&'static str],
    first: &'static str,
    choices: &'static str,
    wanted: Wanted,
}

const TEXT: &[&str] = &["replay", "a.c", "choices.json", "1000"];

const SOURCE: &[&str] = &[
    "replay-source",
    "a.c",
    "choices.json",
    "1000",
    "--enforce",
    "f",
];

const PLAIN: &[&str] = &[
    "replay-plain",
    "a.c",
    "choices.json",
    "1000",
    "--enforce",
    "f",
];

const SOURCE_SET: &[&str] = &[
    "replay-source",
    "a.c",
    "choices.json",
    "1000",
    "--enforce",
    "set",
];

const PLAIN_SET: &[&str] = &[
    "replay-plain",
    "a.c",
    "choices.json",
    "1000",
    "--enforce",
    "set",
];

const UNLISTED: &str = "int g; void f(void) { g = g; }";

const UNLISTED_TEXT: &str = "dcc 1
function f void
static g 4
body f 0 1
set 0 (load s32 (obj 2))
covers f.assigns.1 (obj 2) (u64 4)
store s32 (obj 2) (reg 0)
return
end
body .start 0 0
statics
objects 4
push
call - f
pop
return
end
";

const SUCCESSOR: &str =
    "int f(int x) __CPROVER_ensures(__CPROVER_return_value == x + 1) { x = x + 1; return x; }";

const NO_CHOICES: &str = "end choices-ended\nused 0\nevents 0 0 0 0 0 0 0 0\nfailed 0\n";

const AT_ONCE: &str = "end cut\nused 0\nevents 0 0 0 0 0 0 0 0\nfailed 0\n";

const SUCCESSOR_RAN: &str = "end returned 42\nused 2\nevents 2 1 1 1 0 1 1 1\nfailed 0\n";

const SUCCESSOR_OVERFLOWS: &str = "end undefined f\nused 2\nevents 2 1 0 0 0 0 1 0\nfailed 0\n";

// Reports, each with its status.
const REPORTS: [Replay; 17] = [
    Replay {
        words: TEXT,
        first: SET_TEXT,
        choices: "[0,0,0,0,0,41]",
        wanted: Wanted {
            status: 0,
            out: "end returned\nused 6\nevents 6 1 1 1 0 2 1 1\nfailed 0\n",
            err: "",
        },
    },
    Replay {
        words: TEXT,
        first: SET_TEXT,
        choices: "[0,0,0,0,0,100]",
        wanted: Wanted {
            status: 0,
            out: "end blocked\nused 6\nevents 6 0 0 0 0 0 0 0\nfailed 0\n",
            err: "",
        },
    },
    Replay {
        words: TEXT,
        first: SET_TEXT,
        choices: "[0,0,0,0,0,41,7,8]",
        wanted: Wanted {
            status: 0,
            out: "end returned\nused 6\nevents 6 1 1 1 0 2 1 1\nfailed 0\n",
            err: "",
        },
    },
    Replay {
        words: TEXT,
        first: UNLISTED_TEXT,
        choices: "[7,0,0,0,0]",
        wanted: Wanted {
            status: 10,
            out: "end returned\nused 5\nevents 5 0 0 1 0 1 1 1\nfailed 1\nf.assigns.1\n",
            err: "",
        },
    },
    Replay {
        words: TEXT,
        first: EMPTY_FUNCTION_TEXT,
        choices: "[]",
        wanted: Wanted {
            status: 0,
            out: NO_CHOICES,
            err: "",
        },
    },
    Replay {
        words: &["replay", "a.c", "choices.json", "0"],
        first: EMPTY_FUNCTION_TEXT,
        choices: "[0]",
        wanted: Wanted {
            status: 0,
            out: AT_ONCE,
            err: "",
        },
    },
    Replay {
        words: &["replay", "a.c", "choices.json", "18446744073709551615"],
        first: EMPTY_FUNCTION_TEXT,
        choices: "[0]",
        wanted: Wanted {
            status: 0,
            out: "end returned\nused 1\nevents 1 0 0 0 0 0 1 1\nfailed 0\n",
            err: "",
        },
    },
    Replay {
        words: SOURCE_SET,
        first: SET,
        choices: "[0,0,0,0,0,41]",
        wanted: Wanted {
            status: 0,
            out: "end returned\nused 6\nevents 6 1 1 1 0 1 1 1\nfailed 0\n",
            err: "",
        },
    },
    Replay {
        words: PLAIN_SET,
        first: SET,
        choices: "[0,0,0,0,0,41]",
        wanted: Wanted {
            status: 0,
            out: "end returned\nused 6\nevents 6 1 1 1 0 1 1 1\nfailed 0\n",
            err: "",
        },
    },
    Replay {
        words: SOURCE_SET,
        first: SET,
        choices: "[0,0,0,0,0,100]",
        wanted: Wanted {
            status: 0,
            out: "end blocked\nused 6\nevents 6 0 0 0 0 0 0 0\nfailed 0\n",
            err: "",
        },
    },
    Replay {
        words: SOURCE,
        first: UNLISTED,
        choices: "[7,0,0,0,0]",
        wanted: Wanted {
            status: 10,
            out: "end returned\nused 5\nevents 5 0 0 1 0 0 1 1\nfailed 1\nf.assigns.1\n",
            err: "",
        },
    },
    Replay {
        words: PLAIN,
        first: UNLISTED,
        choices: "[7,0,0,0,0]",
        wanted: Wanted {
            status: 10,
            out: "end returned\nused 5\nevents 5 0 0 1 0 0 1 1\nfailed 1\nf.assigns.1\n",
            err: "",
        },
    },
    Replay {
        words: SOURCE,
        first: SUCCESSOR,
        choices: "[0,41]",
        wanted: Wanted {
            status: 0,
            out: SUCCESSOR_RAN,
            err: "",
        },
    },
    Replay {
        words: PLAIN,
        first: SUCCESSOR,
        choices: "[0,2147483647]",
        wanted: Wanted {
            status: 0,
            out: SUCCESSOR_OVERFLOWS,
            err: "",
        },
    },
    Replay {
        words: SOURCE,
        first: EMPTY_FUNCTION,
        choices: "[]",
        wanted: Wanted {
            status: 0,
            out: NO_CHOICES,
            err: "",
        },
    },
    Replay {
        words: &[
            "replay-source",
            "a.c",
            "choices.json",
            "0",
            "--enforce",
            "f",
        ],
        first: EMPTY_FUNCTION,
        choices: "[0]",
        wanted: Wanted {
            status: 0,
            out: AT_ONCE,
            err: "",
        },
    },
    Replay {
        words: &["replay-plain", "a.c", "choices.json", "1", "--enforce", "f"],
        first: EMPTY_FUNCTION,
        choices: "[0]",
        wanted: Wanted {
            status: 0,
            out: "end returned\nused 1\nevents 1 0 0 0 0 0 1 1\nfailed 0\n",
            err: "",
        },
    },
];

const NOT_JSON: &str = "dcc: choices not JSON\n";

// What is refused, in the order of the tests: the first file before the choices.
const REFUSALS: [Replay; 11] = [
    Replay {
        words: TEXT,
        first: EMPTY_FUNCTION_TEXT,
        choices: "[1, -1]",
        wanted: Wanted {
            status: 5,
            out: "",
            err: "dcc: choices at 1\n",
        },
    },
    Replay {
        words: TEXT,
        first: EMPTY_FUNCTION_TEXT,
        choices: "{}",
        wanted: Wanted {
            status: 5,
            out: "",
            err: "dcc: choices not an array\n",
        },
    },
    Replay {
        words: TEXT,
        first: EMPTY_FUNCTION_TEXT,
        choices: "[",
        wanted: Wanted {
            status: 5,
            out: "",
            err: NOT_JSON,
        },
    },
    Replay {
        words: SOURCE,
        first: EMPTY_FUNCTION,
        choices: "[18446744073709551616]",
        wanted: Wanted {
            status: 5,
            out: "",
            err: "dcc: choices at 0\n",
        },
    },
    Replay {
        words: PLAIN,
        first: EMPTY_FUNCTION,
        choices: "",
        wanted: Wanted {
            status: 5,
            out: "",
            err: NOT_JSON,
        },
    },
    Replay {
        words: TEXT,
        first: "dcc 1\nbody .start 0 0\nretur",
        choices: "[",
        wanted: Wanted {
            status: 4,
            out: "",
            err: "dcc: text line 3\n",
        },
    },
    Replay {
        words: TEXT,
        first: "dcc 1\nbody .start 0 0\nreturn\n",
        choices: "[",
        wanted: Wanted {
            status: 4,
            out: "",
            err: "dcc: text shape 4\n",
        },
    },
    Replay {
        words: SOURCE,
        first: "void f(void) { ; }",
        choices: "[",
        wanted: Wanted {
            status: 3,
            out: "",
            err: "dcc: refused form\n",
        },
    },
    Replay {
        words: PLAIN,
        first: "void g(void) {}",
        choices: "[",
        wanted: Wanted {
            status: 3,
            out: "",
            err: "dcc: refused option 1 at f\n",
        },
    },
    Replay {
        words: &["replay", "a.c", "missing.json", "1000"],
        first: EMPTY_FUNCTION_TEXT,
        choices: "[",
        wanted: Wanted {
            status: 6,
            out: "",
            err: "dcc: read fault\n",
        },
    },
    Replay {
        words: &["replay", "a.c", "missing.json", "1000"],
        first: EMPTY_FUNCTION,
        choices: "[",
        wanted: Wanted {
            status: 4,
            out: "",
            err: "dcc: text line 1\n",
        },
    },
];

const USAGE: Wanted = Wanted {
    status: 2,
    out: "",
    err: "dcc: usage\n",
};

// Words that are nearly a row of the table.
const NO_ROW: [&[&str]; 10] = [
    &["replay", "a.c", "choices.json"],
    &["replay", "a.c", "choices.json", "00"],
    &["replay", "a.c", "choices.json", "+1"],
    &["replay", "a.c", "choices.json", ""],
    &["replay", "a.c", "choices.json", "18446744073709551616"],
    &["replay", "a.c", "choices.json", "1", "--enforce", "f"],
    &["replay-source", "a.c", "choices.json", "1"],
    &[
        "replay-source",
        "a.c",
        "choices.json",
        "1",
        "--enforce",
        "1f",
    ],
    &["replay-plain", "a.c", "choices.json", "1", "--replace", "f"],
    &["replay-plan", "a.c", "choices.json", "1", "--enforce", "f"],
];

#[test]
fn reports(rt: HostRuntime) -> Result<(), Fail> {
    for replay in &REPORTS {
        let outcome = run_both(
            rt.alloc(),
            replay.words,
            replay.first.as_bytes(),
            replay.choices.as_bytes(),
            &NO_FAULT,
        )?;
        assert_gives(&rt, &outcome, &replay.wanted, replay.choices);
    }
    Ok(())
}

#[test]
fn refusals(rt: HostRuntime) -> Result<(), Fail> {
    for replay in &REFUSALS {
        let outcome = run_both(
            rt.alloc(),
            replay.words,
            replay.first.as_bytes(),
            replay.choices.as_bytes(),
            &NO_FAULT,
        )?;
        assert_gives(&rt, &outcome, &replay.wanted, replay.choices);
    }
    for words in NO_ROW {
        let outcome = run_both(
            rt.alloc(),
            words,
            EMPTY_FUNCTION_TEXT.as_bytes(),
            b"[0]",
            &NO_FAULT,
        )?;
        assert_gives(&rt, &outcome, &USAGE, "words");
    }
    Ok(())
}

// The text of a replay cut after each byte: refused, and for the last one byte by its last line.
#[test]
fn a_cut_text(rt: HostRuntime) -> Result<(), Fail> {
    let text = EMPTY_FUNCTION_TEXT.as_bytes();
    for cut in 0..text.len() {
        let outcome = run_both(rt.alloc(), TEXT, &text[..cut], b"[0]", &NO_FAULT)?;
        assert_eq!(rt; outcome.status, 4, "cut after {cut}");
        assert_eq!(rt; outcome.out.len(), 0, "cut after {cut}");
    }
    Ok(())
}

// The lines of the report that a sink takes whose k-th write fails, and reads that fail one by one.
#[test]
fn the_outside_fails(rt: HostRuntime) -> Result<(), Fail> {
    for k in 1..=5 {
        let faults = Faults {
            shelf: 0,
            out: k,
            err: 0,
        };
        let outcome = run_both(
            rt.alloc(),
            SOURCE,
            UNLISTED.as_bytes(),
            b"[7,0,0,0,0]",
            &faults,
        )?;
        assert_eq!(rt; outcome.status, 7, "write {k}");
        let whole = outcome.out.iter().filter(|b| **b == b'\n').count() as u64;
        assert_eq!(rt; whole, k - 1, "write {k}");
    }
    for k in 1..=4 {
        let faults = Faults {
            shelf: k,
            out: 0,
            err: 0,
        };
        let outcome = run_both(
            rt.alloc(),
            TEXT,
            SET_TEXT.as_bytes(),
            b"[0,0,0,0,0,41]",
            &faults,
        )?;
        assert_eq!(rt; outcome.status, 6, "read {k}");
    }
    Ok(())
}
