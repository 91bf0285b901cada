// Replays of texts with jumps, tests, kept registers, locals that die, and expressions that no source is lowered to yet.
use crate::harness::{NO_FAULT, Wanted, assert_gives, run_both};
use std::test::Fail;

// A text that is run for so many steps, and what is wanted of it.
struct Run {
    name: &'static str,
    words: &'static [&'static str],
    text: &'static str,
    choices: &'static str,
    wanted: Wanted,
}

const LONG: &[&str] = &["replay", "a.c", "choices.json", "1000"];

// The numbers below one that is drawn are added.
const SUM: &str = "dcc 1
body .start 0 3
draw 0 s32
assume (and2 (le s32 (s32 0) (reg 0)) (le s32 (reg 0) (s32 100)))
set 1 (s32 0)
set 2 (s32 0)
ifnot (lt s32 (reg 1) (reg 0)) 8
set 2 (add s32 (reg 2) (reg 1))
set 1 (add s32 (reg 1) (s32 1))
goto 4
assert sum (eq s32 (mul s32 (reg 2) (s32 2)) (mul s32 (reg 0) (sub s32 (reg 0) (s32 1))))
return (reg 2)
end
";

// The values of expressions; those that aren't asked have none.
const VALUES: &str = "dcc 1
body .start 0 0
assert a1 (eq s32 (and2 (s32 0) (div s32 (s32 1) (s32 0))) (s32 0))
assert a2 (eq s32 (or2 (s32 2) (div s32 (s32 1) (s32 0))) (s32 1))
assert a3 (eq s32 (and2 (s32 7) (s32 -9)) (s32 1))
assert a4 (eq s32 (or2 (s32 0) (s32 0)) (s32 0))
assert a5 (eq s32 (if (s32 0) (div s32 (s32 1) (s32 0)) (s32 5)) (s32 5))
assert a6 (eq s32 (if (s32 -1) (s32 6) (div s32 (s32 1) (s32 0))) (s32 6))
assert a7 (eq s32 (conv u8 s32 (s32 -1)) (s32 255))
assert a8 (eq s32 (conv s32 s8 (s32 200)) (s32 -56))
assert a9 (eq s32 (conv bool s32 (s32 256)) (s32 1))
assert b1 (eq s64 (neg u32 (s32 1)) (s64 4294967295))
assert b2 (eq s32 (not u8 (s32 0)) (s32 255))
assert b3 (eq s32 (not s32 (s32 0)) (s32 -1))
assert b4 (eq s32 (neg s32 (s32 -5)) (s32 5))
return
end
";

// Three locals, of which two die before the body ends.
const LOCALS: &str = "dcc 1
body .start 0 3
local 0 4 zero
local 1 4 zero
local 2 4 zero
kill 1
kill 18446744073709551615
return (load s32 (reg 0))
end
";

const DEAD_LOCAL: &str = "dcc 1
body .start 0 2
local 0 4 zero
local 1 4 zero
kill 1
store s32 (reg 1) (s32 1)
return
end
";

const AT_ONCE: &str = "end undefined .start\nused 0\nevents 0 0 0 0 0 0 0 0\nfailed 0\n";

const RUNS: [Run; 19] = [
    Run {
        name: "a loop",
        words: LONG,
        text: SUM,
        choices: "[10]",
        wanted: Wanted {
            status: 0,
            out: "end returned 45\nused 1\nevents 1 0 0 0 0 1 0 0\nfailed 0\n",
            err: "",
        },
    },
    Run {
        name: "a loop in exactly its steps",
        words: &["replay", "a.c", "choices.json", "47"],
        text: SUM,
        choices: "[10]",
        wanted: Wanted {
            status: 0,
            out: "end returned 45\nused 1\nevents 1 0 0 0 0 1 0 0\nfailed 0\n",
            err: "",
        },
    },
    Run {
        name: "a loop one step short",
        words: &["replay", "a.c", "choices.json", "46"],
        text: SUM,
        choices: "[10]",
        wanted: Wanted {
            status: 0,
            out: "end cut\nused 1\nevents 1 0 0 0 0 1 0 0\nfailed 0\n",
            err: "",
        },
    },
    Run {
        name: "a loop without a turn",
        words: LONG,
        text: SUM,
        choices: "[0]",
        wanted: Wanted {
            status: 0,
            out: "end returned 0\nused 1\nevents 1 0 0 0 0 1 0 0\nfailed 0\n",
            err: "",
        },
    },
    Run {
        name: "an assumption that doesn't hold",
        words: LONG,
        text: SUM,
        choices: "[101]",
        wanted: Wanted {
            status: 0,
            out: "end blocked\nused 1\nevents 1 0 0 0 0 0 0 0\nfailed 0\n",
            err: "",
        },
    },
    Run {
        name: "values",
        words: LONG,
        text: VALUES,
        choices: "[]",
        wanted: Wanted {
            status: 0,
            out: "end returned\nused 0\nevents 0 0 0 0 0 13 0 0\nfailed 0\n",
            err: "",
        },
    },
    Run {
        name: "locals that die",
        words: LONG,
        text: LOCALS,
        choices: "[]",
        wanted: Wanted {
            status: 0,
            out: "end returned 0\nused 0\nevents 0 3 3 0 0 0 0 0\nfailed 0\n",
            err: "",
        },
    },
    Run {
        name: "a write to a local that died",
        words: LONG,
        text: DEAD_LOCAL,
        choices: "[]",
        wanted: Wanted {
            status: 0,
            out: "end undefined .start\nused 0\nevents 0 2 1 0 0 0 0 0\nfailed 0\n",
            err: "",
        },
    },
    Run {
        name: "an assertion that fails",
        words: LONG,
        text: "dcc 1\nbody .start 0 0\nassert f.assertion.1 (s32 0)\nreturn\nend\n",
        choices: "[]",
        wanted: Wanted {
            status: 10,
            out: "end returned\nused 0\nevents 0 0 0 0 0 1 0 0\nfailed 1\nf.assertion.1\n",
            err: "",
        },
    },
    Run {
        name: "an assertion without a value",
        words: LONG,
        text: "dcc 1\nbody .start 0 0\nassert a (rem s32 (s32 1) (s32 0))\nreturn\nend\n",
        choices: "[]",
        wanted: Wanted {
            status: 0,
            out: AT_ONCE,
            err: "",
        },
    },
    Run {
        name: "an assumption without a value",
        words: LONG,
        text: "dcc 1\nbody .start 0 0\nassume (rem s32 (s32 1) (s32 0))\nreturn\nend\n",
        choices: "[]",
        wanted: Wanted {
            status: 0,
            out: AT_ONCE,
            err: "",
        },
    },
    Run {
        name: "a test without a value",
        words: LONG,
        text: "dcc 1\nbody .start 0 0\nifnot (rem s32 (s32 1) (s32 0)) 1\nreturn\nend\n",
        choices: "[]",
        wanted: Wanted {
            status: 0,
            out: AT_ONCE,
            err: "",
        },
    },
    Run {
        name: "a register that keeps no value",
        words: LONG,
        text: "dcc 1\nbody .start 0 1\nkeep 0 (rem s32 (s32 1) (s32 0))\ncheck a (reg 0)\nset 0 (reg 0)\nreturn\nend\n",
        choices: "[]",
        wanted: Wanted {
            status: 10,
            out: "end undefined .start\nused 0\nevents 0 0 0 0 0 1 0 0\nfailed 1\na\n",
            err: "",
        },
    },
    Run {
        name: "a register that keeps a value",
        words: LONG,
        text: "dcc 1\nbody .start 0 1\nkeep 0 (s32 7)\nreturn (reg 0)\nend\n",
        choices: "[]",
        wanted: Wanted {
            status: 0,
            out: "end returned 7\nused 0\nevents 0 0 0 0 0 0 0 0\nfailed 0\n",
            err: "",
        },
    },
    Run {
        name: "minus of the least int",
        words: LONG,
        text: "dcc 1\nbody .start 0 0\nreturn (neg s32 (s32 -2147483648))\nend\n",
        choices: "[]",
        wanted: Wanted {
            status: 0,
            out: AT_ONCE,
            err: "",
        },
    },
    Run {
        name: "a first operand without a value",
        words: LONG,
        text: "dcc 1\nbody .start 0 0\nreturn (and2 (rem s32 (s32 1) (s32 0)) (s32 0))\nend\n",
        choices: "[]",
        wanted: Wanted {
            status: 0,
            out: AT_ONCE,
            err: "",
        },
    },
    Run {
        name: "a second operand without a value",
        words: LONG,
        text: "dcc 1\nbody .start 0 0\nreturn (or2 (s32 0) (rem s32 (s32 1) (s32 0)))\nend\n",
        choices: "[]",
        wanted: Wanted {
            status: 0,
            out: AT_ONCE,
            err: "",
        },
    },
    Run {
        name: "a choice by a test without a value",
        words: LONG,
        text: "dcc 1\nbody .start 0 0\nreturn (if (rem s32 (s32 1) (s32 0)) (s32 1) (s32 1))\nend\n",
        choices: "[]",
        wanted: Wanted {
            status: 0,
            out: AT_ONCE,
            err: "",
        },
    },
    Run {
        name: "an endless loop is cut",
        words: LONG,
        text: "dcc 1\nbody .start 0 0\ngoto 0\nend\n",
        choices: "[]",
        wanted: Wanted {
            status: 0,
            out: "end cut\nused 0\nevents 0 0 0 0 0 0 0 0\nfailed 0\n",
            err: "",
        },
    },
];

#[test]
fn instructions(rt: HostRuntime) -> Result<(), Fail> {
    for run in &RUNS {
        let outcome = run_both(
            rt.alloc(),
            run.words,
            run.text.as_bytes(),
            run.choices.as_bytes(),
            &NO_FAULT,
        )?;
        assert_gives(&rt, &outcome, &run.wanted, run.name);
    }
    Ok(())
}
