// Calls by name and through pointers.
use crate::rows::{Row, assert_rows};
use std::test::Fail;

// The functions f, v, m and r are the objects 1 to 4.
const CALLS: [Row; 15] = [
    Row {
        name: "a call",
        code: "call 0 f (s32 41)
return (reg 0)
",
        choices: "[]",
        status: 0,
        report: "end returned 42\nused 0\nevents 0 0 0 0 0 0 1 1\nfailed 0\n",
    },
    Row {
        name: "a result that isn't taken",
        code: "set 0 (s32 9)
call - f (s32 1)
return (reg 0)
",
        choices: "[]",
        status: 0,
        report: "end returned 9\nused 0\nevents 0 0 0 0 0 0 1 1\nfailed 0\n",
    },
    Row {
        name: "a function without a body",
        code: "call - m
return
",
        choices: "[]",
        status: 0,
        report: "end nobody m\nused 0\nevents 0 0 0 0 0 0 1 0\nfailed 0\n",
    },
    Row {
        name: "a function that is undefined",
        code: "call 0 f (s32 2147483647)
return
",
        choices: "[]",
        status: 0,
        report: "end undefined f\nused 0\nevents 0 0 0 0 0 0 1 0\nfailed 0\n",
    },
    Row {
        name: "the caller's locals live on",
        code: "local 0 4 zero
call - v
return (load s32 (reg 0))
",
        choices: "[]",
        status: 0,
        report: "end returned 0\nused 0\nevents 0 2 2 0 0 0 1 1\nfailed 0\n",
    },
    Row {
        name: "the caller's locals die in the caller",
        code: "local 0 4 zero
call - v
kill 0
return (load s32 (reg 0))
",
        choices: "[]",
        status: 0,
        report: "end undefined .start\nused 0\nevents 0 2 2 0 0 0 1 1\nfailed 0\n",
    },
    Row {
        name: "through a pointer",
        code: "callp 0 (obj 1) (sig s32 s32) (s32 41)
return (reg 0)
",
        choices: "[]",
        status: 0,
        report: "end returned 42\nused 0\nevents 0 0 0 0 0 0 1 1\nfailed 0\n",
    },
    Row {
        name: "through a pointer, without a result",
        code: "callp - (obj 2) (sig void)
return
",
        choices: "[]",
        status: 0,
        report: "end returned\nused 0\nevents 0 1 1 0 0 0 1 1\nfailed 0\n",
    },
    Row {
        name: "through a pointer, a result that isn't taken",
        code: "set 0 (s32 9)
callp - (obj 1) (sig s32 s32) (s32 1)
return (reg 0)
",
        choices: "[]",
        status: 0,
        report: "end returned 9\nused 0\nevents 0 0 0 0 0 0 1 1\nfailed 0\n",
    },
    Row {
        name: "through a pointer in memory",
        code: "init ptr (obj 5) (obj 1)
callp 0 (load ptr (obj 5)) (sig s32 s32) (s32 1)
return (reg 0)
",
        choices: "[]",
        status: 0,
        report: "end returned 2\nused 0\nevents 0 0 0 0 0 0 1 1\nfailed 0\n",
    },
    Row {
        name: "through a number",
        code: "callp 0 (s64 281474976710656) (sig s32 s32) (s32 1)
return (reg 0)
",
        choices: "[]",
        status: 0,
        report: "end returned 2\nused 0\nevents 0 0 0 0 0 0 1 1\nfailed 0\n",
    },
    Row {
        name: "through a pointer, without a body",
        code: "callp - (obj 3) (sig void)
return
",
        choices: "[]",
        status: 0,
        report: "end nobody m\nused 0\nevents 0 0 0 0 0 0 1 0\nfailed 0\n",
    },
    Row {
        name: "through a pointer to a dead object",
        code: "alloc 0 (u64 1) (u64 1) zero
free (reg 0)
callp - (reg 0) (sig void)
return
",
        choices: "[1]",
        status: 0,
        report: "end undefined .start\nused 1\nevents 1 1 0 0 1 0 0 0\nfailed 0\n",
    },
    Row {
        name: "1,024 calls at once",
        code: "call - r (s32 1023)
return
",
        choices: "[]",
        status: 0,
        report: "end returned\nused 0\nevents 0 0 0 0 0 0 1024 1024\nfailed 0\n",
    },
    Row {
        name: "a call more at once",
        code: "call - r (s32 1024)
return
",
        choices: "[]",
        status: 0,
        report: "end limit depth\nused 0\nevents 0 0 0 0 0 0 1024 0\nfailed 0\n",
    },
];

#[test]
fn calls(rt: HostRuntime) -> Result<(), Fail> {
    assert_rows(&rt, rt.alloc(), &CALLS)?;
    Ok(())
}
