// Bytes that are written, copied and drawn.
use crate::rows::{Row, assert_rows};
use std::test::Fail;

// The variable is the object 5, of 8 bytes.
const BYTES: [Row; 14] = [
    Row {
        name: "a value is converted to what is written",
        code: "local 0 4 zero
store u16 (reg 0) (s32 -1)
return (load u32 (reg 0))
",
        choices: "[]",
        status: 0,
        report: "end returned 65535\nused 0\nevents 0 1 1 1 0 0 0 0\nfailed 0\n",
    },
    Row {
        name: "a truth value takes a byte",
        code: "fill (obj 5) (s32 7) (u64 2)
store bool (obj 5) (s32 256)
return (load u16 (obj 5))
",
        choices: "[]",
        status: 0,
        report: "end returned 1793\nused 0\nevents 0 0 0 2 0 0 0 0\nfailed 0\n",
    },
    Row {
        name: "an address is any number",
        code: "store u8 (s64 1407374883553280) (s32 7)
return (load u8 (obj 5))
",
        choices: "[]",
        status: 0,
        report: "end returned 7\nused 0\nevents 0 0 0 1 0 0 0 0\nfailed 0\n",
    },
    Row {
        name: "the last bytes of an object",
        code: "store s32 (at 1 (obj 5) (s32 4)) (s32 -2)
return (load s64 (obj 5))
",
        choices: "[]",
        status: 0,
        report: "end returned -8589934592\nused 0\nevents 0 0 0 1 0 0 0 0\nfailed 0\n",
    },
    Row {
        name: "a first value is no event",
        code: "init s32 (obj 5) (s32 7)
return (load s32 (obj 5))
",
        choices: "[]",
        status: 0,
        report: "end returned 7\nused 0\nevents 0 0 0 0 0 0 0 0\nfailed 0\n",
    },
    Row {
        name: "a copy up over itself",
        code: "init u64 (obj 5) (u64 578437695752307201)
copy (at 1 (obj 5) (s32 2)) (obj 5) (u64 5)
return (load u64 (obj 5))
",
        choices: "[]",
        status: 0,
        report: "end returned 577872538152010241\nused 0\nevents 0 0 0 1 0 0 0 0\nfailed 0\n",
    },
    Row {
        name: "a copy down over itself",
        code: "init u64 (obj 5) (u64 578437695752307201)
copy (obj 5) (at 1 (obj 5) (s32 2)) (u64 5)
return (load u64 (obj 5))
",
        choices: "[]",
        status: 0,
        report: "end returned 578437704375927811\nused 0\nevents 0 0 0 1 0 0 0 0\nfailed 0\n",
    },
    Row {
        name: "a copy to another object",
        code: "local 0 4 zero
init u64 (obj 5) (u64 578437695752307201)
copy (at 1 (reg 0) (s32 1)) (at 1 (obj 5) (s32 5)) (u64 3)
return (load u32 (reg 0))
",
        choices: "[]",
        status: 0,
        report: "end returned 134678016\nused 0\nevents 0 1 1 1 0 0 0 0\nfailed 0\n",
    },
    Row {
        name: "a fill by a number that is no byte",
        code: "fill (at 1 (obj 5) (s32 1)) (s32 258) (u64 3)
return (load u64 (obj 5))
",
        choices: "[]",
        status: 0,
        report: "end returned 33686016\nused 0\nevents 0 0 0 1 0 0 0 0\nfailed 0\n",
    },
    Row {
        name: "two objects lie apart",
        code: "local 0 8 zero
probe apart (reg 0) (obj 5) (u64 8)
return
",
        choices: "[]",
        status: 0,
        report: "end returned\nused 0\nevents 0 1 1 0 0 0 0 0\nfailed 0\n",
    },
    Row {
        name: "no bytes of a dead object",
        code: "local 0 8 zero
kill 0
copy (reg 0) (obj 5) (u64 0)
fill (reg 0) (s32 1) (u64 0)
probe apart (reg 0) (reg 0) (u64 0)
copy (obj 5) (reg 0) (u64 1)
return
",
        choices: "[]",
        status: 0,
        report: "end undefined .start\nused 0\nevents 0 1 1 0 0 0 0 0\nfailed 0\n",
    },
    Row {
        name: "variables of drawn bytes",
        code: "statics
return (load u64 (obj 5))
",
        choices: "[257,2,3,4,5,6,7,8,9]",
        status: 0,
        report: "end returned 578437695752307201\nused 8\nevents 8 0 0 0 0 0 0 0\nfailed 0\n",
    },
    Row {
        name: "no choice for a variable",
        code: "statics
return
",
        choices: "[]",
        status: 0,
        report: "end choices-ended\nused 0\nevents 0 0 0 0 0 0 0 0\nfailed 0\n",
    },
    Row {
        name: "a choice too few for a variable",
        code: "statics
return
",
        choices: "[1,2,3,4,5,6,7]",
        status: 0,
        report: "end choices-ended\nused 7\nevents 7 0 0 0 0 0 0 0\nfailed 0\n",
    },
];

#[test]
fn bytes(rt: HostRuntime) -> Result<(), Fail> {
    assert_rows(&rt, rt.alloc(), &BYTES)?;
    Ok(())
}
