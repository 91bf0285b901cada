// Objects that the tests of fresh and new ranges have seen.
use crate::rows::{Row, assert_rows};
use std::test::Fail;

// What was seen.
const SEEN: [Row; 10] = [
    Row {
        name: "fresh twice in one expression",
        code: "local 0 4 zero
return (add s32 (mul s32 (s32 10) (fresh (reg 0) (u64 4))) (fresh (reg 0) (u64 4)))
",
        choices: "[]",
        status: 0,
        report: "end returned 10\nused 0\nevents 0 1 1 0 0 0 0 0\nfailed 0\n",
    },
    Row {
        name: "seen until nothing has been",
        code: "local 0 4 zero
check a (fresh (reg 0) (u64 1))
check b (fresh (at 1 (reg 0) (s32 2)) (u64 1))
seen
check c (fresh (reg 0) (u64 1))
return
",
        choices: "[]",
        status: 10,
        report: "end returned\nused 0\nevents 0 1 1 0 0 3 0 0\nfailed 1\nb\n",
    },
    Row {
        name: "a test that fails sees nothing",
        code: "local 0 4 zero
check a (fresh (reg 0) (u64 5))
check b (ok (reg 0) (u64 4))
check c (fresh (reg 0) (u64 4))
return
",
        choices: "[]",
        status: 10,
        report: "end returned\nused 0\nevents 0 1 1 0 0 3 0 0\nfailed 1\na\n",
    },
    Row {
        name: "new needs a set, and an object behind it",
        code: "local 0 4 zero
check a (new (reg 0) (u64 4))
push
check b (new (reg 0) (u64 4))
local 1 4 zero
check c (new (reg 1) (u64 4))
check d (new (reg 1) (u64 4))
check e (fresh (reg 1) (u64 4))
check f (fresh (reg 0) (u64 4))
return
",
        choices: "[]",
        status: 10,
        report: "end returned\nused 0\nevents 0 2 2 0 0 6 0 0\nfailed 4\na\nb\nd\ne\n",
    },
    Row {
        name: "an expression without a value has seen",
        code: "local 0 4 zero
keep 1 (add s32 (fresh (reg 0) (u64 4)) (size (ptr 0)))
check a (fresh (reg 0) (u64 4))
return
",
        choices: "[]",
        status: 10,
        report: "end returned\nused 0\nevents 0 1 1 0 0 1 0 0\nfailed 1\na\n",
    },
    Row {
        name: "an operand that isn't asked sees nothing",
        code: "local 0 4 zero
keep 1 (and2 (s32 0) (fresh (reg 0) (u64 4)))
keep 1 (or2 (s32 1) (fresh (reg 0) (u64 4)))
keep 1 (if (s32 1) (s32 1) (fresh (reg 0) (u64 4)))
keep 1 (add s32 (size (ptr 0)) (fresh (reg 0) (u64 4)))
check a (fresh (reg 0) (u64 4))
return
",
        choices: "[]",
        status: 0,
        report: "end returned\nused 0\nevents 0 1 1 0 0 1 0 0\nfailed 0\n",
    },
    Row {
        name: "each turn of a quantifier sees",
        code: "local 0 4 zero
return (exists 0 s32 (s32 0) (s32 2) (eq s32 (fresh (reg 0) (u64 4)) (s32 0)))
",
        choices: "[]",
        status: 0,
        report: "end returned 1\nused 0\nevents 0 1 1 0 0 0 0 0\nfailed 0\n",
    },
    Row {
        name: "bounds see before the turns",
        code: "local 0 4 zero
return (forall 0 s32 (s32 0) (fresh (reg 0) (u64 4)) (eq s32 (fresh (reg 0) (u64 4)) (s32 0)))
",
        choices: "[]",
        status: 0,
        report: "end returned 1\nused 0\nevents 0 1 1 0 0 0 0 0\nfailed 0\n",
    },
    Row {
        name: "a call has seen what its caller has",
        code: "local 0 4 zero
check a (fresh (reg 0) (u64 4))
call - v
check b (fresh (reg 0) (u64 4))
return
",
        choices: "[]",
        status: 10,
        report: "end returned\nused 0\nevents 0 2 2 0 0 2 1 1\nfailed 1\nb\n",
    },
    Row {
        name: "a heap object is seen as one on the stack",
        code: "alloc 0 (u64 1) (u64 1) zero
local 1 1 zero
check a (fresh (reg 0) (u64 1))
check b (fresh (reg 1) (u64 1))
check c (fresh (reg 0) (u64 1))
check d (fresh (obj 5) (u64 1))
return
",
        choices: "[1]",
        status: 10,
        report: "end returned\nused 1\nevents 1 2 1 0 0 4 0 0\nfailed 2\nc\nd\n",
    },
];

#[test]
fn seen_objects(rt: HostRuntime) -> Result<(), Fail> {
    assert_rows(&rt, rt.alloc(), &SEEN)?;
    Ok(())
}
