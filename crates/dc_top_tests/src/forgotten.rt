// What was freed, and what is forgotten of a write set's bytes and objects.
use crate::rows::{Row, assert_rows};
use std::test::Fail;

// What was freed since the innermost set was made.
const FREED: [Row; 8] = [
    Row {
        name: "freed, without a set",
        code: "alloc 0 (u64 1) (u64 1) zero
free (reg 0)
return (freed (reg 0))
",
        choices: "[1]",
        status: 0,
        report: "end returned 0\nused 1\nevents 1 1 0 0 1 0 0 0\nfailed 0\n",
    },
    Row {
        name: "freed before the set",
        code: "alloc 0 (u64 1) (u64 1) zero
free (reg 0)
push
return (freed (reg 0))
",
        choices: "[1]",
        status: 0,
        report: "end returned 0\nused 1\nevents 1 1 0 0 1 0 0 0\nfailed 0\n",
    },
    Row {
        name: "freed behind the set",
        code: "alloc 0 (u64 1) (u64 1) zero
push
free (reg 0)
return (freed (ptr 1688849860263940))
",
        choices: "[1]",
        status: 0,
        report: "end returned 1\nused 1\nevents 1 1 0 0 1 0 0 0\nfailed 0\n",
    },
    Row {
        name: "freed, but new",
        code: "push
alloc 0 (u64 1) (u64 1) zero
free (reg 0)
return (freed (reg 0))
",
        choices: "[1]",
        status: 0,
        report: "end returned 0\nused 1\nevents 1 1 0 0 1 0 0 0\nfailed 0\n",
    },
    Row {
        name: "not freed",
        code: "alloc 0 (u64 1) (u64 1) zero
push
return (freed (reg 0))
",
        choices: "[1]",
        status: 0,
        report: "end returned 0\nused 1\nevents 1 1 0 0 0 0 0 0\nfailed 0\n",
    },
    Row {
        name: "killed, but not freed",
        code: "local 0 1 zero
push
kill 0
return (freed (reg 0))
",
        choices: "[]",
        status: 0,
        report: "end returned 0\nused 0\nevents 0 1 1 0 0 0 0 0\nfailed 0\n",
    },
    Row {
        name: "freed before the inner set",
        code: "alloc 0 (u64 1) (u64 1) zero
push
free (reg 0)
push
check a (freed (reg 0))
pop
check b (freed (reg 0))
return
",
        choices: "[1]",
        status: 10,
        report: "end returned\nused 1\nevents 1 1 0 0 1 2 0 0\nfailed 1\na\n",
    },
    Row {
        name: "freed within the inner set",
        code: "alloc 0 (u64 1) (u64 1) zero
push
push
free (reg 0)
check a (freed (reg 0))
pop
check b (freed (reg 0))
pop
push
check c (freed (reg 0))
return
",
        choices: "[1]",
        status: 10,
        report: "end returned\nused 1\nevents 1 1 0 0 1 3 0 0\nfailed 1\nc\n",
    },
];

// Bytes and objects that are drawn.
const FORGOTTEN: [Row; 13] = [
    Row {
        name: "havoc where ranges overlap",
        code: "push
range 1 (s32 1) (obj 5) (u64 4)
range 2 (s32 1) (at 1 (obj 5) (s32 2)) (u64 4)
havoc
return (load u64 (obj 5))
",
        choices: "[1,2,3,4,5,6,7,264,9]",
        status: 0,
        report: "end returned 8826258784769\nused 8\nevents 8 0 0 0 0 0 0 0\nfailed 0\n",
    },
    Row {
        name: "havoc where an object died",
        code: "alloc 0 (u64 2) (u64 1) zero
push
range 1 (s32 1) (reg 0) (u64 2)
range 2 (s32 1) (obj 5) (u64 1)
free (reg 0)
havoc
return (load u8 (obj 5))
",
        choices: "[1,9]",
        status: 0,
        report: "end returned 9\nused 2\nevents 2 1 0 0 1 0 0 0\nfailed 0\n",
    },
    Row {
        name: "havoc without a set within",
        code: "push
range 1 (s32 1) (obj 5) (u64 8)
push
havoc
return (load u8 (obj 5))
",
        choices: "[1]",
        status: 0,
        report: "end returned 0\nused 0\nevents 0 0 0 0 0 0 0 0\nfailed 0\n",
    },
    Row {
        name: "no choice for havoc",
        code: "push
range 1 (s32 1) (obj 5) (u64 1)
havoc
return
",
        choices: "[]",
        status: 0,
        report: "end choices-ended\nused 0\nevents 0 0 0 0 0 0 0 0\nfailed 0\n",
    },
    Row {
        name: "a choice too few for havoc",
        code: "push
range 1 (s32 1) (obj 5) (u64 1)
range 1 (s32 1) (obj 5) (u64 2)
havoc
return
",
        choices: "[7,8]",
        status: 0,
        report: "end choices-ended\nused 2\nevents 2 0 0 0 0 0 0 0\nfailed 0\n",
    },
    Row {
        name: "frees where 0 is drawn",
        code: "alloc 0 (u64 1) (u64 1) zero
push
target 1 (s32 1) (reg 0)
frees
check a (freed (reg 0))
return (load u8 (reg 0))
",
        choices: "[1,2]",
        status: 10,
        report: "end returned 0\nused 2\nevents 2 1 0 0 0 1 0 0\nfailed 1\na\n",
    },
    Row {
        name: "frees where 1 is drawn",
        code: "alloc 0 (u64 1) (u64 1) zero
push
target 1 (s32 1) (reg 0)
frees
check a (freed (reg 0))
return (load u8 (reg 0))
",
        choices: "[1,3]",
        status: 0,
        report: "end undefined .start\nused 2\nevents 2 1 1 0 0 1 0 0\nfailed 0\n",
    },
    Row {
        name: "an object is listed twice",
        code: "alloc 0 (u64 1) (u64 1) zero
push
target 1 (s32 1) (reg 0)
target 2 (s32 1) (reg 0)
frees
return (freed (reg 0))
",
        choices: "[1,1,1]",
        status: 0,
        report: "end returned 1\nused 3\nevents 3 1 1 0 0 0 0 0\nfailed 0\n",
    },
    Row {
        name: "an object is listed twice, and 0 is drawn first",
        code: "alloc 0 (u64 1) (u64 1) zero
push
target 1 (s32 1) (reg 0)
target 1 (s32 1) (reg 0)
frees
return (freed (reg 0))
",
        choices: "[1,0,1]",
        status: 0,
        report: "end returned 1\nused 3\nevents 3 1 1 0 0 0 0 0\nfailed 0\n",
    },
    Row {
        name: "frees where an object died",
        code: "alloc 0 (u64 1) (u64 1) zero
push
target 1 (s32 1) (reg 0)
free (reg 0)
frees
return
",
        choices: "[1,1]",
        status: 0,
        report: "end returned\nused 2\nevents 2 1 0 0 1 0 0 0\nfailed 0\n",
    },
    Row {
        name: "frees without a set within",
        code: "alloc 0 (u64 1) (u64 1) zero
push
target 1 (s32 1) (reg 0)
push
frees
return (load u8 (reg 0))
",
        choices: "[1,1]",
        status: 0,
        report: "end returned 0\nused 1\nevents 1 1 0 0 0 0 0 0\nfailed 0\n",
    },
    Row {
        name: "a choice too few for frees",
        code: "alloc 0 (u64 1) (u64 1) zero
alloc 1 (u64 1) (u64 1) zero
push
target 1 (s32 1) (reg 1)
target 1 (s32 1) (reg 0)
frees
return
",
        choices: "[1,1,1]",
        status: 0,
        report: "end choices-ended\nused 3\nevents 3 2 1 0 0 0 0 0\nfailed 0\n",
    },
    Row {
        name: "new objects behind a set",
        code: "push
objects 3
covers a (ptr 1688849860263936) (u64 1)
mayfree b (ptr 1688849860263936)
check c (new (ptr 1688849860263936) (u64 1))
return
",
        choices: "[1,2,1,77]",
        status: 0,
        report: "end returned\nused 4\nevents 4 1 0 0 0 3 0 0\nfailed 0\n",
    },
];

#[test]
fn freed_objects(rt: HostRuntime) -> Result<(), Fail> {
    assert_rows(&rt, rt.alloc(), &FREED)?;
    Ok(())
}

#[test]
fn forgotten_bytes_and_objects(rt: HostRuntime) -> Result<(), Fail> {
    assert_rows(&rt, rt.alloc(), &FORGOTTEN)?;
    Ok(())
}
