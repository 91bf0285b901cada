// Objects that are made, drawn and freed.
use crate::rows::{Row, assert_rows};
use std::test::Fail;

// The first object that is made is the object 6.
const MADE: [Row; 21] = [
    Row {
        name: "a local of chosen bytes",
        code: "local 0 2 chosen
return (load u16 (reg 0))
",
        choices: "[257,2,3]",
        status: 0,
        report: "end returned 513\nused 2\nevents 2 1 1 0 0 0 0 0\nfailed 0\n",
    },
    Row {
        name: "no choice for a local",
        code: "local 0 2 chosen
return
",
        choices: "[]",
        status: 0,
        report: "end choices-ended\nused 0\nevents 0 1 0 0 0 0 0 0\nfailed 0\n",
    },
    Row {
        name: "a choice too few for a local",
        code: "local 0 2 chosen
return
",
        choices: "[7]",
        status: 0,
        report: "end choices-ended\nused 1\nevents 1 1 0 0 0 0 0 0\nfailed 0\n",
    },
    Row {
        name: "locals that died are numbered",
        code: "local 0 1 zero
kill 0
local 0 1 zero
return (reg 0)
",
        choices: "[]",
        status: 0,
        report: "end returned 1970324836974592\nused 0\nevents 0 2 2 0 0 0 0 0\nfailed 0\n",
    },
    Row {
        name: "a heap object of zero bytes",
        code: "alloc 0 (u64 2) (u64 2) zero
return (load u32 (reg 0))
",
        choices: "[1]",
        status: 0,
        report: "end returned 0\nused 1\nevents 1 1 0 0 0 0 0 0\nfailed 0\n",
    },
    Row {
        name: "its size is the product",
        code: "alloc 0 (u64 2) (u64 3) zero
return (size (reg 0))
",
        choices: "[3]",
        status: 0,
        report: "end returned 6\nused 1\nevents 1 1 0 0 0 0 0 0\nfailed 0\n",
    },
    Row {
        name: "a heap object of chosen bytes",
        code: "alloc 0 (u64 1) (u64 2) chosen
return (load u16 (reg 0))
",
        choices: "[1,257,2,3]",
        status: 0,
        report: "end returned 513\nused 3\nevents 3 1 0 0 0 0 0 0\nfailed 0\n",
    },
    Row {
        name: "null by choice",
        code: "set 0 (s32 5)
alloc 0 (u64 1) (u64 2) chosen
return (reg 0)
",
        choices: "[2,9,9]",
        status: 0,
        report: "end returned 0\nused 1\nevents 1 0 0 0 0 0 0 0\nfailed 0\n",
    },
    Row {
        name: "the start of a heap object",
        code: "alloc 0 (u64 1) (u64 2) zero
return (reg 0)
",
        choices: "[1]",
        status: 0,
        report: "end returned 1688849860263936\nused 1\nevents 1 1 0 0 0 0 0 0\nfailed 0\n",
    },
    Row {
        name: "the greatest heap object",
        code: "alloc 0 (u64 4096) (u64 4096) zero
return (size (reg 0))
",
        choices: "[1]",
        status: 0,
        report: "end returned 16777216\nused 1\nevents 1 1 0 0 0 0 0 0\nfailed 0\n",
    },
    Row {
        name: "one byte too many",
        code: "set 0 (s32 5)
alloc 0 (u64 16777217) (u64 1) zero
return (reg 0)
",
        choices: "[1]",
        status: 0,
        report: "end returned 0\nused 0\nevents 0 0 0 0 0 0 0 0\nfailed 0\n",
    },
    Row {
        name: "a product of 65 bits",
        code: "set 0 (s32 5)
alloc 0 (u64 4294967296) (u64 4294967296) zero
return (reg 0)
",
        choices: "[1]",
        status: 0,
        report: "end returned 0\nused 0\nevents 0 0 0 0 0 0 0 0\nfailed 0\n",
    },
    Row {
        name: "a product of 128 bits",
        code: "set 0 (s32 5)
alloc 0 (s32 -1) (s32 -1) zero
return (reg 0)
",
        choices: "[1]",
        status: 0,
        report: "end returned 0\nused 0\nevents 0 0 0 0 0 0 0 0\nfailed 0\n",
    },
    Row {
        name: "a heap object without bytes",
        code: "alloc 0 (u64 0) (s32 -1) chosen
return (size (reg 0))
",
        choices: "[1,9]",
        status: 0,
        report: "end returned 0\nused 1\nevents 1 1 0 0 0 0 0 0\nfailed 0\n",
    },
    Row {
        name: "no choice of null",
        code: "alloc 0 (u64 1) (u64 1) zero
return
",
        choices: "[]",
        status: 0,
        report: "end choices-ended\nused 0\nevents 0 0 0 0 0 0 0 0\nfailed 0\n",
    },
    Row {
        name: "a choice too few for a heap object",
        code: "alloc 0 (u64 2) (u64 1) chosen
return
",
        choices: "[1,5]",
        status: 0,
        report: "end choices-ended\nused 2\nevents 2 1 0 0 0 0 0 0\nfailed 0\n",
    },
    Row {
        name: "an object is freed",
        code: "alloc 0 (u64 1) (u64 1) zero
free (reg 0)
return
",
        choices: "[1]",
        status: 0,
        report: "end returned\nused 1\nevents 1 1 0 0 1 0 0 0\nfailed 0\n",
    },
    Row {
        name: "an object is freed twice",
        code: "alloc 0 (u64 1) (u64 1) zero
free (reg 0)
free (reg 0)
return
",
        choices: "[1]",
        status: 0,
        report: "end undefined .start\nused 1\nevents 1 1 0 0 1 0 0 0\nfailed 0\n",
    },
    Row {
        name: "an object is read after its free",
        code: "alloc 0 (u64 1) (u64 1) zero
free (reg 0)
return (load u8 (reg 0))
",
        choices: "[1]",
        status: 0,
        report: "end undefined .start\nused 1\nevents 1 1 0 0 1 0 0 0\nfailed 0\n",
    },
    Row {
        name: "a free inside an object",
        code: "alloc 0 (u64 4) (u64 1) zero
free (at 1 (reg 0) (s32 1))
return
",
        choices: "[1]",
        status: 0,
        report: "end undefined .start\nused 1\nevents 1 1 0 0 0 0 0 0\nfailed 0\n",
    },
    Row {
        name: "a free of a local",
        code: "local 0 4 zero
free (reg 0)
return
",
        choices: "[]",
        status: 0,
        report: "end undefined .start\nused 0\nevents 0 1 0 0 0 0 0 0\nfailed 0\n",
    },
];

// Objects that are drawn; the first is the object 6.
const DRAWN: [Row; 16] = [
    Row {
        name: "a new object",
        code: "objects 3
return (load u8 (ptr 1688849860263936))
",
        choices: "[1,2,1,77]",
        status: 0,
        report: "end returned 77\nused 4\nevents 4 1 0 0 0 0 0 0\nfailed 0\n",
    },
    Row {
        name: "new objects are of three sorts",
        code: "objects 3
return (load u8 (ptr 1688849860263936))
",
        choices: "[1,5,1,77]",
        status: 0,
        report: "end returned 77\nused 4\nevents 4 1 0 0 0 0 0 0\nfailed 0\n",
    },
    Row {
        name: "a new object that is dead",
        code: "objects 3
return (load u8 (ptr 1688849860263936))
",
        choices: "[1,3]",
        status: 0,
        report: "end undefined .start\nused 2\nevents 2 1 0 0 0 0 0 0\nfailed 0\n",
    },
    Row {
        name: "a new object that is dead, of the other sort",
        code: "objects 3
return (load u8 (ptr 1688849860263936))
",
        choices: "[1,4]",
        status: 0,
        report: "end undefined .start\nused 2\nevents 2 1 0 0 0 0 0 0\nfailed 0\n",
    },
    Row {
        name: "two new objects",
        code: "objects 3
return (load u8 (ptr 1970324836974592))
",
        choices: "[2,0,2,1,77]",
        status: 0,
        report: "end returned 77\nused 5\nevents 5 2 0 0 0 0 0 0\nfailed 0\n",
    },
    Row {
        name: "no new objects",
        code: "objects 3
return
",
        choices: "[65531]",
        status: 0,
        report: "end returned\nused 1\nevents 1 0 0 0 0 0 0 0\nfailed 0\n",
    },
    Row {
        name: "a new object is on the heap",
        code: "objects 3
return (freeable (ptr 1688849860263936))
",
        choices: "[1,2,0]",
        status: 0,
        report: "end returned 1\nused 3\nevents 3 1 0 0 0 0 0 0\nfailed 0\n",
    },
    Row {
        name: "the size of a new object",
        code: "objects 3
return (size (ptr 1688849860263936))
",
        choices: "[1,2,16777217]",
        status: 0,
        report: "end returned 0\nused 3\nevents 3 1 0 0 0 0 0 0\nfailed 0\n",
    },
    Row {
        name: "no choice of how many new objects",
        code: "objects 3
return
",
        choices: "[]",
        status: 0,
        report: "end choices-ended\nused 0\nevents 0 0 0 0 0 0 0 0\nfailed 0\n",
    },
    Row {
        name: "no choice of their sort",
        code: "objects 3
return
",
        choices: "[1]",
        status: 0,
        report: "end choices-ended\nused 1\nevents 1 0 0 0 0 0 0 0\nfailed 0\n",
    },
    Row {
        name: "no choice of their size",
        code: "objects 3
return
",
        choices: "[1,2]",
        status: 0,
        report: "end choices-ended\nused 2\nevents 2 0 0 0 0 0 0 0\nfailed 0\n",
    },
    Row {
        name: "no choice of their bytes",
        code: "objects 3
return
",
        choices: "[1,2,1]",
        status: 0,
        report: "end choices-ended\nused 3\nevents 3 1 0 0 0 0 0 0\nfailed 0\n",
    },
    Row {
        name: "an outside object on a stack",
        code: "objects 4
return (freeable (ptr 1688849860263936))
",
        choices: "[1,3,0]",
        status: 0,
        report: "end returned 0\nused 3\nevents 3 1 0 0 0 0 0 0\nfailed 0\n",
    },
    Row {
        name: "an outside object on the heap",
        code: "objects 4
return (freeable (ptr 1688849860263936))
",
        choices: "[1,2,0]",
        status: 0,
        report: "end returned 1\nused 3\nevents 3 1 0 0 0 0 0 0\nfailed 0\n",
    },
    Row {
        name: "outside objects are of four sorts",
        code: "objects 4
return (load u8 (ptr 1688849860263936))
",
        choices: "[1,5]",
        status: 0,
        report: "end undefined .start\nused 2\nevents 2 1 0 0 0 0 0 0\nfailed 0\n",
    },
    Row {
        name: "outside objects, and new ones behind them",
        code: "objects 4
objects 3
return (load u8 (ptr 1970324836974592))
",
        choices: "[1,0,1,2,1,77]",
        status: 0,
        report: "end returned 77\nused 6\nevents 6 2 0 0 0 0 0 0\nfailed 0\n",
    },
];

#[test]
fn made_objects(rt: HostRuntime) -> Result<(), Fail> {
    assert_rows(&rt, rt.alloc(), &MADE)?;
    Ok(())
}

#[test]
fn drawn_objects(rt: HostRuntime) -> Result<(), Fail> {
    assert_rows(&rt, rt.alloc(), &DRAWN)?;
    Ok(())
}
