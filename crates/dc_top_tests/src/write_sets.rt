// Write sets: what they cover, let be freed, and hold of each other.
use crate::rows::{Row, assert_rows};
use std::test::Fail;

// The variable is the object 5, of 8 bytes.
const COVERS: [Row; 8] = [
    Row {
        name: "no set covers anything",
        code: "covers a (obj 5) (u64 1)
return
",
        choices: "[]",
        status: 10,
        report: "end returned\nused 0\nevents 0 0 0 0 0 1 0 0\nfailed 1\na\n",
    },
    Row {
        name: "what is no write is covered",
        code: "covers a (obj 5) (u64 0)
covers b (at 1 (obj 5) (s32 1)) (u64 8)
covers c (ptr 0) (u64 1)
covers d (obj 1) (u64 1)
covers e (obj 5) (s32 -1)
covers f (size (ptr 0)) (u64 1)
covers g (obj 5) (size (ptr 0))
return
",
        choices: "[]",
        status: 0,
        report: "end returned\nused 0\nevents 0 0 0 0 0 7 0 0\nfailed 0\n",
    },
    Row {
        name: "a range covers what is in it",
        code: "push
range 1 (s32 -1) (at 1 (obj 5) (s32 2)) (u64 4)
covers a (at 1 (obj 5) (s32 2)) (u64 4)
covers b (at 1 (obj 5) (s32 3)) (u64 2)
covers c (at 1 (obj 5) (s32 1)) (u64 2)
covers d (at 1 (obj 5) (s32 5)) (u64 2)
covers e (obj 5) (u64 8)
return
",
        choices: "[]",
        status: 10,
        report: "end returned\nused 0\nevents 0 0 0 0 0 5 0 0\nfailed 3\nc\nd\ne\n",
    },
    Row {
        name: "ranges side by side aren't taken together",
        code: "push
range 1 (s32 1) (obj 5) (u64 4)
range 1 (s32 1) (at 1 (obj 5) (s32 4)) (u64 4)
covers a (obj 5) (u64 4)
covers b (at 1 (obj 5) (s32 4)) (u64 4)
covers c (obj 5) (u64 8)
covers d (at 1 (obj 5) (s32 3)) (u64 2)
return
",
        choices: "[]",
        status: 10,
        report: "end returned\nused 0\nevents 0 0 0 0 0 4 0 0\nfailed 2\nc\nd\n",
    },
    Row {
        name: "an object behind the set is covered",
        code: "local 0 4 zero
push
local 1 4 zero
covers a (reg 0) (u64 4)
covers b (reg 1) (u64 4)
return
",
        choices: "[]",
        status: 10,
        report: "end returned\nused 0\nevents 0 2 2 0 0 2 0 0\nfailed 1\na\n",
    },
    Row {
        name: "ranges that denote nothing",
        code: "local 0 4 zero
kill 0
push
range 1 (s32 0) (obj 5) (u64 8)
range 1 (size (ptr 0)) (obj 5) (u64 8)
range 1 (s32 1) (size (ptr 0)) (u64 8)
range 1 (s32 1) (obj 5) (size (ptr 0))
range 1 (s32 1) (obj 5) (u64 0)
range 1 (s32 1) (obj 5) (u64 9)
range 1 (s32 1) (at 1 (obj 5) (s32 1)) (s32 -1)
range 1 (s32 1) (obj 1) (u64 1)
range 1 (s32 1) (reg 0) (u64 4)
inside a 1
covers b (obj 5) (u64 1)
return
",
        choices: "[]",
        status: 10,
        report: "end returned\nused 0\nevents 0 1 1 0 0 2 0 0\nfailed 1\nb\n",
    },
    Row {
        name: "a range without a set",
        code: "range 1 (s32 1) (obj 5) (u64 8)
push
covers a (obj 5) (u64 1)
return
",
        choices: "[]",
        status: 10,
        report: "end returned\nused 0\nevents 0 0 0 0 0 1 0 0\nfailed 1\na\n",
    },
    Row {
        name: "the innermost set is asked",
        code: "push
range 1 (s32 1) (obj 5) (u64 8)
push
covers a (obj 5) (u64 8)
pop
covers b (obj 5) (u64 8)
pop
covers c (obj 5) (u64 8)
pop
return
",
        choices: "[]",
        status: 10,
        report: "end returned\nused 0\nevents 0 0 0 0 0 3 0 0\nfailed 2\na\nc\n",
    },
];

// What may be freed.
const MAY_FREE: [Row; 4] = [
    Row {
        name: "what is no free is allowed",
        code: "local 0 4 zero
alloc 1 (u64 4) (u64 1) zero
mayfree a (ptr 0)
mayfree b (at 1 (reg 1) (s32 1))
mayfree c (reg 0)
mayfree d (obj 5)
mayfree e (obj 1)
mayfree f (size (ptr 0))
free (reg 1)
mayfree g (reg 1)
return
",
        choices: "[1]",
        status: 0,
        report: "end returned\nused 1\nevents 1 2 1 0 1 7 0 0\nfailed 0\n",
    },
    Row {
        name: "no set lets an object be freed",
        code: "alloc 0 (u64 1) (u64 1) zero
mayfree a (reg 0)
return
",
        choices: "[1]",
        status: 10,
        report: "end returned\nused 1\nevents 1 1 0 0 0 1 0 0\nfailed 1\na\n",
    },
    Row {
        name: "listed and new objects may be freed",
        code: "alloc 0 (u64 1) (u64 1) zero
alloc 1 (u64 1) (u64 1) zero
push
target 1 (s32 -1) (reg 0)
alloc 2 (u64 1) (u64 1) zero
mayfree a (reg 0)
mayfree b (reg 1)
mayfree c (reg 2)
pop
mayfree d (reg 2)
return
",
        choices: "[1,1,1]",
        status: 10,
        report: "end returned\nused 3\nevents 3 3 0 0 0 4 0 0\nfailed 2\nb\nd\n",
    },
    Row {
        name: "targets that denote nothing",
        code: "local 0 4 zero
alloc 1 (u64 4) (u64 1) zero
alloc 2 (u64 4) (u64 1) zero
free (reg 2)
target 1 (s32 1) (reg 1)
push
target 1 (s32 0) (reg 1)
target 1 (size (ptr 0)) (reg 1)
target 1 (s32 1) (size (ptr 0))
target 1 (s32 1) (ptr 0)
target 1 (s32 1) (at 1 (reg 1) (s32 1))
target 1 (s32 1) (reg 0)
target 1 (s32 1) (reg 2)
target 1 (s32 1) (obj 1)
inside a 1
mayfree b (reg 1)
return
",
        choices: "[1,1]",
        status: 10,
        report: "end returned\nused 2\nevents 2 3 1 0 1 2 0 0\nfailed 1\nb\n",
    },
];

// What the next set allows.
const INSIDE: [Row; 8] = [
    Row {
        name: "inside without a set",
        code: "inside a 1
return
",
        choices: "[]",
        status: 0,
        report: "end returned\nused 0\nevents 0 0 0 0 0 1 0 0\nfailed 0\n",
    },
    Row {
        name: "no next set allows anything",
        code: "push
inside a 1
range 1 (s32 1) (obj 5) (u64 1)
inside b 1
inside c 2
return
",
        choices: "[]",
        status: 10,
        report: "end returned\nused 0\nevents 0 0 0 0 0 3 0 0\nfailed 1\nb\n",
    },
    Row {
        name: "a range in the next set's, and one that isn't",
        code: "push
range 1 (s32 1) (obj 5) (u64 4)
push
range 7 (s32 1) (obj 5) (u64 4)
range 8 (s32 1) (at 1 (obj 5) (s32 1)) (u64 4)
inside a 7
inside b 8
inside c 9
inside d 1
return
",
        choices: "[]",
        status: 10,
        report: "end returned\nused 0\nevents 0 0 0 0 0 4 0 0\nfailed 1\nb\n",
    },
    Row {
        name: "a range over two of the next set's",
        code: "push
range 1 (s32 1) (obj 5) (u64 4)
range 2 (s32 1) (at 1 (obj 5) (s32 4)) (u64 4)
push
range 7 (s32 1) (obj 5) (u64 8)
inside a 7
return
",
        choices: "[]",
        status: 10,
        report: "end returned\nused 0\nevents 0 0 0 0 0 1 0 0\nfailed 1\na\n",
    },
    Row {
        name: "an object behind the next set",
        code: "local 0 4 zero
push
local 1 4 zero
push
range 7 (s32 1) (reg 0) (u64 4)
range 8 (s32 1) (reg 1) (u64 4)
inside a 7
inside b 8
return
",
        choices: "[]",
        status: 10,
        report: "end returned\nused 0\nevents 0 2 2 0 0 2 0 0\nfailed 1\na\n",
    },
    Row {
        name: "the third set isn't asked",
        code: "push
range 1 (s32 1) (obj 5) (u64 8)
push
push
range 1 (s32 1) (obj 5) (u64 8)
inside a 1
return
",
        choices: "[]",
        status: 10,
        report: "end returned\nused 0\nevents 0 0 0 0 0 1 0 0\nfailed 1\na\n",
    },
    Row {
        name: "an object that the next set lets be freed, and one that it doesn't",
        code: "alloc 0 (u64 1) (u64 1) zero
alloc 1 (u64 1) (u64 1) zero
push
target 1 (s32 1) (reg 0)
alloc 2 (u64 1) (u64 1) zero
push
target 7 (s32 1) (reg 0)
target 8 (s32 1) (reg 1)
target 9 (s32 1) (reg 2)
inside a 7
inside b 8
inside c 9
return
",
        choices: "[1,1,1]",
        status: 10,
        report: "end returned\nused 3\nevents 3 3 0 0 0 3 0 0\nfailed 1\nb\n",
    },
    Row {
        name: "a range inside, and an object that isn't",
        code: "alloc 0 (u64 1) (u64 1) zero
push
range 1 (s32 1) (obj 5) (u64 8)
push
range 7 (s32 1) (obj 5) (u64 8)
target 7 (s32 1) (reg 0)
inside a 7
return
",
        choices: "[1]",
        status: 10,
        report: "end returned\nused 1\nevents 1 1 0 0 0 1 0 0\nfailed 1\na\n",
    },
];

#[test]
fn covered_writes(rt: HostRuntime) -> Result<(), Fail> {
    assert_rows(&rt, rt.alloc(), &COVERS)?;
    Ok(())
}

#[test]
fn allowed_frees(rt: HostRuntime) -> Result<(), Fail> {
    assert_rows(&rt, rt.alloc(), &MAY_FREE)?;
    Ok(())
}

#[test]
fn inside_the_next_set(rt: HostRuntime) -> Result<(), Fail> {
    assert_rows(&rt, rt.alloc(), &INSIDE)?;
    Ok(())
}
