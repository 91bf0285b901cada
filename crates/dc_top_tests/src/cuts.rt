// Runs that are cut after so many steps, and choices that end at each place.
use crate::harness::{NO_FAULT, run_both};
use crate::rows::{HEAD, LONG, text_of};
use std::alloc::{AllocError, Global};
use std::test::Fail;

// So many steps of 1,024 calls, and their report.
const STEPS: [(&str, &str); 6] = [
    ("0", "end cut\nused 0\nevents 0 0 0 0 0 0 0 0\nfailed 0\n"),
    ("1", "end cut\nused 0\nevents 0 0 0 0 0 0 1 0\nfailed 0\n"),
    ("2", "end cut\nused 0\nevents 0 0 0 0 0 0 1 0\nfailed 0\n"),
    (
        "3071",
        "end cut\nused 0\nevents 0 0 0 0 0 0 1024 1023\nfailed 0\n",
    ),
    (
        "3072",
        "end cut\nused 0\nevents 0 0 0 0 0 0 1024 1024\nfailed 0\n",
    ),
    (
        "3073",
        "end returned\nused 0\nevents 0 0 0 0 0 0 1024 1024\nfailed 0\n",
    ),
];

#[test]
fn steps_of_calls(rt: HostRuntime) -> Result<(), Fail> {
    let text = text_of(
        rt.alloc(),
        &[HEAD, "call - r (s32 1023)\nreturn\n", "end\n"],
    )?;
    for (steps, report) in &STEPS {
        let words = ["replay", "a.c", "choices.json", *steps];
        let outcome = run_both(rt.alloc(), &words, text.as_slice(), b"[]", &NO_FAULT)?;
        assert_eq!(rt; outcome.out.as_slice(), report.as_bytes(), "{}", steps);
    }
    Ok(())
}

// Each instruction that draws, the last one a local.
const DRAWING: &str = "statics
objects 4
draw 0 ptr
local 1 2 chosen
alloc 2 (u64 1) (u64 2) chosen
push
range 1 (s32 1) (obj 5) (u64 1)
target 1 (s32 1) (reg 2)
havoc
frees
objects 3
local 3 1 chosen
return
";

// 8 bytes of the variable; an outside object of 1 byte on the heap; a register; 2 bytes of a local; a heap object of 2 bytes;
// a byte of the variable again; the heap object dies; no new objects; a byte of a local.
const CHOICES: [&str; 24] = [
    "1", "2", "3", "4", "5", "6", "7", "8", "1", "2", "1", "9", "10", "11", "12", "1", "13", "14",
    "15", "1", "0", "16", "17", "18",
];

// The first so many choices as a list.
fn front(alloc: Global, count: usize) -> Result<Vec<u8>, AllocError> {
    let mut list = Vec::from_slice(alloc, b"[")?;
    for (place, choice) in CHOICES.iter().take(count).enumerate() {
        if place > 0 {
            list.push(b',')?;
        }
        list.extend_from_slice(choice.as_bytes())?;
    }
    list.push(b']')?;
    Ok(list)
}

// How many objects are created before so many choices have been taken and there is none more.
const CREATED: [u64; 22] = [
    0, 0, 0, 0, 0, 0, 0, 0, 0, 0, 0, 1, 1, 2, 2, 2, 3, 3, 3, 3, 3, 4,
];

#[test]
fn choices_end_at_each_place(rt: HostRuntime) -> Result<(), Fail> {
    let text = text_of(rt.alloc(), &[HEAD, DRAWING, "end\n"])?;
    for (taken, created) in CREATED.iter().enumerate() {
        let choices = front(rt.alloc(), taken)?;
        let outcome = run_both(
            rt.alloc(),
            LONG,
            text.as_slice(),
            choices.as_slice(),
            &NO_FAULT,
        )?;
        let kills = if taken >= 20 { 1 } else { 0 };
        let report = format!(in rt.alloc();
            "end choices-ended\nused {taken}\nevents {taken} {created} {kills} 0 0 0 0 0\nfailed 0\n"
        )?;
        assert_eq!(rt; outcome.out.as_slice(), report.as_bytes(), "{}", taken);
    }
    Ok(())
}

// So many steps, and how many choices were taken, objects created, and objects killed by then. The last step leaves the start.
const CUT: [(&str, u64, u64, u64); 14] = [
    ("0", 0, 0, 0),
    ("1", 8, 0, 0),
    ("2", 12, 1, 0),
    ("3", 13, 1, 0),
    ("4", 15, 2, 0),
    ("5", 18, 3, 0),
    ("6", 18, 3, 0),
    ("7", 18, 3, 0),
    ("8", 18, 3, 0),
    ("9", 19, 3, 0),
    ("10", 20, 3, 1),
    ("11", 21, 3, 1),
    ("12", 22, 4, 1),
    ("13", 22, 4, 3),
];

#[test]
fn cut_at_each_step(rt: HostRuntime) -> Result<(), Fail> {
    let text = text_of(rt.alloc(), &[HEAD, DRAWING, "end\n"])?;
    let choices = front(rt.alloc(), 24)?;
    for (steps, drawn, created, killed) in &CUT {
        let words = ["replay", "a.c", "choices.json", *steps];
        let outcome = run_both(
            rt.alloc(),
            &words,
            text.as_slice(),
            choices.as_slice(),
            &NO_FAULT,
        )?;
        let end = if *steps == "13" { "returned" } else { "cut" };
        let report = format!(in rt.alloc();
            "end {end}\nused {drawn}\nevents {drawn} {created} {killed} 0 0 0 0 0\nfailed 0\n"
        )?;
        assert_eq!(rt; outcome.out.as_slice(), report.as_bytes(), "{}", steps);
    }
    Ok(())
}
