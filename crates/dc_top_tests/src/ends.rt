// Instructions that end the run, that fail a name, and that do nothing.
use crate::harness::{NO_FAULT, run_both};
use crate::rows::{HEAD, LONG, text_of};
use std::alloc::{AllocError, Global};
use std::process::Abort;
use std::test::Fail;

// Nothing happens before the end. The size of null has no value.
const UNDEFINED: [&str; 58] = [
    "set 0 (size (ptr 0))",
    "store s32 (size (ptr 0)) (s32 1)",
    "store s32 (obj 5) (size (ptr 0))",
    "store s32 (at 1 (obj 5) (s32 5)) (s32 1)",
    "store u8 (ptr 0) (s32 1)",
    "store u8 (obj 1) (s32 1)",
    "init s32 (size (ptr 0)) (s32 1)",
    "init s32 (obj 5) (size (ptr 0))",
    "init s32 (at 1 (obj 5) (s32 5)) (s32 1)",
    "copy (size (ptr 0)) (obj 5) (u64 0)",
    "copy (obj 5) (size (ptr 0)) (u64 0)",
    "copy (obj 5) (obj 5) (size (ptr 0))",
    "copy (obj 5) (at 1 (obj 5) (s32 1)) (u64 8)",
    "copy (at 1 (obj 5) (s32 8)) (obj 5) (u64 1)",
    "copy (ptr 0) (obj 5) (u64 1)",
    "copy (obj 5) (ptr 0) (u64 1)",
    "copy (obj 5) (obj 5) (s32 -1)",
    "fill (size (ptr 0)) (s32 1) (u64 0)",
    "fill (obj 5) (size (ptr 0)) (u64 0)",
    "fill (obj 5) (s32 1) (size (ptr 0))",
    "fill (at 1 (obj 5) (s32 1)) (s32 1) (u64 8)",
    "fill (ptr 0) (s32 1) (u64 1)",
    "fill (at 1 (obj 5) (s32 1)) (s32 1) (s32 -1)",
    "probe any (size (ptr 0)) (obj 5) (u64 0)",
    "probe any (obj 5) (size (ptr 0)) (u64 0)",
    "probe apart (obj 5) (obj 5) (size (ptr 0))",
    "probe any (at 1 (obj 5) (s32 1)) (obj 5) (u64 8)",
    "probe any (obj 5) (at 1 (obj 5) (s32 1)) (u64 8)",
    "probe any (obj 5) (ptr 0) (u64 1)",
    "probe apart (obj 5) (obj 5) (u64 1)",
    "probe apart (obj 5) (at 1 (obj 5) (s32 3)) (u64 4)",
    "probe apart (at 1 (obj 5) (s32 3)) (obj 5) (u64 4)",
    "alloc 0 (size (ptr 0)) (u64 1) zero",
    "alloc 0 (u64 1) (size (ptr 0)) chosen",
    "free (size (ptr 0))",
    "free (obj 5)",
    "free (obj 1)",
    "free (ptr 1)",
    "free (ptr 1688849860263936)",
    "trap",
    "ifnot (size (ptr 0)) 1",
    "call 0 f (size (ptr 0))",
    "callp 0 (size (ptr 0)) (sig s32 s32) (s32 1)",
    "callp 0 (obj 1) (sig s32 s32) (size (ptr 0))",
    "callp 0 (obj 1) (sig u32 s32) (s32 1)",
    "callp 0 (obj 2) (sig s32)",
    "callp - (obj 1) (sig void s32) (s32 1)",
    "callp 0 (obj 1) (sig s32)",
    "callp 0 (obj 1) (sig s32 s32 s32) (s32 1) (s32 1)",
    "callp 0 (obj 1) (sig s32 u32) (s32 1)",
    "callp 0 (ptr 281474976710657) (sig s32 s32) (s32 1)",
    "callp - (ptr 0) (sig void)",
    "callp - (obj 5) (sig void)",
    "callp - (ptr 1688849860263936) (sig void)",
    "callp - (ptr 18446744073709551615) (sig void)",
    "assert a (size (ptr 0))",
    "assume (size (ptr 0))",
    "return (size (ptr 0))",
];

// Nothing happens, and the run goes on.
const QUIET: [&str; 29] = [
    "keep 0 (size (ptr 0))",
    "copy (ptr 0) (ptr 1) (u64 0)",
    "copy (at 1 (obj 5) (s32 8)) (obj 1) (u64 0)",
    "fill (ptr 0) (s32 1) (u64 0)",
    "probe apart (ptr 0) (ptr 0) (u64 0)",
    "probe any (obj 5) (at 1 (obj 5) (s32 1)) (u64 7)",
    "probe any (obj 5) (obj 5) (u64 8)",
    "probe apart (obj 5) (at 1 (obj 5) (s32 4)) (u64 4)",
    "probe apart (at 1 (obj 5) (s32 4)) (obj 5) (u64 4)",
    "init u64 (obj 5) (s32 1)",
    "kill 0",
    "kill 18446744073709551615",
    "alloc 0 (u64 16777217) (u64 1) zero",
    "free (ptr 0)",
    "goto 1",
    "ifnot (s32 0) 1",
    "ifnot (s32 -1) 0",
    "assume (s32 -1)",
    "require (s32 2)",
    "push",
    "pop",
    "range 1 (size (ptr 0)) (obj 5) (u64 8)",
    "range 1 (s32 1) (size (ptr 0)) (u64 8)",
    "range 1 (s32 1) (obj 5) (size (ptr 0))",
    "target 1 (size (ptr 0)) (ptr 0)",
    "target 1 (s32 1) (size (ptr 0))",
    "seen",
    "havoc",
    "frees",
];

// The run is blocked.
const BLOCKED: [&str; 3] = [
    "assume (s32 0)",
    "require (s32 0)",
    "require (size (ptr 0))",
];

// The name a fails, and the run goes on.
const FAILED: [&str; 3] = [
    "assert a (s32 0)",
    "check a (s32 0)",
    "check a (size (ptr 0))",
];

// Each instruction, with a return behind it, has this report.
fn assert_reports(
    rt: &impl Abort,
    alloc: Global,
    instructions: &[&'static str],
    report: &str,
) -> Result<(), AllocError> {
    for instruction in instructions {
        let text = text_of(alloc, &[HEAD, *instruction, "\nreturn\nend\n"])?;
        let outcome = run_both(alloc, LONG, text.as_slice(), b"[]", &NO_FAULT)?;
        assert_eq!(rt;
            outcome.out.as_slice(),
            report.as_bytes(),
            "{}",
            instruction
        );
    }
    Ok(())
}

#[test]
fn undefined_instructions(rt: HostRuntime) -> Result<(), Fail> {
    let report = "end undefined .start\nused 0\nevents 0 0 0 0 0 0 0 0\nfailed 0\n";
    assert_reports(&rt, rt.alloc(), &UNDEFINED, report)?;
    Ok(())
}

#[test]
fn quiet_instructions(rt: HostRuntime) -> Result<(), Fail> {
    let report = "end returned\nused 0\nevents 0 0 0 0 0 0 0 0\nfailed 0\n";
    assert_reports(&rt, rt.alloc(), &QUIET, report)?;
    Ok(())
}

#[test]
fn tests_that_fail(rt: HostRuntime) -> Result<(), Fail> {
    let report = "end blocked\nused 0\nevents 0 0 0 0 0 0 0 0\nfailed 0\n";
    assert_reports(&rt, rt.alloc(), &BLOCKED, report)?;
    let report = "end returned\nused 0\nevents 0 0 0 0 0 1 0 0\nfailed 1\na\n";
    assert_reports(&rt, rt.alloc(), &FAILED, report)?;
    Ok(())
}
