// Jumps, tests and kept registers.
use crate::build::{binary, int, name, start_program, valued};
use crate::runs::{run, word};
use dc_core::{BinOp, Term};
use dc_goto::{GotoProgram, Instr};
use dc_world::{End, RunReport};
use sqlite_items::Items;
use std::alloc::{AllocError, Global};
use std::test::Fail;

// A start that counts to a number and returns it.
fn counting_program(alloc: Global, limit: i128) -> Result<GotoProgram, AllocError> {
    let below = binary(alloc, BinOp::Lt, Term::Register(0), int(limit))?;
    let next = binary(alloc, BinOp::Add, Term::Register(0), int(1))?;
    let mut code = Items::new(alloc);
    code.push(Instr::IfNot(below, 3))?;
    code.push(Instr::Set(0, next))?;
    code.push(Instr::Goto(0))?;
    code.push(Instr::Return(Some(Term::Register(0))))?;
    start_program(alloc, 1, code)
}

#[test]
fn a_loop_counts(rt: HostRuntime) -> Result<(), Fail> {
    let p = counting_program(rt.alloc(), 3)?;
    let report = run(rt.alloc(), &p, &[], 11)?;
    let value = match report.end {
        End::Returned(value) => value,
        _ => None,
    };
    assert_eq!(rt; value, Some(3));
    let report = run(rt.alloc(), &p, &[], 10)?;
    assert_eq!(rt; word(&report.end), "cut");
    Ok(())
}

// A start of one instruction, and a return behind it.
fn short_program(alloc: Global, instr: Instr) -> Result<GotoProgram, AllocError> {
    let mut code = Items::new(alloc);
    code.push(instr)?;
    code.push(Instr::Return(None))?;
    start_program(alloc, 1, code)
}

// The run of a start of one instruction and a return.
fn short_run(alloc: Global, instr: Instr) -> Result<RunReport, AllocError> {
    let p = short_program(alloc, instr)?;
    run(alloc, &p, &[], 10)
}

// A place to jump to, and how the run ends.
const PLACES: [(u64, &'static str); 4] = [
    (0, "cut"),
    (1, "returned"),
    (2, "undefined"),
    (18446744073709551615, "undefined"),
];

#[test]
fn places(rt: HostRuntime) -> Result<(), Fail> {
    for (place, end) in &PLACES {
        let report = short_run(rt.alloc(), Instr::Goto(*place))?;
        assert_eq!(rt; word(&report.end), *end, "{}", place);
    }
    Ok(())
}

// The value of a jump's test to the start, and how the run ends.
const BRANCHES: [(Option<i128>, &'static str); 3] = [
    (Some(0), "cut"),
    (Some(-1), "returned"),
    (None, "undefined"),
];

#[test]
fn branches(rt: HostRuntime) -> Result<(), Fail> {
    for (value, end) in &BRANCHES {
        let test = valued(rt.alloc(), *value)?;
        let report = short_run(rt.alloc(), Instr::IfNot(test, 0))?;
        assert_eq!(rt; word(&report.end), *end, "{:?}", value);
    }
    Ok(())
}

// An asserted value, how the run ends, and how many tests were made and how many failed.
const ASSERTED: [(Option<i128>, &'static str, u128, usize); 3] = [
    (Some(2), "returned", 1, 0),
    (Some(0), "returned", 1, 1),
    (None, "undefined", 0, 0),
];

#[test]
fn assertions(rt: HostRuntime) -> Result<(), Fail> {
    for (value, end, made, failed) in &ASSERTED {
        let test = valued(rt.alloc(), *value)?;
        let check = name(rt.alloc(), "f.assertion.1")?;
        let report = short_run(rt.alloc(), Instr::Assert(check, test))?;
        assert_eq!(rt; word(&report.end), *end, "{:?}", value);
        assert_eq!(rt; report.counts.checks, *made, "{:?}", value);
        assert_eq!(rt; report.failed.len(), *failed, "{:?}", value);
    }
    Ok(())
}

// An assumed value, and how the run ends.
const ASSUMED: [(Option<i128>, &'static str); 3] = [
    (Some(2), "returned"),
    (Some(0), "blocked"),
    (None, "undefined"),
];

#[test]
fn assumptions(rt: HostRuntime) -> Result<(), Fail> {
    for (value, end) in &ASSUMED {
        let test = valued(rt.alloc(), *value)?;
        let report = short_run(rt.alloc(), Instr::Assume(test))?;
        assert_eq!(rt; word(&report.end), *end, "{:?}", value);
    }
    Ok(())
}

// A start that keeps a value or none, and reads the register.
fn keeping_program(alloc: Global, value: Option<i128>) -> Result<GotoProgram, AllocError> {
    let value = valued(alloc, value)?;
    let mut code = Items::new(alloc);
    code.push(Instr::Keep(0, value))?;
    code.push(Instr::Set(1, Term::Register(0)))?;
    code.push(Instr::Return(None))?;
    start_program(alloc, 2, code)
}

// A kept value, the number of steps, and how the run ends.
const KEPT: [(Option<i128>, u64, &'static str); 3] = [
    (Some(7), 3, "returned"),
    (None, 1, "cut"),
    (None, 2, "undefined"),
];

#[test]
fn kept_registers(rt: HostRuntime) -> Result<(), Fail> {
    for (value, steps, end) in &KEPT {
        let p = keeping_program(rt.alloc(), *value)?;
        let report = run(rt.alloc(), &p, &[], *steps)?;
        assert_eq!(rt; word(&report.end), *end, "{:?} {}", value, steps);
    }
    Ok(())
}
