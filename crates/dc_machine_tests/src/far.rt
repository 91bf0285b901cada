// Registers far up: as many as a text may name, of which a few are written.
use crate::build::{body, int, name, start_program};
use crate::runs::run;
use dc_core::Term;
use dc_goto::{GotoProgram, Instr, Sig};
use dc_world::End;
use sqlite_items::Items;
use std::alloc::{AllocError, Global};
use std::test::Fail;

// As many registers as a body may have.
const MOST: u64 = 18446744073709551615;

// A start with as many registers as may be, which sets one to 7 and returns one.
fn setting(alloc: Global, written: u64, read: u64) -> Result<GotoProgram, AllocError> {
    let mut code = Items::new(alloc);
    code.push(Instr::Set(written, int(7)))?;
    code.push(Instr::Return(Some(Term::Register(read))))?;
    start_program(alloc, MOST, code)
}

// A register that is written, one that is read behind it, and what that holds.
const HELD: [(u64, u64, i128); 6] = [
    (0, 0, 7),
    (0, 1, 0),
    (0, 18446744073709551614, 0),
    (100000, 100000, 7),
    (100000, 99999, 0),
    (100000, 100001, 0),
];

#[test]
fn registers_that_are_not_written_take_no_memory(rt: HostRuntime) -> Result<(), Fail> {
    for (written, read, wanted) in &HELD {
        let p = setting(rt.alloc(), *written, *read)?;
        let value = match run(rt.alloc(), &p, &[], 10)?.end {
            End::Returned(value) => value,
            _ => None,
        };
        assert_eq!(rt; value, Some(*wanted), "{} {}", written, read);
    }
    Ok(())
}

// Whether memory was wanting for a run.
fn is_wanting(alloc: Global, p: &GotoProgram, steps: u64) -> bool {
    match run(alloc, p, &[], steps) {
        Ok(_) => false,
        Err(AllocError) => true,
    }
}

#[test]
fn a_register_far_up_is_want_of_memory(rt: HostRuntime) -> Result<(), Fail> {
    for written in [16777216, 4294967296, 18446744073709551614] {
        let p = setting(rt.alloc(), written, 0)?;
        assert_eq!(rt; is_wanting(rt.alloc(), &p, 0), false, "{}", written);
        assert_eq!(rt; is_wanting(rt.alloc(), &p, 1), true, "{}", written);
    }
    Ok(())
}

// A function `f` that gives 7, and a start with as many registers as may be, which has the result in one of them and returns
// that one.
fn calling(alloc: Global, register: u64) -> Result<GotoProgram, AllocError> {
    let mut functions = Items::new(alloc);
    functions.push(Sig {
        name: name(alloc, "f")?,
        result: None,
        params: Items::new(alloc),
    })?;
    let mut called = Items::new(alloc);
    called.push(Instr::Return(Some(int(7))))?;
    let mut code = Items::new(alloc);
    code.push(Instr::Call(Some(register), name(alloc, "f")?, Items::new(alloc)))?;
    code.push(Instr::Return(Some(Term::Register(register))))?;
    let mut bodies = Items::new(alloc);
    bodies.push(body(alloc, "f", 0, MOST, called)?)?;
    bodies.push(body(alloc, ".start", 0, MOST, code)?)?;
    Ok(GotoProgram {
        functions,
        statics: Items::new(alloc),
        bodies,
    })
}

#[test]
fn a_result_far_up_is_want_of_memory(rt: HostRuntime) -> Result<(), Fail> {
    for (register, wanted) in [(3, false), (18446744073709551614, true)] {
        let p = calling(rt.alloc(), register)?;
        assert_eq!(rt; is_wanting(rt.alloc(), &p, 1), false, "{}", register);
        assert_eq!(rt; is_wanting(rt.alloc(), &p, 2), wanted, "{}", register);
    }
    Ok(())
}
