// Programs that break the rules of a text: registers and variables that aren't there, sizes and numbers that are too large,
// and operators that pointers don't have.
use crate::build::{body, int, name, returning_program, start_program, wide};
use crate::runs::{run, word};
use dc_core::{BinOp, NumKind, Property, Quantifier, Term, UnOp};
use dc_goto::{Body, Bytes, GotoProgram, Instr, Sig};
use dc_world::End;
use sqlite_items::{Boxed, Items};
use std::alloc::{AllocError, Global};
use std::test::Fail;

// What a program returns, or nothing where it doesn't return a value.
fn returned(alloc: Global, p: &GotoProgram) -> Result<Option<i128>, AllocError> {
    match run(alloc, p, &[], 100)?.end {
        End::Returned(value) => Ok(value),
        _ => Ok(None),
    }
}

// The value of an expression in a start with one register.
fn value(alloc: Global, term: Term) -> Result<Option<i128>, AllocError> {
    let p = returning_program(alloc, term)?;
    returned(alloc, &p)
}

// Numbers that no kind has stand as they are, and are addresses by their last 64 bits. The object 2 has 4 bytes of zero.
const LOADED: [(i128, Option<i128>); 5] = [
    (562949953421312, Some(0)),
    (18447307023662972928, Some(0)),
    (-18446181123756130304, Some(0)),
    (18446744073709551616, None),
    (-1, None),
];

#[test]
fn addresses(rt: HostRuntime) -> Result<(), Fail> {
    for (address, wanted) in &LOADED {
        let place = Boxed::new(rt.alloc(), wide(*address))?;
        let load = Term::Load(NumKind::S32, place);
        assert_eq!(rt; value(rt.alloc(), load)?, *wanted, "{}", address);
    }
    Ok(())
}

// Constants of each number, also of one that their kind doesn't have.
const CONSTANTS: [i128; 4] = [
    -300,
    18446744073709551616,
    -170141183460469231731687303715884105728,
    170141183460469231731687303715884105727,
];

#[test]
fn constants(rt: HostRuntime) -> Result<(), Fail> {
    for z in CONSTANTS {
        let constant = Term::Constant(NumKind::U8, z);
        assert_eq!(rt; value(rt.alloc(), constant)?, Some(z), "{}", z);
    }
    Ok(())
}

// The greatest numbers of objects, and their starts.
const STARTS: [(u64, i128); 3] = [
    (65535, 18446462598732840960),
    (65536, 18446744073709551616),
    (18446744073709551615, 5192296858534827628249021352509440),
];

#[test]
fn starts(rt: HostRuntime) -> Result<(), Fail> {
    for (object, start) in &STARTS {
        let wanted = Some(*start);
        assert_eq!(rt;
            value(rt.alloc(), Term::Object(*object))?,
            wanted,
            "{}",
            object
        );
    }
    Ok(())
}

// The start of the object 2 is moved by so many elements of a size, and where it lands.
const MOVED: [(u64, i128, Option<i128>); 9] = [
    (0, 5, Some(562949953421312)),
    (
        0,
        170141183460469231731687303715884105727,
        Some(562949953421312),
    ),
    (18446744073709551615, 0, Some(562949953421312)),
    (18446744073709551615, 1, None),
    (
        18446744073709551615,
        170141183460469231731687303715884105727,
        None,
    ),
    (
        18446744073709551615,
        -170141183460469231731687303715884105728,
        None,
    ),
    (1, 170141183460469231731687303715884105727, None),
    (1, -170141183460469231731687303715884105728, None),
    (1, 18446744073709551616, None),
];

#[test]
fn moves(rt: HostRuntime) -> Result<(), Fail> {
    for (size, count, wanted) in &MOVED {
        let place = Boxed::new(rt.alloc(), Term::Object(2))?;
        let by = Boxed::new(rt.alloc(), wide(*count))?;
        let moved = Term::Moved(*size, place, by);
        assert_eq!(rt; value(rt.alloc(), moved)?, *wanted, "{} {}", size, count);
    }
    Ok(())
}

// The distance of a pointer to itself in elements of a size.
const DISTANCES: [(u64, Option<i128>); 3] = [
    (0, None),
    (16777217, Some(0)),
    (18446744073709551615, Some(0)),
];

#[test]
fn distances(rt: HostRuntime) -> Result<(), Fail> {
    for (size, wanted) in &DISTANCES {
        let p = Boxed::new(rt.alloc(), Term::Object(2))?;
        let q = Boxed::new(rt.alloc(), Term::Object(2))?;
        let distance = Term::Distance(*size, p, q);
        assert_eq!(rt; value(rt.alloc(), distance)?, *wanted, "{}", size);
    }
    Ok(())
}

// What an operator makes of the start of the object 2 and that of the object 2 or 3 as pointers. There is no object 3.
const POINTERS: [(BinOp, u64, Option<i128>); 8] = [
    (BinOp::Add, 2, Some(1125899906842624)),
    (BinOp::Sub, 2, Some(0)),
    (BinOp::Mul, 2, Some(0)),
    (BinOp::Div, 2, Some(1)),
    (BinOp::Shl, 2, None),
    (BinOp::Xor, 2, Some(0)),
    (BinOp::Sub, 3, None),
    (BinOp::Ne, 3, Some(1)),
];

#[test]
fn operators_on_pointers(rt: HostRuntime) -> Result<(), Fail> {
    for (op, object, wanted) in &POINTERS {
        let p = Boxed::new(rt.alloc(), Term::Object(2))?;
        let q = Boxed::new(rt.alloc(), Term::Object(*object))?;
        let both = Term::Binary(*op, NumKind::Ptr, p, q);
        assert_eq!(rt; value(rt.alloc(), both)?, *wanted, "{}", object);
    }
    Ok(())
}

#[test]
fn unary_operators_on_pointers(rt: HostRuntime) -> Result<(), Fail> {
    for (op, z, wanted) in [
        (UnOp::Neg, 1, 18446744073709551615),
        (UnOp::Neg, 0, 0),
        (UnOp::Not, 0, 18446744073709551615),
        (UnOp::Not, -1, 0),
    ] {
        let operand = Boxed::new(rt.alloc(), wide(z))?;
        let unary = Term::Unary(op, NumKind::Ptr, operand);
        assert_eq!(rt; value(rt.alloc(), unary)?, Some(wanted), "{}", z);
    }
    Ok(())
}

// A variable by its number within a quantifier that says another nesting, where its value is 7.
const VARIABLES: [(u64, Option<i128>); 3] = [(0, Some(1)), (1, None), (18446744073709551615, None)];

#[test]
fn variables(rt: HostRuntime) -> Result<(), Fail> {
    for (nesting, wanted) in &VARIABLES {
        assert_eq!(rt; value(rt.alloc(), Term::Variable(*nesting))?, None);
        let a = Boxed::new(rt.alloc(), Term::Variable(*nesting))?;
        let b = Boxed::new(rt.alloc(), int(7))?;
        let test = Boxed::new(rt.alloc(), Term::Binary(BinOp::Eq, NumKind::S32, a, b))?;
        let low = Boxed::new(rt.alloc(), int(7))?;
        let high = Boxed::new(rt.alloc(), int(8))?;
        let all = Term::Quantified(Quantifier::ForAll, 5, NumKind::S32, low, high, test);
        assert_eq!(rt; value(rt.alloc(), all)?, *wanted, "{}", nesting);
    }
    Ok(())
}

// A register that isn't there has no value, and takes none.
#[test]
fn registers(rt: HostRuntime) -> Result<(), Fail> {
    for register in [1, 18446744073709551615] {
        let mut code = Items::new(rt.alloc());
        code.push(Instr::Set(register, int(7)))?;
        code.push(Instr::Keep(1, Term::Register(register)))?;
        code.push(Instr::Return(Some(Term::Register(register))))?;
        let p = start_program(rt.alloc(), 1, code)?;
        let report = run(rt.alloc(), &p, &[], 2)?;
        assert_eq!(rt; word(&report.end), "cut", "{}", register);
        let report = run(rt.alloc(), &p, &[], 3)?;
        assert_eq!(rt; word(&report.end), "undefined", "{}", register);
    }
    Ok(())
}

// The counts of a heap object, and its size where one is made. Counts are taken by their last 64 bits.
const ALLOCATED: [(i128, i128, Option<i128>); 4] = [
    (18446744073709551619, 2, Some(6)),
    (-18446744073709551613, 2, Some(6)),
    (18446744073709551616, 2, Some(0)),
    (36893488147419103231, 1, None),
];

#[test]
fn counts_of_heap_objects(rt: HostRuntime) -> Result<(), Fail> {
    for (count, size, wanted) in &ALLOCATED {
        let mut code = Items::new(rt.alloc());
        code.push(Instr::Alloc(0, wide(*count), wide(*size), Bytes::Zero))?;
        let place = Boxed::new(rt.alloc(), Term::Register(0))?;
        code.push(Instr::Return(Some(Term::Asked(Property::Size, place))))?;
        let p = start_program(rt.alloc(), 1, code)?;
        let value = match run(rt.alloc(), &p, &[1], 10)?.end {
            End::Returned(value) => value,
            _ => None,
        };
        assert_eq!(rt; value, *wanted, "{}", count);
    }
    Ok(())
}

// A function `f` of one parameter without a result, which returns the value of its register 1, and a start with this code.
fn calling_program(alloc: Global, code: Items<Instr>) -> Result<GotoProgram, AllocError> {
    let mut params = Items::new(alloc);
    params.push(NumKind::S32)?;
    let mut functions = Items::new(alloc);
    functions.push(Sig {
        name: name(alloc, "f")?,
        result: None,
        params,
    })?;
    let mut called = Items::new(alloc);
    called.push(Instr::Return(Some(Term::Register(1))))?;
    let mut bodies = Items::new(alloc);
    bodies.push(body(alloc, "f", 1, 2, called)?)?;
    bodies.push(body(alloc, ".start", 0, 1, code)?)?;
    Ok(GotoProgram {
        functions,
        statics: Items::new(alloc),
        bodies,
    })
}

// Arguments of a call, of which the first so many are passed.
const ARGUMENTS: [i128; 3] = [40, 41, 42];

// A start that calls `f` with so many arguments, and then returns the register that takes the result.
fn call_program(alloc: Global, count: usize, through: bool) -> Result<GotoProgram, AllocError> {
    let mut arguments = Items::new(alloc);
    for argument in ARGUMENTS.iter().take(count) {
        arguments.push(int(*argument))?;
    }
    let mut params = Items::new(alloc);
    params.push(NumKind::S32)?;
    let mut code = Items::new(alloc);
    if through {
        code.push(Instr::CallThrough(Some(0), Term::Object(1), None, params, arguments))?;
    } else {
        code.push(Instr::Call(Some(0), name(alloc, "f")?, arguments))?;
    }
    code.push(Instr::Return(Some(Term::Register(0))))?;
    calling_program(alloc, code)
}

// Numbers of arguments, and what is in the function's register 1: the second, or 0.
const CALLED: [(usize, i128); 4] = [(0, 0), (1, 0), (2, 41), (3, 41)];

#[test]
fn numbers_of_arguments(rt: HostRuntime) -> Result<(), Fail> {
    for (count, wanted) in &CALLED {
        for through in [false, true] {
            let p = call_program(rt.alloc(), *count, through)?;
            assert_eq!(rt; returned(rt.alloc(), &p)?, Some(*wanted), "{}", count);
        }
    }
    Ok(())
}

// The first of two bodies of one name is run.
#[test]
fn two_starts(rt: HostRuntime) -> Result<(), Fail> {
    let mut bodies: Items<Body> = Items::new(rt.alloc());
    for z in [7, 8] {
        let mut code = Items::new(rt.alloc());
        code.push(Instr::Return(Some(int(z))))?;
        bodies.push(body(rt.alloc(), ".start", 0, 0, code)?)?;
    }
    let p = GotoProgram {
        functions: Items::new(rt.alloc()),
        statics: Items::new(rt.alloc()),
        bodies,
    };
    assert_eq!(rt; returned(rt.alloc(), &p)?, Some(7));
    Ok(())
}

// The greatest tag isn't the least.
#[test]
fn the_greatest_tag(rt: HostRuntime) -> Result<(), Fail> {
    let mut code = Items::new(rt.alloc());
    code.push(Instr::Push)?;
    code.push(Instr::Range(18446744073709551615, int(1), Term::Object(2), int(4)))?;
    code.push(Instr::Inside(name(rt.alloc(), "a")?, 18446744073709551615))?;
    code.push(Instr::Inside(name(rt.alloc(), "b")?, 0))?;
    code.push(Instr::Return(None))?;
    let p = start_program(rt.alloc(), 0, code)?;
    let report = run(rt.alloc(), &p, &[], 10)?;
    assert_eq!(rt; report.failed.len(), 1);
    for name in report.failed.as_slice() {
        assert_eq!(rt; name.as_slice(), b"a".as_slice());
    }
    Ok(())
}
