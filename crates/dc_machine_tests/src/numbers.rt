// Numbers of each kind, as the machine computes them, keeps them and draws them.
use crate::build::{
    choosing_program, computing_program, converting_program, drawing_program, joining_program,
    negating_program, storing_program,
};
use dc_choice::{CountWatch, ListChooser};
use dc_core::{BinOp, LazyOp, NumKind, UnOp};
use dc_goto::GotoProgram;
use dc_machine::run_goto;
use dc_text::Choices;
use dc_world::End;
use std::alloc::{AllocError, Global};
use std::test::Fail;

// What a run on this number returns, or nothing where it is undefined.
fn returned(alloc: Global, p: &GotoProgram, number: u64) -> Result<Option<i128>, AllocError> {
    let choices = Choices::of(Vec::from_slice(alloc, &[number])?);
    let mut chooser = ListChooser::new(choices);
    let mut watch = CountWatch::new();
    let report = run_goto(alloc, p, &mut chooser, &mut watch, 10)?;
    match report.end {
        End::Returned(value) => Ok(value),
        _ => Ok(None),
    }
}

// An operator, two numbers that are converted to its kind (the count of a shift isn't), and their result.
const COMPUTED: [(BinOp, NumKind, i128, i128, Option<i128>); 24] = [
    (BinOp::Add, NumKind::U16, 65535, 1, Some(0)),
    (BinOp::Add, NumKind::S8, 200, 0, Some(-56)),
    (BinOp::Sub, NumKind::S64, -9223372036854775808, 1, None),
    (BinOp::Mul, NumKind::U8, 255, 255, Some(1)),
    (BinOp::Mul, NumKind::S16, 256, 128, None),
    (BinOp::Div, NumKind::S32, -7, 2, Some(-3)),
    (BinOp::Div, NumKind::S32, 1, 0, None),
    (BinOp::Div, NumKind::S64, -9223372036854775808, -1, None),
    (BinOp::Rem, NumKind::S32, -7, 2, Some(-1)),
    (BinOp::Rem, NumKind::U32, 7, 4294967296, None),
    (BinOp::Shl, NumKind::U32, 1, 31, Some(2147483648)),
    (BinOp::Shl, NumKind::S32, 1, 31, None),
    (BinOp::Shl, NumKind::U8, 1, 256, None),
    (BinOp::Shr, NumKind::S64, -1, 1, Some(-1)),
    (BinOp::Shr, NumKind::S8, 64, -1, None),
    (BinOp::And, NumKind::S8, -1, 15, Some(15)),
    (BinOp::Or, NumKind::Bool, 0, 256, Some(1)),
    (BinOp::Xor, NumKind::S16, -1, 1, Some(-2)),
    (BinOp::Lt, NumKind::U64, 0, -1, Some(1)),
    (BinOp::Gt, NumKind::S8, 1, -1, Some(1)),
    (BinOp::Ge, NumKind::U64, 0, -1, Some(0)),
    (
        BinOp::Eq,
        NumKind::Ptr,
        281474976710656,
        281474976710656,
        Some(1),
    ),
    (BinOp::Ne, NumKind::Ptr, 0, 0, Some(0)),
    (BinOp::Add, NumKind::Ptr, 0, 1, None),
];

#[test]
fn operators(rt: HostRuntime) -> Result<(), Fail> {
    for (op, kind, a, b, value) in &COMPUTED {
        let p = computing_program(rt.alloc(), *op, *kind, *a, *b)?;
        assert_eq!(rt; returned(rt.alloc(), &p, 0)?, *value, "{} {}", a, b);
    }
    Ok(())
}

// A number is written as a value of one kind, and read as one of another.
const STORED: [(NumKind, i128, NumKind, i128); 7] = [
    (NumKind::S16, -2, NumKind::U8, 254),
    (NumKind::U8, 511, NumKind::U16, 255),
    (NumKind::S8, 255, NumKind::S8, -1),
    (NumKind::S64, -1, NumKind::U32, 4294967295),
    (NumKind::Bool, 7, NumKind::U64, 1),
    (NumKind::U16, 512, NumKind::Bool, 0),
    (NumKind::Ptr, 18446744073709551615, NumKind::S64, -1),
];

#[test]
fn memory(rt: HostRuntime) -> Result<(), Fail> {
    for (written, z, read, value) in &STORED {
        let p = storing_program(rt.alloc(), *written, *z, *read)?;
        assert_eq!(rt; returned(rt.alloc(), &p, 0)?, Some(*value), "{}", z);
    }
    Ok(())
}

// A number that is drawn as a value of a kind.
const DRAWN: [(NumKind, u64, i128); 6] = [
    (NumKind::Bool, 3, 1),
    (NumKind::S8, 255, -1),
    (NumKind::U16, 65537, 1),
    (NumKind::U32, 4294967295, 4294967295),
    (NumKind::S64, 18446744073709551615, -1),
    (NumKind::Ptr, 18446744073709551615, 18446744073709551615),
];

#[test]
fn draws(rt: HostRuntime) -> Result<(), Fail> {
    for (kind, number, value) in &DRAWN {
        let p = drawing_program(rt.alloc(), *kind)?;
        assert_eq!(rt;
            returned(rt.alloc(), &p, *number)?,
            Some(*value),
            "{}",
            number
        );
    }
    Ok(())
}

// A number that is converted to the first kind from the second.
const CONVERTED: [(NumKind, NumKind, i128, i128); 6] = [
    (NumKind::S8, NumKind::U32, 300, 44),
    (NumKind::U64, NumKind::S8, 255, 18446744073709551615),
    (NumKind::U64, NumKind::U8, -1, 255),
    (NumKind::Bool, NumKind::U8, 256, 0),
    (NumKind::S32, NumKind::Bool, 256, 1),
    (NumKind::Ptr, NumKind::S64, -1, 18446744073709551615),
];

#[test]
fn conversions(rt: HostRuntime) -> Result<(), Fail> {
    for (to, from, z, value) in &CONVERTED {
        let p = converting_program(rt.alloc(), *to, *from, *z)?;
        assert_eq!(rt; returned(rt.alloc(), &p, 0)?, Some(*value), "{}", z);
    }
    Ok(())
}

// Minus, or the complement, of a number that is converted to the kind.
const NEGATED: [(UnOp, NumKind, i128, Option<i128>); 8] = [
    (UnOp::Neg, NumKind::S32, 5, Some(-5)),
    (UnOp::Neg, NumKind::U8, 257, Some(255)),
    (UnOp::Neg, NumKind::S32, 2147483648, None),
    (UnOp::Neg, NumKind::S64, -9223372036854775808, None),
    (UnOp::Neg, NumKind::Bool, 2, Some(1)),
    (UnOp::Not, NumKind::S32, 0, Some(-1)),
    (UnOp::Not, NumKind::U8, 1, Some(254)),
    (UnOp::Not, NumKind::U64, -1, Some(0)),
];

#[test]
fn negations(rt: HostRuntime) -> Result<(), Fail> {
    for (op, kind, z, value) in &NEGATED {
        let p = negating_program(rt.alloc(), *op, *kind, *z)?;
        assert_eq!(rt; returned(rt.alloc(), &p, 0)?, *value, "{}", z);
    }
    Ok(())
}

// A lazy operator, two values or none, and what it makes of them.
const JOINED: [(LazyOp, Option<i128>, Option<i128>, Option<i128>); 9] = [
    (LazyOp::Both, Some(0), None, Some(0)),
    (LazyOp::Both, Some(5), Some(-7), Some(1)),
    (LazyOp::Both, Some(1), Some(0), Some(0)),
    (LazyOp::Both, Some(1), None, None),
    (LazyOp::Either, Some(3), None, Some(1)),
    (LazyOp::Either, Some(0), Some(4), Some(1)),
    (LazyOp::Either, Some(0), Some(0), Some(0)),
    (LazyOp::Either, Some(0), None, None),
    (LazyOp::Either, None, Some(1), None),
];

#[test]
fn lazy_operators(rt: HostRuntime) -> Result<(), Fail> {
    for (op, a, b, value) in &JOINED {
        let p = joining_program(rt.alloc(), *op, *a, *b)?;
        assert_eq!(rt; returned(rt.alloc(), &p, 0)?, *value, "{:?} {:?}", a, b);
    }
    Ok(())
}

// Three values or none, and what is chosen of the second and the third.
const CHOSEN: [(Option<i128>, Option<i128>, Option<i128>, Option<i128>); 4] = [
    (Some(2), Some(10), None, Some(10)),
    (Some(0), None, Some(20), Some(20)),
    (Some(1), None, Some(20), None),
    (None, Some(10), Some(20), None),
];

#[test]
fn choices(rt: HostRuntime) -> Result<(), Fail> {
    for (a, b, c, value) in &CHOSEN {
        let p = choosing_program(rt.alloc(), *a, *b, *c)?;
        assert_eq!(rt; returned(rt.alloc(), &p, 0)?, *value, "{:?}", a);
    }
    Ok(())
}
