// Answers as text: numbers, `none` and the names of kinds, a blank between each two.
use dc_num::{BinOp, NumKind, UnOp, binary, common, convert, promote, unary};
use dc_text::put_decimal;
use std::alloc::{AllocError, Global};

const OPERATORS: [BinOp; 16] = [
    BinOp::Add,
    BinOp::Sub,
    BinOp::Mul,
    BinOp::Div,
    BinOp::Rem,
    BinOp::Shl,
    BinOp::Shr,
    BinOp::And,
    BinOp::Or,
    BinOp::Xor,
    BinOp::Lt,
    BinOp::Le,
    BinOp::Gt,
    BinOp::Ge,
    BinOp::Eq,
    BinOp::Ne,
];

const KINDS: [NumKind; 9] = [
    NumKind::Bool,
    NumKind::S8,
    NumKind::U8,
    NumKind::S16,
    NumKind::U16,
    NumKind::S32,
    NumKind::U32,
    NumKind::S64,
    NumKind::U64,
];

fn name_of(kind: NumKind) -> &'static [u8] {
    match kind {
        NumKind::Bool => b"Bool",
        NumKind::S8 => b"S8",
        NumKind::U8 => b"U8",
        NumKind::S16 => b"S16",
        NumKind::U16 => b"U16",
        NumKind::S32 => b"S32",
        NumKind::U32 => b"U32",
        NumKind::S64 => b"S64",
        NumKind::U64 => b"U64",
        NumKind::Ptr => b"Ptr",
    }
}

fn put_word(out: &mut Vec<u8>, word: &[u8]) -> Result<(), AllocError> {
    if !out.is_empty() {
        out.push(b' ')?;
    }
    out.extend_from_slice(word)
}

fn put_number(out: &mut Vec<u8>, number: i128) -> Result<(), AllocError> {
    if !out.is_empty() {
        out.push(b' ')?;
    }
    put_decimal(out, number)
}

fn put_result(out: &mut Vec<u8>, value: Option<i128>) -> Result<(), AllocError> {
    match value {
        Some(number) => put_number(out, number),
        None => put_word(out, b"none"),
    }
}

// What an operator makes of two values of a kind that is no pointer's.
#[tactic(auto, using(dc_num::proofs::Values::value_by_test, dc_num::proofs::Values::value_right, dc_num::proofs::Values::number_operand))]
fn put_binary(
    out: &mut Vec<u8>,
    op: BinOp,
    kind: NumKind,
    a: i128,
    b: i128,
) -> Result<(), AllocError> {
    if kind.is_pointer() || !kind.is_value(a) || !kind.is_value(b) {
        return put_word(out, b"no values");
    }
    put_result(out, binary(op, kind, a, b))
}

/// What each operator makes of two values of a kind that is no pointer's.
pub fn binary_row(alloc: Global, kind: NumKind, a: i128, b: i128) -> Result<Vec<u8>, AllocError> {
    let mut out = Vec::new(alloc);
    for op in OPERATORS {
        put_binary(&mut out, op, kind, a, b)?;
    }
    Ok(out)
}

/// The negative and the complement of a value of a kind that is no pointer's.
#[tactic(auto, using(dc_num::proofs::Values::value_by_test))]
pub fn unary_row(alloc: Global, kind: NumKind, a: i128) -> Result<Vec<u8>, AllocError> {
    if kind.is_pointer() || !kind.is_value(a) {
        return Vec::from_slice(alloc, b"no value");
    }
    let mut out = Vec::new(alloc);
    put_result(&mut out, unary(UnOp::Neg, kind, a))?;
    put_result(&mut out, unary(UnOp::Not, kind, a))?;
    Ok(out)
}

/// A number as a value of each kind.
pub fn convert_row(alloc: Global, number: i128) -> Result<Vec<u8>, AllocError> {
    let mut out = Vec::new(alloc);
    for kind in KINDS {
        put_number(&mut out, convert(kind, number))?;
    }
    Ok(out)
}

fn put_common(out: &mut Vec<u8>, kind: NumKind, other: NumKind) -> Result<(), AllocError> {
    if kind.is_pointer() || other.is_pointer() {
        return put_word(out, b"pointer");
    }
    put_word(out, name_of(common(kind, other)))
}

/// A kind promoted, and its common kind with each kind.
pub fn common_row(alloc: Global, kind: NumKind) -> Result<Vec<u8>, AllocError> {
    let mut out = Vec::new(alloc);
    if !kind.is_pointer() {
        put_word(&mut out, name_of(promote(kind)))?;
    }
    for other in KINDS {
        put_common(&mut out, kind, other)?;
    }
    Ok(out)
}
