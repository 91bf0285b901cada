// Answers as text, a blank between each two: the word of a type, or `!` and the number of a rule.
use crate::made::{of, spell, structs};
use dc_program::{BinOp, CType, Rule, UnaryOp};
use dc_rules::{
    Refused, arms_type, binary_type, deref_type, index_type, is_assignable, is_cast, member_type,
    sizeof_type, through_type, truth_type, unary_type,
};
use std::alloc::{AllocError, Global};

// The types that stand beside one in a row.
const KINDS: [&[u8]; 10] = [
    b"c", b"u", b"L", b"*i", b"*kc", b"ai", b"fi", b"*v", b"0", b"*1",
];

/// Writes a word, with a blank before it where it isn't the first.
pub fn put_word(out: &mut Vec<u8>, word: &[u8]) -> Result<(), AllocError> {
    if !out.is_empty() {
        out.push(b' ')?;
    }
    out.extend_from_slice(word)
}

/// Writes a type likewise.
pub fn put_type(out: &mut Vec<u8>, t: &CType) -> Result<(), AllocError> {
    if !out.is_empty() {
        out.push(b' ')?;
    }
    spell(out, t)
}

// Writes a rule likewise.
fn put_rule(out: &mut Vec<u8>, rule: Rule) -> Result<(), AllocError> {
    let number = rule.number();
    put_word(out, &[b'!', b'0' + number / 10, b'0' + number % 10])
}

// Writes an answer likewise.
fn put_answer(out: &mut Vec<u8>, answer: Result<CType, Refused>) -> Result<(), AllocError> {
    match answer {
        Ok(t) => put_type(out, &t),
        Err(Refused::Rule(rule)) => put_rule(out, rule),
        Err(Refused::Memory(error)) => Err(error),
    }
}

// Writes an answer that takes no memory.
fn put_judged(out: &mut Vec<u8>, answer: Result<CType, Rule>) -> Result<(), AllocError> {
    match answer {
        Ok(t) => put_type(out, &t),
        Err(rule) => put_rule(out, rule),
    }
}

/// What an operator gives of a type and each kind of types.
pub fn binary_row(alloc: Global, op: BinOp, word: &[u8]) -> Result<Vec<u8>, AllocError> {
    let structs = structs(alloc)?;
    let t = of(alloc, word)?;
    let mut out = Vec::new(alloc);
    for other in KINDS {
        let u = of(alloc, other)?;
        let answer = binary_type(alloc, &structs, op, &t, false, &u, false);
        put_answer(&mut out, answer)?;
    }
    Ok(out)
}

/// What `<`, `==` and, in the other order, `!=` give of a type and an int that is a null pointer constant.
pub fn null_row(alloc: Global, word: &[u8]) -> Result<Vec<u8>, AllocError> {
    let structs = structs(alloc)?;
    let t = of(alloc, word)?;
    let u = of(alloc, b"i")?;
    let mut out = Vec::new(alloc);
    let less = binary_type(alloc, &structs, BinOp::Lt, &t, false, &u, true);
    put_answer(&mut out, less)?;
    let equal = binary_type(alloc, &structs, BinOp::Eq, &t, false, &u, true);
    put_answer(&mut out, equal)?;
    let differ = binary_type(alloc, &structs, BinOp::Ne, &u, true, &t, false);
    put_answer(&mut out, differ)?;
    Ok(out)
}

/// What `+`, `-`, `~` and `!` give of a type, and its test, size and target.
pub fn single_row(alloc: Global, word: &[u8]) -> Result<Vec<u8>, AllocError> {
    let structs = structs(alloc)?;
    let t = of(alloc, word)?;
    let mut out = Vec::new(alloc);
    for op in [
        UnaryOp::Plus,
        UnaryOp::Negate,
        UnaryOp::Complement,
        UnaryOp::Not,
    ] {
        put_judged(&mut out, unary_type(op, &t))?;
    }
    put_judged(&mut out, truth_type(&t))?;
    put_judged(&mut out, sizeof_type(&structs, &t))?;
    let target = deref_type(alloc, &structs, &t);
    put_answer(&mut out, target)?;
    Ok(out)
}

/// What an index of each kind of types gives behind a type.
pub fn index_row(alloc: Global, word: &[u8]) -> Result<Vec<u8>, AllocError> {
    let structs = structs(alloc)?;
    let t = of(alloc, word)?;
    let mut out = Vec::new(alloc);
    for other in KINDS {
        let u = of(alloc, other)?;
        let answer = index_type(alloc, &structs, &t, &u);
        put_answer(&mut out, answer)?;
    }
    Ok(out)
}

/// What the members 0 to 3 of a type are, and of a pointer to it.
pub fn member_row(alloc: Global, word: &[u8]) -> Result<Vec<u8>, AllocError> {
    let structs = structs(alloc)?;
    let t = of(alloc, word)?;
    let mut out = Vec::new(alloc);
    for member in 0..4u32 {
        let answer = member_type(alloc, &structs, &t, member);
        put_answer(&mut out, answer)?;
    }
    let pointer = CType::pointer(alloc, t)?;
    for member in 0..4u32 {
        let answer = through_type(alloc, &structs, &pointer, member);
        put_answer(&mut out, answer)?;
    }
    Ok(out)
}

// `y` where both hold, `0` where only the second does, else `n`.
fn held(holds: bool, holds_at_zero: bool) -> &'static [u8] {
    match (holds, holds_at_zero) {
        (true, true) => b"y",
        (false, true) => b"0",
        _ => b"n",
    }
}

/// Whether a value of each kind of types can be assigned to a type, and whether one that is a null pointer constant can.
pub fn assigned_row(alloc: Global, word: &[u8]) -> Result<Vec<u8>, AllocError> {
    let t = of(alloc, word)?;
    let mut out = Vec::new(alloc);
    for other in KINDS {
        let u = of(alloc, other)?;
        let word = held(is_assignable(&t, &u, false), is_assignable(&t, &u, true));
        put_word(&mut out, word)?;
    }
    Ok(out)
}

/// Whether a value of each kind of types can be cast to a type, and whether a constant of 0 can.
pub fn cast_row(alloc: Global, word: &[u8]) -> Result<Vec<u8>, AllocError> {
    let t = of(alloc, word)?;
    let mut out = Vec::new(alloc);
    for other in KINDS {
        let u = of(alloc, other)?;
        let word = held(is_cast(&t, &u, false), is_cast(&t, &u, true));
        put_word(&mut out, word)?;
    }
    Ok(out)
}

/// What a conditional gives whose arms are a type and each kind of types.
pub fn arms_row(alloc: Global, word: &[u8]) -> Result<Vec<u8>, AllocError> {
    let t = of(alloc, word)?;
    let mut out = Vec::new(alloc);
    for other in KINDS {
        let u = of(alloc, other)?;
        let answer = arms_type(alloc, &t, &u);
        put_answer(&mut out, answer)?;
    }
    Ok(out)
}
