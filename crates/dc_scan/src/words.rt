// What words mean.
ghost use Rattle.std.specs.Prelude.{◌≡◌};
ghost use Rattle.std.specs.List.{list_all};
ghost use Rattle.dc_goto.specs.Lines.{is_body_name as body_name, is_check_name as check_name, is_check_part as check_part};
ghost use Rattle.dc_goto.specs.Reading.{are_outside as outside_in, bytes_of as bytes_in, kind_of as kind_in, operator_of as operator_in, register_of as register_in, result_of as result_in, sharing_of as sharing_in};

use crate::numbers::number_of;
use dc_core::{BinOp, NumKind};
use dc_goto::{Bytes, Sharing};
use dc_text::{is_formed, is_word_byte};

/// The kind of the word.
pub fn kind_of(word: &[u8]) -> Option<NumKind>
    ensures { result ≡ kind_in word.now }
{
    if word == b"bool".as_slice() {
        Some(NumKind::Bool)
    } else if word == b"s8".as_slice() {
        Some(NumKind::S8)
    } else if word == b"u8".as_slice() {
        Some(NumKind::U8)
    } else if word == b"s16".as_slice() {
        Some(NumKind::S16)
    } else if word == b"u16".as_slice() {
        Some(NumKind::U16)
    } else if word == b"s32".as_slice() {
        Some(NumKind::S32)
    } else if word == b"u32".as_slice() {
        Some(NumKind::U32)
    } else if word == b"s64".as_slice() {
        Some(NumKind::S64)
    } else if word == b"u64".as_slice() {
        Some(NumKind::U64)
    } else if word == b"ptr".as_slice() {
        Some(NumKind::Ptr)
    } else {
        None
    }
}

/// The operator of the word.
pub fn operator_of(word: &[u8]) -> Option<BinOp>
    ensures { result ≡ operator_in word.now }
{
    if word == b"add".as_slice() {
        Some(BinOp::Add)
    } else if word == b"sub".as_slice() {
        Some(BinOp::Sub)
    } else if word == b"mul".as_slice() {
        Some(BinOp::Mul)
    } else if word == b"div".as_slice() {
        Some(BinOp::Div)
    } else if word == b"rem".as_slice() {
        Some(BinOp::Rem)
    } else if word == b"shl".as_slice() {
        Some(BinOp::Shl)
    } else if word == b"shr".as_slice() {
        Some(BinOp::Shr)
    } else if word == b"and".as_slice() {
        Some(BinOp::And)
    } else if word == b"or".as_slice() {
        Some(BinOp::Or)
    } else if word == b"xor".as_slice() {
        Some(BinOp::Xor)
    } else if word == b"lt".as_slice() {
        Some(BinOp::Lt)
    } else if word == b"le".as_slice() {
        Some(BinOp::Le)
    } else if word == b"gt".as_slice() {
        Some(BinOp::Gt)
    } else if word == b"ge".as_slice() {
        Some(BinOp::Ge)
    } else if word == b"eq".as_slice() {
        Some(BinOp::Eq)
    } else if word == b"ne".as_slice() {
        Some(BinOp::Ne)
    } else {
        None
    }
}

/// The kind of a result that a function may not have.
pub fn result_of(word: &[u8]) -> Option<Option<NumKind>>
    ensures { result ≡ result_in word.now }
{
    if word == b"void".as_slice() {
        return Some(None);
    }
    match kind_of(word) {
        Some(kind) => Some(Some(kind)),
        None => None,
    }
}

/// The first bytes of an object.
pub fn bytes_of(word: &[u8]) -> Option<Bytes>
    ensures { result ≡ bytes_in word.now }
{
    if word == b"zero".as_slice() {
        Some(Bytes::Zero)
    } else if word == b"chosen".as_slice() {
        Some(Bytes::Chosen)
    } else {
        None
    }
}

/// Whether two ranges may share bytes.
pub fn sharing_of(word: &[u8]) -> Option<Sharing>
    ensures { result ≡ sharing_in word.now }
{
    if word == b"any".as_slice() {
        Some(Sharing::Any)
    } else if word == b"apart".as_slice() {
        Some(Sharing::Apart)
    } else {
        None
    }
}

/// Whether drawn objects are the outside ones, by the number of their sorts.
pub fn are_outside(word: &[u8]) -> Option<bool>
    ensures { result ≡ outside_in word.now }
{
    if word == b"4".as_slice() {
        Some(true)
    } else if word == b"3".as_slice() {
        Some(false)
    } else {
        None
    }
}

/// The register that may be left away.
pub fn register_of(word: &[u8]) -> Option<Option<u64>>
    ensures { result ≡ register_in word.now }
{
    if word == b"-".as_slice() {
        return Some(None);
    }
    match number_of(word) {
        Some(register) => Some(Some(register)),
        None => None,
    }
}

// Whether the byte may stand in the name of a check: a letter, a digit, `_` or a dot.
fn is_check_byte(b: u8) -> bool
    ensures { result ≡ check_part b }
{
    is_word_byte(b) || b == b'.'
}

// Whether all the bytes may stand in the name of a check.
fn all_check_bytes(bytes: &[u8]) -> bool
    ensures { result ≡ list_all check_part bytes.now }
{
    bytes.iter().all(|b| is_check_byte(*b))
}

/// Whether this is formed as the name of a check.
pub fn is_check_name(bytes: &[u8]) -> bool
    ensures { result ≡ check_name bytes.now }
{
    let [first, tail @ ..] = bytes else {
        return false;
    };
    is_check_byte(*first) && all_check_bytes(tail)
}

/// Whether this is formed as the name of a body.
pub fn is_body_name(bytes: &[u8]) -> bool
    ensures { result ≡ body_name bytes.now }
{
    is_formed(bytes) || bytes == b".start".as_slice()
}
