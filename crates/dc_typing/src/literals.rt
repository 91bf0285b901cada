// Literals (C11 6.4.4.1, 6.4.4.4).
ghost use Rattle.std.specs.Prelude.{◌≡◌, ◌≤◌, Option};
ghost use Rattle.std.specs.List.{list_any};
ghost use Rattle.dc_program.specs.View.{expr_view};
ghost use Rattle.dc_typing.specs.Answers.{Answers};
ghost use Rattle.dc_typing.specs.Literals as spec;

use crate::refusal::{Refusal, broken};
use dc_num::NumKind;
use dc_program::{Expr, Form, Rule};
use dc_rules::number;
use std::alloc::Global;

// 2^64 - 1
const WIDEST: u128 = 18446744073709551615;

// `u` or `U`
fn is_unsigned_mark(b: u8) -> bool
    ensures { result ≡ spec.is_unsigned_mark b }
{
    b == b'u' || b == b'U'
}

// `l` or `L`
fn is_long_mark(b: u8) -> bool
    ensures { result ≡ spec.is_long_mark b }
{
    b == b'l' || b == b'L'
}

// Whether `u` is in the suffix.
fn has_unsigned_mark(bytes: &[u8]) -> bool
    ensures { result ≡ list_any spec.is_unsigned_mark bytes.now }
{
    for b in bytes {
        if is_unsigned_mark(*b) {
            return true;
        }
    }
    false
}

// Whether `l` is in the suffix.
fn has_long_mark(bytes: &[u8]) -> bool
    ensures { result ≡ list_any spec.is_long_mark bytes.now }
{
    for b in bytes {
        if is_long_mark(*b) {
            return true;
        }
    }
    false
}

// What a digit counts.
fn digit_value(b: u8) -> u8
    ensures { result ≡ spec.digit_value b }
{
    if b <= b'9' {
        b.saturating_sub(b'0')
    } else if b'a' <= b {
        b - 87
    } else {
        b - 55
    }
}

// The number of the digits in front; none where it is 2^64 or more.
fn value_from(base: u64, digits: &[u8]) -> Option<u64>
    ensures { result ≡ spec.value_from base 0 digits.now }
{
    let mut number: u64 = 0;
    let mut rest = digits;
    while let [first, tail @ ..] = rest {
        if is_unsigned_mark(*first) || is_long_mark(*first) {
            return Some(number);
        }
        let next = number as u128 * base as u128 + digit_value(*first) as u128;
        if next > WIDEST {
            return None;
        }
        number = next as u64;
        rest = tail;
    }
    Some(number)
}

// The number of the digits behind a zero.
fn zero_value(digits: &[u8]) -> Option<u64>
    ensures { result ≡ spec.zero_value digits.now }
{
    match digits {
        [] => Some(0),
        [b'x' | b'X', tail @ ..] => value_from(16, tail),
        _ => value_from(8, digits),
    }
}

// The number that an integer literal stands for; none where it is 2^64 or more.
fn integer_value(bytes: &[u8]) -> Option<u64>
    ensures { result ≡ spec.integer_value bytes.now }
{
    match bytes {
        [] => None,
        [b'0', tail @ ..] => zero_value(tail),
        _ => value_from(10, bytes),
    }
}

// The first kind of C's list that holds the value.
fn integer_kind(decimal: bool, unsigned: bool, long: bool, value: u64) -> Option<NumKind>
    ensures { result ≡ spec.integer_kind decimal unsigned long value }
{
    let may_be_unsigned = unsigned || !decimal;
    if !unsigned && !long && value < 1 << 31 {
        Some(NumKind::S32)
    } else if may_be_unsigned && !long && value < 1 << 32 {
        Some(NumKind::U32)
    } else if !unsigned && value < 1 << 63 {
        Some(NumKind::S64)
    } else if may_be_unsigned {
        Some(NumKind::U64)
    } else {
        None
    }
}

// Whether no zero is first.
fn is_decimal(bytes: &[u8]) -> bool
    ensures { result ≡ spec.is_decimal bytes.now }
{
    match bytes {
        [] => false,
        [first, ..] => *first != b'0',
    }
}

// An integer literal.
fn integer(alloc: Global, site: u64, bytes: &[u8]) -> Result<Expr, Refusal>
    ensures { Answers expr_view (spec.valued site bytes.now (spec.integer_value bytes.now)) result }
{
    let Some(value) = integer_value(bytes) else {
        return broken(Rule::LiteralTooLarge, site);
    };
    let unsigned = has_unsigned_mark(bytes);
    match integer_kind(is_decimal(bytes), unsigned, has_long_mark(bytes), value) {
        Some(kind) => Ok(Expr::new(alloc, number(kind), Form::Literal(value as i128))?),
        None => broken(Rule::LiteralTooLarge, site),
    }
}

// What a letter behind a backslash stands for.
fn escape_value(b: u8) -> u8
    ensures { result ≡ spec.escape_value b }
{
    match b {
        b'n' => 10,
        b't' => 9,
        b'r' => 13,
        b'0' => 0,
        _ => b,
    }
}

// What stands behind the first quote.
fn character_value(bytes: &[u8]) -> u8
    ensures { result ≡ spec.character_value bytes.now }
{
    match bytes {
        [] => 0,
        [b] => *b,
        [b'\\', letter, ..] => escape_value(*letter),
        [b, ..] => *b,
    }
}

/// The literal that the bytes spell: a character, which is an int, or an integer of the first type of C's list that holds its
/// value. `LiteralTooLarge` is broken where none does.
pub fn literal(alloc: Global, site: u64, bytes: &[u8]) -> Result<Expr, Refusal>
    ensures { Answers expr_view (spec.literal site bytes.now) result }
{
    match bytes {
        [] => broken(Rule::LiteralTooLarge, site),
        [b'\'', tail @ ..] => {
            let value = character_value(tail);
            Ok(Expr::new(alloc, number(NumKind::S32), Form::Literal(value as i128))?)
        }
        _ => integer(alloc, site, bytes),
    }
}
