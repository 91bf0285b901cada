// Which integers are too wide.
ghost use Rattle.std.specs.Prelude.{◌≡◌, ◌≤◌, ◌^◌, ◌↔◌, IsTrue};
ghost use Rattle.dc_lexer.specs.Words.{digit_value as value_of_digit, value_behind};
ghost use Rattle.dc_lexer.specs.Reading.{digits_value, word_value, zero_value};

use crate::digits::{digits_len, is_digit, is_hexadecimal_mark};

// 2^64 - 1
const WIDEST: u128 = 18446744073709551615;

// What a digit counts.
fn digit_value(b: u8) -> u8
    ensures { result ≡ value_of_digit b }
{
    if is_digit(b) {
        b - b'0'
    } else if b'a' <= b {
        b - 87
    } else {
        b.saturating_sub(55)
    }
}

// Whether these digits count 2^64 or more.
fn is_wide_in(base: u8, digits: &[u8]) -> bool
    requires { 1 ≤ base }
    ensures { IsTrue result ↔ (2 ^ 64 ≤ value_behind base 0 digits.now) }
{
    let mut number: u64 = 0;
    let mut rest = digits;
    while let [first, tail @ ..] = rest {
        let next = number as u128 * base as u128 + digit_value(*first) as u128;
        if next > WIDEST {
            return true;
        }
        number = next as u64;
        rest = tail;
    }
    false
}

// Whether these digits behind a zero count 2^64 or more.
fn is_zero_wide(digits: &[u8]) -> bool
    ensures { IsTrue result ↔ (2 ^ 64 ≤ zero_value digits.now) }
{
    let [mark, tail @ ..] = digits else {
        return false;
    };
    if is_hexadecimal_mark(*mark) {
        is_wide_in(16, tail)
    } else {
        is_wide_in(8, digits)
    }
}

// Whether these digits count 2^64 or more.
fn are_digits_wide(digits: &[u8]) -> bool
    ensures { IsTrue result ↔ (2 ^ 64 ≤ digits_value digits.now) }
{
    let [first, tail @ ..] = digits else {
        return false;
    };
    if *first == b'0' {
        is_zero_wide(tail)
    } else {
        is_wide_in(10, digits)
    }
}

/// Whether the digits of an integer count 2^64 or more.
pub fn is_wide_integer(word: &[u8]) -> bool
    ensures { IsTrue result ↔ (2 ^ 64 ≤ word_value word.now) }
{
    let len = digits_len(word);
    are_digits_wide(&word[..len])
}
