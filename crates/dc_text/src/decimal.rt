// Numbers in decimal.
ghost use Rattle.std.specs.Prelude.{◌≡◌, ◌<◌, ◌^◌, ◌++◌, ◌↔◌, ℕ, Some, OnOk, OnErr};
ghost use Rattle.std.specs.Fmt.{decimal, signed_decimal};
ghost use Rattle.dc_text.specs.Digits.{is_digit as is_digit_byte, is_plain as is_plain_spelling, number_from as number_behind, number_of as number_in};

use std::alloc::AllocError;

// Whether the byte is a decimal digit.
fn is_digit(byte: u8) -> bool
    ensures { result ≡ is_digit_byte byte }
{
    b'0' <= byte && byte <= b'9'
}

// Whether there are bytes, with no zero in front of others.
fn is_plain(bytes: &[u8]) -> bool
    ensures { result ≡ is_plain_spelling bytes.now }
{
    match bytes {
        [] => false,
        [_] => true,
        [first, ..] => *first != b'0',
    }
}

// The number of these digits, if it is below 2^64.
fn number_from(bytes: &[u8]) -> Option<u64>
    ensures { result ≡ number_behind 0 bytes.now }
{
    let mut number: u64 = 0;
    let mut rest = bytes;
    while let [first, tail @ ..] = rest {
        if !is_digit(*first) {
            return None;
        }
        let next = number as u128 * 10 + (*first - b'0') as u128;
        if next > 18446744073709551615 {
            return None;
        }
        number = next as u64;
        rest = tail;
    }
    Some(number)
}

// The number that the bytes spell, as it is read digit by digit.
fn number_of(bytes: &[u8]) -> Option<u64>
    ensures { result ≡ number_in bytes.now }
{
    if is_plain(bytes) {
        number_from(bytes)
    } else {
        None
    }
}

/// The number below 2^64 that the bytes spell in decimal, with neither sign nor leading zero. It takes no memory.
pub fn read_decimal(bytes: &[u8]) -> Option<u64>
    ensures { (n : ℕ) → (result ≡ Some n) ↔ ((n < 2 ^ 64) × (bytes.now ≡ decimal n)) }
{
    number_of(bytes)
}

/// Adds the digits of a number at the end, behind a `-` where it is negative.
pub fn put_decimal(out: &mut Vec<u8>, n: i128) -> Result<(), AllocError>
    ensures ok { OnOk result (out.new.items ≡ out.old.items ++ signed_decimal n) }
    ensures refused { OnErr result (out.new.items ≡ out.old.items) }
{
    let text = n.to_string(*out.allocator())?;
    out.extend_from_slice(text.as_bytes())
}
