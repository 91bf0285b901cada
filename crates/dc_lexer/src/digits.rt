// The digits of integers.
ghost use Rattle.std.specs.Prelude.{◌≡◌, ◌≤◌, length};
ghost use Rattle.std.specs.List.{prefix_len};
ghost use Rattle.dc_text.specs.Words.{is_digit as digit};
ghost use Rattle.dc_lexer.specs.Words.{is_hexadecimal_digit as hexadecimal_digit, is_hexadecimal_mark as hexadecimal_mark, is_octal_digit as octal_digit};
ghost use Rattle.dc_lexer.specs.Reading.{digits_len as len_of_digits, zero_len as len_behind_zero};

/// Whether the byte is a decimal digit.
pub fn is_digit(b: u8) -> bool
    ensures { result ≡ digit b }
{
    b'0' <= b && b <= b'9'
}

fn is_octal_digit(b: u8) -> bool
    ensures { result ≡ octal_digit b }
{
    b'0' <= b && b <= b'7'
}

fn is_hexadecimal_digit(b: u8) -> bool
    ensures { result ≡ hexadecimal_digit b }
{
    is_digit(b) || (b'a' <= b && b <= b'f') || (b'A' <= b && b <= b'F')
}

/// Whether the byte is `x` or `X`.
pub fn is_hexadecimal_mark(b: u8) -> bool
    ensures { result ≡ hexadecimal_mark b }
{
    b == b'x' || b == b'X'
}

// How many decimal digits stand in front.
fn decimals_len(bytes: &[u8]) -> usize
    ensures within { result ≤ length bytes.now }
    ensures len { result ≡ prefix_len digit bytes.now }
{
    let mut rest = bytes;
    while let [first, tail @ ..] = rest {
        if !is_digit(*first) {
            return bytes.len() - rest.len();
        }
        rest = tail;
    }
    bytes.len() - rest.len()
}

// How many octal digits stand in front.
fn octals_len(bytes: &[u8]) -> usize
    ensures within { result ≤ length bytes.now }
    ensures len { result ≡ prefix_len octal_digit bytes.now }
{
    let mut rest = bytes;
    while let [first, tail @ ..] = rest {
        if !is_octal_digit(*first) {
            return bytes.len() - rest.len();
        }
        rest = tail;
    }
    bytes.len() - rest.len()
}

// How many hexadecimal digits stand in front.
fn hexadecimals_len(bytes: &[u8]) -> usize
    ensures within { result ≤ length bytes.now }
    ensures len { result ≡ prefix_len hexadecimal_digit bytes.now }
{
    let mut rest = bytes;
    while let [first, tail @ ..] = rest {
        if !is_hexadecimal_digit(*first) {
            return bytes.len() - rest.len();
        }
        rest = tail;
    }
    bytes.len() - rest.len()
}

// How many bytes of a number stand behind its first digit, a zero.
fn zero_len(bytes: &[u8]) -> usize
    ensures within { result ≤ length bytes.now }
    ensures len { result ≡ len_behind_zero bytes.now }
{
    if let [mark, digit, tail @ ..] = bytes {
        if is_hexadecimal_mark(*mark) && is_hexadecimal_digit(*digit) {
            return 2 + hexadecimals_len(tail);
        }
    }
    octals_len(bytes)
}

/// How many digits a number in front has, with its `0x`.
pub fn digits_len(bytes: &[u8]) -> usize
    ensures within { result ≤ length bytes.now }
    ensures len { result ≡ len_of_digits bytes.now }
{
    let [first, tail @ ..] = bytes else {
        return 0;
    };
    if *first == b'0' {
        1 + zero_len(tail)
    } else if is_digit(*first) {
        1 + decimals_len(tail)
    } else {
        0
    }
}
