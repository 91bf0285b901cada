// Numbers in decimal.
ghost use Rattle.std.specs.Prelude.{◌≡◌, ◌≤◌, ◌^◌, IfSome, Some};
ghost use Rattle.dc_text.specs.Words.{is_digit as digit};
ghost use Rattle.dc_goto.specs.Reading.{constant_of as constant_in, decimal_of as decimal_in, is_plain as plain, negative as negated, number_from as number_behind, number_of as number_in};

// Whether the byte is a decimal digit.
fn is_digit(b: u8) -> bool
    ensures { result ≡ digit b }
{
    b'0' <= b && b <= b'9'
}

// Whether this is not empty, with no zero in front of other digits.
fn is_plain(bytes: &[u8]) -> bool
    ensures { result ≡ plain bytes.now }
{
    match bytes {
        [] => false,
        [_] => true,
        [first, ..] => *first != b'0',
    }
}

// The number of these digits, up to a limit.
fn number_from(limit: u128, bytes: &[u8]) -> Option<u128>
    requires { limit ≤ 2 ^ 127 }
    ensures is { result ≡ number_behind limit 0 bytes.now }
    ensures low { IfSome result (λ n. n ≤ limit) }
{
    let most = limit / 10;
    let mut number: u128 = 0;
    let mut rest = bytes;
    while let [first, tail @ ..] = rest {
        if !is_digit(*first) || number > most {
            return None;
        }
        let next = number * 10 + (*first - b'0') as u128;
        if next > limit {
            return None;
        }
        number = next;
        rest = tail;
    }
    Some(number)
}

// The number of a decimal without a leading zero, up to a limit.
fn decimal_of(limit: u128, bytes: &[u8]) -> Option<u128>
    requires { limit ≤ 2 ^ 127 }
    ensures is { result ≡ decimal_in limit bytes.now }
    ensures low { IfSome result (λ n. n ≤ limit) }
{
    if is_plain(bytes) {
        number_from(limit, bytes)
    } else {
        None
    }
}

/// The number of a decimal from 0 to 2^64 - 1.
pub fn number_of(bytes: &[u8]) -> Option<u64>
    ensures { result ≡ number_in bytes.now }
{
    match decimal_of(18446744073709551615, bytes) {
        Some(number) => Some(number as u64),
        None => None,
    }
}

// The negative number of this magnitude, which isn't 0.
fn negative(magnitude: u128) -> Option<i128>
    requires { magnitude ≤ 2 ^ 127 }
    ensures { result ≡ negated (Some magnitude) }
{
    if magnitude == 0 {
        return None;
    }
    let below = (magnitude - 1) as i128;
    Some(-1 - below)
}

/// The number of a decimal from -2^127 to 2^127 - 1, with a `-` in front where it is negative.
pub fn constant_of(bytes: &[u8]) -> Option<i128>
    ensures { result ≡ constant_in bytes.now }
{
    let [first, tail @ ..] = bytes else {
        return None;
    };
    if *first == b'-' {
        return match decimal_of(170141183460469231731687303715884105728, tail) {
            Some(magnitude) => negative(magnitude),
            None => None,
        };
    }
    match decimal_of(170141183460469231731687303715884105727, bytes) {
        Some(number) => Some(number as i128),
        None => None,
    }
}
