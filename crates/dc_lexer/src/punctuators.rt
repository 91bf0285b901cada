// Punctuators.
ghost use Rattle.std.specs.Prelude.{◌≡◌, ◌≤◌, length, IsTrue};
ghost use Rattle.dc_lexer.specs.Reading.{begins_pair as pair_in, begins_triple as triple_in, is_pair as pair, is_single as single, is_triple as triple, punctuator_len as len_of_punctuator};

fn is_single(b: u8) -> bool
    ensures { result ≡ single b }
{
    b"()[]{};,:?.~&*+-!/%<>^|=".as_slice().contains(&b)
}

fn is_pair(a: u8, b: u8) -> bool
    ensures { result ≡ pair a b }
{
    (b == b'=' && b"<>=!*/%+-&^|".as_slice().contains(&a))
        || (b == a && b"+-<>&|".as_slice().contains(&a))
        || (a == b'-' && b == b'>')
}

fn is_triple(a: u8, b: u8, c: u8) -> bool
    ensures { result ≡ triple a b c }
{
    b == a && ((a == b'=' && c == b'>') || (c == b'=' && (a == b'<' || a == b'>')))
}

// Whether the byte and the next are a punctuator.
fn begins_pair(a: u8, bytes: &[u8]) -> bool
    ensures within { IsTrue result → 1 ≤ length bytes.now }
    ensures is { result ≡ pair_in a bytes.now }
{
    match bytes {
        [b, ..] => is_pair(a, *b),
        [] => false,
    }
}

// Whether the byte and the next two are a punctuator.
fn begins_triple(a: u8, bytes: &[u8]) -> bool
    ensures within { IsTrue result → 2 ≤ length bytes.now }
    ensures is { result ≡ triple_in a bytes.now }
{
    match bytes {
        [b, c, ..] => is_triple(a, *b, *c),
        _ => false,
    }
}

/// How many bytes the punctuator in front has, or 0.
pub fn punctuator_len(bytes: &[u8]) -> usize
    ensures within { result ≤ length bytes.now }
    ensures len { result ≡ len_of_punctuator bytes.now }
{
    let [first, tail @ ..] = bytes else {
        return 0;
    };
    if begins_triple(*first, tail) {
        3
    } else if begins_pair(*first, tail) {
        2
    } else if is_single(*first) {
        1
    } else {
        0
    }
}
