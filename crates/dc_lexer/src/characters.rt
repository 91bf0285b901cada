// Character literals.
ghost use Rattle.std.specs.Prelude.{◌≡◌, ◌≤◌, ◌+◌, length};
ghost use Rattle.dc_lexer.specs.Words.{is_plain_character};
ghost use Rattle.dc_lexer.specs.Reading.{character_len as len_of_character, escaped_len as len_of_escaped, is_escape as escape, quoted_len as len_of_quoted};

fn is_plain(b: u8) -> bool
    ensures { result ≡ is_plain_character b }
{
    b' ' <= b && b <= b'~' && b != b'\'' && b != b'\\'
}

fn is_escape(b: u8) -> bool
    ensures { result ≡ escape b }
{
    b == b'n' || b == b't' || b == b'r' || b == b'0' || b == b'\\' || b == b'\'' || b == b'"'
}

// The length of an escape whose quote, backslash and letter stand before these bytes, or 0.
fn escaped_len(letter: u8, bytes: &[u8]) -> usize
    ensures within { result ≤ length bytes.now + 3 }
    ensures len { result ≡ len_of_escaped letter bytes.now }
{
    let [quote, ..] = bytes else {
        return 0;
    };
    if is_escape(letter) && *quote == b'\'' {
        4
    } else {
        0
    }
}

// The length of a literal whose quote stands before these bytes, or 0.
fn quoted_len(bytes: &[u8]) -> usize
    ensures within { result ≤ length bytes.now + 1 }
    ensures len { result ≡ len_of_quoted bytes.now }
{
    let [first, second, tail @ ..] = bytes else {
        return 0;
    };
    if *first == b'\\' {
        escaped_len(*second, tail)
    } else if is_plain(*first) && *second == b'\'' {
        3
    } else {
        0
    }
}

/// How many bytes the character literal in front has, or 0.
pub fn character_len(bytes: &[u8]) -> usize
    ensures within { result ≤ length bytes.now }
    ensures len { result ≡ len_of_character bytes.now }
{
    let [first, tail @ ..] = bytes else {
        return 0;
    };
    if *first == b'\'' { quoted_len(tail) } else { 0 }
}
