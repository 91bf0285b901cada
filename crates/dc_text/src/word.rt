// How a name is formed.
ghost use Rattle.std.specs.Prelude.{◌≡◌};
ghost use Rattle.std.specs.List.{list_all};
ghost use Rattle.dc_text.specs.Words.{is_letter, is_word, is_word_part};

/// Whether a name may begin with the byte: a letter or `_`.
pub fn is_letter_byte(b: u8) -> bool
    ensures { result ≡ is_letter b }
{
    (b'a' <= b && b <= b'z') || (b'A' <= b && b <= b'Z') || b == b'_'
}

/// Whether the byte may stand in a name: a letter, a digit or `_`.
pub fn is_word_byte(b: u8) -> bool
    ensures { result ≡ is_word_part b }
{
    is_letter_byte(b) || (b'0' <= b && b <= b'9')
}

// Whether all the bytes may stand in a name.
fn all_word_bytes(bytes: &[u8]) -> bool
    ensures { result ≡ list_all is_word_part bytes.now }
{
    bytes.iter().all(|b| is_word_byte(*b))
}

/// Whether the bytes are formed as a name: letters, digits and `_`, no digit first.
pub fn is_formed(bytes: &[u8]) -> bool
    ensures { result ≡ is_word bytes.now }
{
    let [first, tail @ ..] = bytes else {
        return false;
    };
    is_letter_byte(*first) && all_word_bytes(tail)
}
