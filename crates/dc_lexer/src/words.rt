// Words, each alone.
ghost use Rattle.std.specs.Prelude.{◌≡◌, ◌≤◌, length};
ghost use Rattle.std.specs.List.{prefix_len};
ghost use Rattle.dc_text.specs.Words.{is_word_part};
ghost use Rattle.dc_lexer.specs.Reading.{word_len as len_of_word};

use dc_text::{is_letter_byte, is_word_byte};

// How many letters, digits and `_` stand in front.
fn parts_len(bytes: &[u8]) -> usize
    ensures within { result ≤ length bytes.now }
    ensures len { result ≡ prefix_len is_word_part bytes.now }
{
    let mut rest = bytes;
    while let [first, tail @ ..] = rest {
        if !is_word_byte(*first) {
            return bytes.len() - rest.len();
        }
        rest = tail;
    }
    bytes.len() - rest.len()
}

/// How many bytes the word in front has, or 0.
pub fn word_len(bytes: &[u8]) -> usize
    ensures within { result ≤ length bytes.now }
    ensures len { result ≡ len_of_word bytes.now }
{
    let [first, tail @ ..] = bytes else {
        return 0;
    };
    if is_letter_byte(*first) {
        1 + parts_len(tail)
    } else {
        0
    }
}
