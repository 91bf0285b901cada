// The token in front.
ghost use Rattle.std.specs.Prelude.{◌≡◌, ◌≤◌, ◌↔◌, IsTrue, length};
ghost use Rattle.dc_lexer.specs.Reading.{front_kind as kind_in_front, kind_of as kind_in, len_of as len_in, lexeme_len as len_of_lexeme, IsWide};

use crate::characters::character_len;
use crate::digits::is_digit;
use crate::integers::integer_len;
use crate::kind::Kind;
use crate::punctuators::punctuator_len;
use crate::separators::begins_comment;
use crate::widths::is_wide_integer;
use crate::words::word_len;
use dc_text::is_letter_byte;

// The kind of the tokens that begin with the byte.
fn kind_of(b: u8) -> Kind
    ensures { result ≡ kind_in b }
{
    if is_letter_byte(b) {
        Kind::Word
    } else if is_digit(b) {
        Kind::Integer
    } else if b == b'\'' {
        Kind::Character
    } else {
        Kind::Punctuator
    }
}

/// The kind of a token that stands in front.
pub fn front_kind(bytes: &[u8]) -> Kind
    ensures { result ≡ kind_in_front bytes.now }
{
    match bytes {
        [first, ..] => kind_of(*first),
        [] => Kind::Punctuator,
    }
}

// How many bytes the token of that kind has that stands in front, or 0.
fn len_of(kind: Kind, bytes: &[u8]) -> usize
    ensures within { result ≤ length bytes.now }
    ensures len { result ≡ len_in kind bytes.now }
{
    match kind {
        Kind::Word => word_len(bytes),
        Kind::Integer => integer_len(bytes),
        Kind::Character => character_len(bytes),
        Kind::Punctuator => punctuator_len(bytes),
    }
}

/// How many bytes the token in front has, where no comment begins, or 0.
pub fn lexeme_len(bytes: &[u8]) -> usize
    ensures within { result ≤ length bytes.now }
    ensures len { result ≡ len_of_lexeme bytes.now }
{
    if begins_comment(bytes) {
        0
    } else {
        len_of(front_kind(bytes), bytes)
    }
}

/// Whether a token of that kind is an integer of 2^64 or more.
pub fn is_wide(kind: Kind, word: &[u8]) -> bool
    ensures { IsTrue result ↔ IsWide kind word.now }
{
    match kind {
        Kind::Integer => is_wide_integer(word),
        Kind::Word | Kind::Character | Kind::Punctuator => false,
    }
}
