// The tokens of a source.
ghost use Rattle.std.specs.Prelude.{◌≡◌, ◌≤◌, ◌++◌, [], ◌∷◌, ℕ, List, length, IfOk, IsErrOf, OnOk};
ghost use Rattle.std.specs.Option.{option_map};
ghost use Rattle.dc_form.specs.Form.{is_blank, is_mark, takes_equals, goes_on, Spells};
ghost use Rattle.dc_text.specs.Words.{is_word_part, is_letter, is_digit};
ghost use Rattle.dc_form.specs.Read.Tokens.{after_blanks, word_len as len_of_word, token_len as len_of_token, token_front};
ghost use Rattle.dc_form.specs.declared.reader.Form.TheVariants.{NoForm};

use crate::reader::Form;
use dc_text::is_word_byte;
use std::alloc::{AllocError, Global};
use std::marker::Model;

/// A token, as its bytes in the source.
#[derive(Debug, Drop)]
pub struct Token<'a> {
    bytes: &'a [u8],
}

impl<'a> Model for Token<'a> {
    ghost use Rattle.std.specs.Prelude.{List, ℕ};

    ghost Value = { List ℕ };

    ghost view = { λ token. token.bytes.now };
}

impl<'a> Token<'a> {
    pub fn as_slice(&self) -> &'a [u8]
        ensures { result.now ≡ self.now }
    {
        self.bytes
    }
}

fn blank(b: u8) -> bool
    ensures { result ≡ is_blank b }
{
    b == b' ' || b == b'\t' || b == b'\n' || b == b'\r'
}

/// Whether the byte is a decimal digit.
pub fn digit(b: u8) -> bool
    ensures { result ≡ is_digit b }
{
    b'0' <= b && b <= b'9'
}

fn mark(b: u8) -> bool
    ensures { result ≡ is_mark b }
{
    b == b';'
        || b == b','
        || b == b'('
        || b == b')'
        || b == b'{'
        || b == b'}'
        || b == b'+'
        || b == b'-'
        || b == b'='
        || b == b'<'
}

// Whether an `=` behind the byte makes its mark longer, and stands there.
fn longer(b: u8, bytes: &[u8]) -> bool
    ensures { result ≡ goes_on b bytes.now }
{
    let [next, ..] = bytes else {
        return false;
    };
    (b == b'!' || b == b'=' || b == b'<') && *next == b'='
}

// What stands behind the blanks.
fn skip_blanks(bytes: &[u8]) -> &[u8]
    ensures { result.now ≡ after_blanks bytes.now }
{
    let mut rest = bytes;
    while let [first, tail @ ..] = rest {
        if !blank(*first) {
            return rest;
        }
        rest = tail;
    }
    rest
}

// How many bytes of a word stand in front.
fn word_len(bytes: &[u8]) -> usize
    ensures within { result ≤ length bytes.now }
    ensures len { result ≡ len_of_word bytes.now }
{
    let mut rest = bytes;
    while let [first, tail @ ..] = rest {
        if !is_word_byte(*first) {
            return bytes.len() - rest.len();
        }
        rest = tail;
    }
    bytes.len() - rest.len()
}

// How many bytes the token in front has, or 0.
fn token_len(bytes: &[u8]) -> usize
    ensures within { result ≤ length bytes.now }
    ensures len { result ≡ len_of_token bytes.now }
{
    let [first, tail @ ..] = bytes else {
        return 0;
    };
    if is_word_byte(*first) {
        return word_len(bytes);
    }
    if longer(*first, tail) {
        return 2;
    }
    if mark(*first) {
        return 1;
    }
    0
}

// The token in front, and what stands behind it.
fn split_token(bytes: &[u8]) -> Option<(&[u8], &[u8])>
    ensures { option_map (λ x. (x.0.now, x.1.now)) result ≡ token_front bytes.now }
{
    let len = token_len(bytes);
    if len == 0 {
        return None;
    }
    Some((&bytes[..len], &bytes[len..]))
}

// One more token behind the others.
fn push_token<'a>(tokens: &mut Vec<Token<'a>>, bytes: &'a [u8]) -> Result<(), AllocError>
    ensures ok { OnOk result (tokens.new.items ≡ tokens.old.items ++ bytes.now ∷ []) }
{
    tokens.push(Token { bytes })?;
    Ok(())
}

/// The tokens of the bytes, if they are tokens between blanks.
pub fn lex<'a>(alloc: Global, bytes: &'a [u8]) -> Result<Vec<Token<'a>>, Form>
    ensures found { IfOk result (λ tokens. Spells bytes.now tokens.items) }
    ensures none { IsErrOf result NoForm → (tokens : List (List ℕ)) → Spells bytes.now tokens → ⊥ }
{
    let mut tokens = Vec::new(alloc);
    let mut rest = bytes;
    loop {
        let here = skip_blanks(rest);
        if here.is_empty() {
            return Ok(tokens);
        }
        let Some((token, tail)) = split_token(here) else {
            return Err(Form::NoForm);
        };
        push_token(&mut tokens, token)?;
        rest = tail;
    }
}
