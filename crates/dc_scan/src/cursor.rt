// Bytes, read one after another.
ghost use Rattle.std.specs.Prelude.{◌≡◌, ◌≤◌, [], length, OnOk, IsErrOf, IsTrue, true, false, ◌↔◌};
ghost use Rattle.dc_goto.specs.Reading.{begins_with as begins, behind_word, ends_word as ends, front_word, tail_of, word_len as len_of_word};
ghost use Rattle.dc_scan.specs.declared.form.Form.TheVariants.{NoForm};

use crate::form::Form;
use std::marker::Model;

// Whether a word ends before the byte.
fn ends_word(b: u8) -> bool
    ensures { result ≡ ends b }
{
    b == b' ' || b == b')' || b == b'\n'
}

// How many bytes the word in front has.
fn word_len(bytes: &[u8]) -> usize
    ensures within { result ≤ length bytes.now }
    ensures len { result ≡ len_of_word bytes.now }
{
    let mut rest = bytes;
    while let [first, tail @ ..] = rest {
        if ends_word(*first) {
            return bytes.len() - rest.len();
        }
        rest = tail;
    }
    bytes.len() - rest.len()
}

/// The bytes that are left to read.
#[derive(Drop)]
pub struct Cursor<'a> {
    rest: &'a [u8],
}

impl<'a> Model for Cursor<'a> {
    ghost use Rattle.std.specs.Prelude.{List, ℕ};

    ghost Value = { List ℕ };

    ghost view = { λ cursor. cursor.rest.now };
}

impl<'a> Cursor<'a> {
    pub fn new(rest: &'a [u8]) -> Cursor<'a>
        ensures { result ≡ rest.now }
    {
        Cursor { rest }
    }

    pub fn is_empty(&self) -> bool
        ensures { IsTrue result ↔ (self.now ≡ []) }
    {
        self.rest.is_empty()
    }

    /// Whether the byte stands in front.
    pub fn begins_with(&self, byte: u8) -> bool
        ensures { result ≡ begins byte self.now }
    {
        match self.rest {
            [first, ..] => *first == byte,
            [] => false,
        }
    }

    // Passes over the byte in front.
    fn advance(&mut self)
        ensures { self.new ≡ tail_of self.old }
    {
        if let [_, tail @ ..] = self.rest {
            self.rest = tail;
        }
    }

    /// Passes over this byte, which has to stand in front.
    pub fn expect(&mut self, byte: u8) -> Result<(), Form>
        ensures found { OnOk result (begins byte self.old ≡ true) }
        ensures rest { OnOk result (self.new ≡ tail_of self.old) }
        ensures none { IsErrOf result NoForm → begins byte self.old ≡ false }
    {
        if !self.begins_with(byte) {
            return Err(Form::NoForm);
        }
        self.advance();
        Ok(())
    }

    /// Takes the word in front, which may be empty.
    pub fn word(&mut self) -> &'a [u8]
        ensures is { result.now ≡ front_word self.old }
        ensures rest { self.new ≡ behind_word self.old }
    {
        let len = word_len(self.rest);
        let word = &self.rest[..len];
        self.rest = &self.rest[len..];
        word
    }
}
