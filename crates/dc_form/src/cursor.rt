// Tokens, read one after another.
ghost use Rattle.std.specs.Prelude.{◌≡◌, ◌≤◌, ◌∷◌, length, [], if◌then◌else◌, OnOk, IsErrOf, MatchOption, IsTrue, true, false, ◌↔◌};
ghost use Rattle.dc_text.specs.Words.{same};
ghost use Rattle.dc_form.specs.Read.Cursor.{front as front_of, tail as tail_of};
ghost use Rattle.dc_form.specs.declared.reader.Form.TheVariants.{NoForm};

use crate::reader::Form;
use crate::tokens::Token;
use std::marker::Model;

/// The tokens that are left to read.
#[derive(Drop)]
pub struct Cursor<'t, 'a> {
    rest: &'t [Token<'a>],
}

impl<'t, 'a> Model for Cursor<'t, 'a> {
    ghost use Rattle.std.specs.Prelude.{List, ℕ};

    ghost Value = { List (List ℕ) };

    ghost view = { λ cursor. cursor.rest.now };
}

impl<'t, 'a> Cursor<'t, 'a> {
    pub fn new(rest: &'t [Token<'a>]) -> Cursor<'t, 'a>
        ensures { result ≡ rest.now }
    {
        Cursor { rest }
    }

    pub fn is_empty(&self) -> bool
        ensures { IsTrue result ↔ (self.now ≡ []) }
    {
        self.rest.is_empty()
    }

    /// The token in front, or nothing.
    pub fn front(&self) -> &[u8]
        ensures { result.now ≡ front_of self.now }
    {
        match self.rest {
            [first, ..] => first.as_slice(),
            [] => &[],
        }
    }

    /// Passes over the token in front.
    pub fn advance(&mut self)
        ensures rest { self.new ≡ tail_of self.old }
        ensures shorter { length self.new ≤ length self.old }
    {
        if let [_, tail @ ..] = self.rest {
            self.rest = tail;
        }
    }

    /// Takes the token in front.
    pub fn next(&mut self) -> Option<&'t Token<'a>>
        ensures { MatchOption result ((self.old ≡ []) × (self.new ≡ [])) (λ token. self.old ≡ token.now ∷ self.new) }
    {
        let [first, tail @ ..] = self.rest else {
            return None;
        };
        self.rest = tail;
        Some(first)
    }

    /// Whether this word stands in front.
    pub fn starts_with(&self, word: &[u8]) -> bool
        ensures { result ≡ same (front_of self.now) word.now }
    {
        self.front() == word
    }

    /// Passes over this word, if it stands in front.
    pub fn take(&mut self, word: &[u8]) -> bool
        ensures is { result ≡ same (front_of self.old) word.now }
        ensures shorter { length self.new ≤ length self.old }
        ensures rest { self.new ≡ if result then tail_of self.old else self.old }
    {
        let found = self.starts_with(word);
        if found {
            self.advance();
        }
        found
    }

    /// Passes over this word, which has to stand in front.
    pub fn expect(&mut self, word: &[u8]) -> Result<(), Form>
        ensures found { OnOk result (same (front_of self.old) word.now ≡ true) }
        ensures rest { OnOk result (self.new ≡ tail_of self.old) }
        ensures shorter { length self.new ≤ length self.old }
        ensures none { IsErrOf result NoForm → same (front_of self.old) word.now ≡ false }
    {
        if !self.starts_with(word) {
            return Err(Form::NoForm);
        }
        self.advance();
        Ok(())
    }
}
