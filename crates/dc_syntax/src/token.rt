// The tokens of the grammar, with their bytes in the source.
ghost use Rattle.std.specs.Prelude.{◌≡◌};
ghost use Rattle.dc_syntax.specs.WordView.{word_view};

use crate::keyword::Keyword;
use crate::mark::Mark;
use std::marker::Model;

/// What a token is. A name and a literal lie in the source.
#[derive(Clone, Copy, Debug)]
pub enum Word<'a> {
    Named(&'a [u8]),
    Literal(&'a [u8]),
    Marked(Mark),
    Reserved(Keyword),
}

/// A token with its number, from 1, and its line, seen as the grammar's token.
#[derive(Debug, Drop)]
pub struct Token<'a> {
    word: Word<'a>,
    number: u64,
    line: u64,
}

impl<'a> Model for Token<'a> {
    ghost use Rattle.dc_syntax.specs.Tokens as tokens;
    ghost use Rattle.dc_syntax.specs.WordView.{word_view};

    ghost Value = { tokens.Token };

    ghost view = { λ t. record { word = word_view t.word; number = t.number; line = t.line } };
}

impl<'a> Token<'a> {
    /// A token of this word.
    pub fn new(word: Word<'a>, number: u64, line: u64) -> Token<'a>
        ensures { result ≡ record { word = word_view word.entry; number = number; line = line } }
    {
        Token { word, number, line }
    }

    /// What the token is.
    pub fn word(&self) -> Word<'a>
        ensures { word_view result ≡ self.now.word }
    {
        self.word
    }

    /// The number, from 1.
    pub fn number(&self) -> u64
        ensures { result ≡ self.now.number }
    {
        self.number
    }

    /// The line.
    pub fn line(&self) -> u64
        ensures { result ≡ self.now.line }
    {
        self.line
    }
}
