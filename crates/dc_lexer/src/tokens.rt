// The tokens of a source, with their lines.
ghost use Rattle.std.specs.Prelude.{◌≡◌, ◌++◌, [], ◌∷◌, length, slice_get, OnOk, OnErr};
ghost use Rattle.std.specs.Option.{option_map};

use crate::kind::Kind;
use std::alloc::{AllocError, Global};
use std::marker::Model;

/// A token: its kind, its bytes in the source, and the line on which it stands.
#[derive(Debug, Drop)]
pub struct Token<'a> {
    kind: Kind,
    bytes: &'a [u8],
    line: u64,
}

impl<'a> Model for Token<'a> {
    ghost use Rattle.dc_lexer.specs.Pieces as plain;

    ghost Value = { plain.Token };

    ghost view = { λ token. record { kind = token.kind; bytes = token.bytes.now; line = token.line } };
}

impl<'a> Token<'a> {
    /// The token of this kind, these bytes and this line.
    pub fn new(kind: Kind, bytes: &'a [u8], line: u64) -> Token<'a>
        ensures { result ≡ record { kind = kind; bytes = bytes.now; line = line } }
    {
        Token { kind, bytes, line }
    }

    pub fn kind(&self) -> Kind
        ensures { result ≡ self.now.kind }
    {
        self.kind
    }

    /// The bytes of the token, as they stand in the source.
    pub fn as_slice(&self) -> &'a [u8]
        ensures { result.now ≡ self.now.bytes }
    {
        self.bytes
    }

    /// The number of the line, from 1, on which the token stands. Line markers don't change it.
    pub fn line(&self) -> u64
        ensures { result ≡ self.now.line }
    {
        self.line
    }
}

/// The tokens of a source, in their order.
#[derive(Debug, Drop)]
pub struct Tokens<'a> {
    tokens: Vec<Token<'a>>,
}

impl<'a> Model for Tokens<'a> {
    ghost use Rattle.std.specs.Prelude.{List};
    ghost use Rattle.dc_lexer.specs.Pieces as plain;

    ghost Value = { List plain.Token };

    ghost view = { λ tokens. tokens.tokens.items };
}

impl<'a> Tokens<'a> {
    /// No tokens.
    pub fn new(alloc: Global) -> Tokens<'a>
        ensures { result ≡ [] }
    {
        Tokens {
            tokens: Vec::new(alloc),
        }
    }

    /// One more token behind the others, which stay where there is no memory for it.
    pub fn push(&mut self, token: Token<'a>) -> Result<(), AllocError>
        ensures ok { OnOk result (self.new ≡ self.old ++ token.entry ∷ []) }
        ensures err { OnErr result (self.new ≡ self.old) }
    {
        self.tokens.push(token)?;
        Ok(())
    }

    pub fn len(&self) -> usize
        ensures { result ≡ length self.now }
    {
        self.tokens.len()
    }

    /// The token of this number, from 0, if there are that many.
    pub fn get(&self, index: usize) -> Option<&Token<'a>>
        ensures { option_map (λ token. token.now) result ≡ slice_get self.now index }
    {
        self.tokens.get(index)
    }
}
