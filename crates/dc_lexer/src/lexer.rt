// The tokens of a source.
ghost use Rattle.std.specs.Prelude.{◌≡◌, ◌≤◌, ◌-◌, ℕ, length, take, IfOk, IsErrOf};
ghost use Rattle.dc_lexer.specs.Pieces.{AreTokens, IsStuck, AtByte, AtWide, AtDirective};
ghost use Rattle.dc_lexer.specs.declared.fault.Lex.TheVariants.{Byte, Wide, Directive};

use crate::directives::at_start;
use crate::fault::Lex;
use crate::front::{Front, look};
use crate::separators::{behind, newlines};
use crate::tokens::{Token, Tokens};
use std::alloc::Global;

// This many bytes of the front.
fn before(len: usize, bytes: &[u8]) -> &[u8]
    requires { len ≤ length bytes.now }
    ensures { result.now ≡ take len bytes.now }
{
    &bytes[..len]
}

// How many bytes stand before these last ones.
fn place(bytes: &[u8], rest: &[u8]) -> u64
    requires { length rest.now ≤ length bytes.now }
    ensures { result ≡ length bytes.now - length rest.now }
{
    (bytes.len() - rest.len()) as u64
}

/// The tokens of a source (C11 6.4, without preprocessing): the longest token that stands in front of what is left is
/// taken, and blanks, newlines and comments separate tokens, and so do line markers and the includes of the predefined
/// headers, which are skipped.
///
/// The error is where the reading stops, of which there is one place at most: `Directive` with the line, from 1, of the
/// `#` that is the first of its line that is no blank, and begins no directive that is skipped; `Wide` with the place,
/// from 0, of an integer of 2^64 or more; and `Byte` with the place, from 0, of the first byte of anything else that is
/// neither a token nor separates tokens. A comment that isn't closed is refused at its first byte. `Memory` says that
/// there was no memory for the tokens. After an error there are no tokens.
pub fn lex<'a>(alloc: Global, bytes: &'a [u8]) -> Result<Tokens<'a>, Lex>
    ensures found { IfOk result (λ tokens. AreTokens bytes.now tokens) }
    ensures byte { (at : ℕ) → IsErrOf result (Byte at) → IsStuck bytes.now (AtByte at) }
    ensures wide { (at : ℕ) → IsErrOf result (Wide at) → IsStuck bytes.now (AtWide at) }
    ensures directive { (line : ℕ) → IsErrOf result (Directive line) → IsStuck bytes.now (AtDirective line) }
{
    let mut tokens = Tokens::new(alloc);
    let mut line: u64 = 1;
    let mut fresh = true;
    let mut rest = bytes;
    while !rest.is_empty() {
        match look(fresh, rest) {
            Front::Gap(len) => {
                let gap = before(len, rest);
                line += newlines(gap);
                fresh = at_start(fresh, gap);
                rest = behind(len, rest);
            }
            Front::Lexeme(kind, len) => {
                let word = before(len, rest);
                tokens.push(Token::new(kind, word, line))?;
                fresh = at_start(fresh, word);
                rest = behind(len, rest);
            }
            Front::Wide => return Err(Lex::Wide(place(bytes, rest))),
            Front::Directive => return Err(Lex::Directive(line)),
            Front::Byte => return Err(Lex::Byte(place(bytes, rest))),
        }
    }
    Ok(tokens)
}
