// Which mark stands at a place.
ghost use Rattle.std.specs.Prelude.{◌≡◌, drop};
ghost use Rattle.dc_syntax.specs.declared.mark.Mark.TheVariants.{LeftBrace, RightBrace, RightParen, RightBracket, Comma, Semicolon};
ghost use Rattle.dc_syntax.specs.Reading as spec;
ghost use Rattle.dc_syntax.specs.Tokens.{Marked};

use crate::read::word;
use dc_syntax::{Mark, Token, Word};

/// Whether an opening brace stands at the place.
pub fn opens_body(tokens: &[Token<'_>], at: usize) -> bool
    ensures { result ≡ spec.begins (Marked LeftBrace) (drop at tokens.now) }
{
    matches!(word(tokens, at), Some(Word::Marked(Mark::LeftBrace)))
}

/// Whether a closing brace stands at the place.
pub fn closes_body(tokens: &[Token<'_>], at: usize) -> bool
    ensures { result ≡ spec.begins (Marked RightBrace) (drop at tokens.now) }
{
    matches!(word(tokens, at), Some(Word::Marked(Mark::RightBrace)))
}

/// Whether a closing parenthesis stands at the place.
pub fn closes(tokens: &[Token<'_>], at: usize) -> bool
    ensures { result ≡ spec.begins (Marked RightParen) (drop at tokens.now) }
{
    matches!(word(tokens, at), Some(Word::Marked(Mark::RightParen)))
}

/// Whether a closing bracket stands at the place.
pub fn closes_length(tokens: &[Token<'_>], at: usize) -> bool
    ensures { result ≡ spec.begins (Marked RightBracket) (drop at tokens.now) }
{
    matches!(word(tokens, at), Some(Word::Marked(Mark::RightBracket)))
}

/// Whether a comma stands at the place.
pub fn begins_comma(tokens: &[Token<'_>], at: usize) -> bool
    ensures { result ≡ spec.begins (Marked Comma) (drop at tokens.now) }
{
    matches!(word(tokens, at), Some(Word::Marked(Mark::Comma)))
}

/// Whether a semicolon stands at the place.
pub fn begins_semicolon(tokens: &[Token<'_>], at: usize) -> bool
    ensures { result ≡ spec.begins (Marked Semicolon) (drop at tokens.now) }
{
    matches!(word(tokens, at), Some(Word::Marked(Mark::Semicolon)))
}
