// Which mark stands at a place.
ghost use Rattle.std.specs.Prelude.{◌≡◌, drop};
ghost use Rattle.dc_syntax.specs.declared.mark.Mark.TheVariants.{Colon};
ghost use Rattle.dc_syntax.specs.Reading as spec;
ghost use Rattle.dc_syntax.specs.Tokens.{Marked};

use dc_read_expr::word;
use dc_syntax::{Mark, Token, Word};

/// Whether a colon stands at the place.
pub fn begins_colon(tokens: &[Token<'_>], at: usize) -> bool
    ensures { result ≡ spec.begins (Marked Colon) (drop at tokens.now) }
{
    matches!(word(tokens, at), Some(Word::Marked(Mark::Colon)))
}

/// Whether this mark stands at the place.
pub fn begins_mark(tokens: &[Token<'_>], at: usize, mark: Mark) -> bool
    ensures { result ≡ spec.begins (Marked mark) (drop at tokens.now) }
{
    match word(tokens, at) {
        Some(Word::Marked(found)) => found == mark,
        _ => false,
    }
}
