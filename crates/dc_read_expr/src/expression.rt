// The longest expression at a place.
ghost use Rattle.std.specs.Prelude.{◌≡◌, ◌<◌, ◌≤◌, IfErr, IfOk, List, length, drop};
ghost use Rattle.dc_syntax.specs.Tokens as grammar;
ghost use Rattle.dc_syntax.specs.Trees.{Tree};
ghost use Rattle.dc_syntax.specs.View.{raw_view};
ghost use Rattle.dc_read_expr.specs.Expressions.{BeginsWith};
ghost use Rattle.dc_read_expr.specs.declared.fault.Syntax.TheVariants.{NoReading};

use crate::fault::Syntax;
use crate::read::Kind;
use crate::reader::read_at;
use dc_syntax::{Raw, Token, Typedefs};
use std::alloc::Global;

const GREATEST_HEIGHT: u64 = 128;

/// The longest expression (C11 6.5) of height at most 128 that begins at this place, counted from 0, with these names in
/// force, and the place behind it.
///
/// The error is `NoReading` exactly where there is none, as behind the last token, if memory doesn't run out first.
/// It is `Memory` where there is no memory for the tree or for what is in force, and nothing of the tree is left then.
pub fn read_expr(
    alloc: Global,
    tokens: &[Token<'_>],
    at: usize,
    names: &Typedefs<'_>,
) -> Result<(Raw, usize), Syntax>
    ensures read { IfOk result (λ r. BeginsWith names.now.names (drop at tokens.now) (raw_view r.0) (drop r.1 tokens.now)) }
    ensures longest { IfOk result (λ r. (tree : Tree) (rest : List grammar.Token) → BeginsWith names.now.names (drop at tokens.now) tree rest → length (drop r.1 tokens.now) ≤ length rest) }
    ensures place { IfOk result (λ r. (at < r.1) × (r.1 ≤ length tokens.now)) }
    ensures none { IfErr result (λ e. e ≡ NoReading → (tree : Tree) (rest : List grammar.Token) → BeginsWith names.now.names (drop at tokens.now) tree rest → ⊥) }
{
    if at > tokens.len() {
        return Err(Syntax::NoReading);
    }
    match read_at(alloc, tokens, names, GREATEST_HEIGHT, Kind::Upto(16), at)? {
        None => Err(Syntax::NoReading),
        Some(read) => Ok((read.tree.into_inner(), read.at)),
    }
}
