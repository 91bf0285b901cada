// The recursion, whose depth is bounded by the height that is left.
ghost use Rattle.std.specs.Prelude.{◌<◌, ◌≤◌, length, drop};
ghost use Rattle.dc_syntax.specs.Reading as spec;
ghost use Rattle.dc_read_expr.specs.View.{ReadingOf, kind_view};

use crate::read::{Grammar, Kind, Read};
use dc_syntax::{Token, Typedefs};
use std::alloc::{AllocError, Global};

/// What of this kind begins at the place, of at most this height: the longest.
pub fn read_at(
    alloc: Global,
    tokens: &[Token<'_>],
    names: &Typedefs<'_>,
    height: u64,
    kind: Kind,
    at: usize,
) -> Result<Option<Read>, AllocError>
    requires within { at ≤ length tokens.now }
    requires small { height < 1000 }
    ensures { ReadingOf kind tokens.now at height result (spec.reads height (kind_view kind) names.now.names (drop at tokens.now)) }
{
    if height == 0 {
        return Ok(None);
    }
    Grammar {
        alloc,
        tokens: &*tokens,
        names: &*names,
        budget: height - 1,
        reader: read_at,
    }
    .step(kind, at)
}
