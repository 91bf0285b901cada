// Initializers (C11 6.7.9).
ghost use Rattle.std.specs.Prelude.{◌≡◌, ◌<◌, ◌≤◌, ◌+◌, length, drop};
ghost use Rattle.dc_syntax.specs.Parts.{height_of};
ghost use Rattle.dc_syntax.specs.Reading as spec;
ghost use Rattle.dc_syntax.specs.ReadingUnits as units;
ghost use Rattle.dc_syntax.specs.UnitView.{part_view, inits_part};
ghost use Rattle.dc_read_unit.specs.InitParts.{braces_behind};
ghost use Rattle.dc_read_unit.specs.PartNests.{PartNests};
ghost use Rattle.dc_read_unit.specs.PartTaking.{TakingPart};
ghost use Rattle.dc_read_unit.specs.PartView.{Parting, PartsListing};

use crate::read::{ReadPart, ReadParts, push_part};
use dc_read_expr::{behind, has_more, higher, list_end, opens_body, place, read_upto, word};
use dc_syntax::{Mark, Part, Token, Typedefs, Word};
use sqlite_items::{Boxed, Items};
use std::alloc::{AllocError, Global};

/// The readers of initializers whose parts are at most so high.
#[derive(Clone, Copy)]
pub struct Initializers<'a, 'b, F> {
    pub alloc: Global,
    pub tokens: &'a [Token<'b>],
    /// The greatest height of a part.
    pub budget: u64,
    pub reader: F,
}

impl<
    'a,
    'b,
    F: Fn(Global, &[Token<'_>], &Typedefs<'_>, u64, usize) -> Result<Option<ReadPart>, AllocError>,
> Initializers<'a, 'b, F> {
    /// An initializer: one in braces, or an expression.
    fn init(&self, names: &Typedefs<'_>, at: usize) -> Result<Option<ReadPart>, AllocError>
        requires nests { PartNests units.BracesOf self.now.budget (F.pre self.now.reader) (F.post self.now.reader) }
        requires within { at ≤ length self.now.tokens.now }
        requires small { self.now.budget < 1000 }
        ensures { Parting self.now.tokens.now at self.now.budget result (units.init (spec.reads self.now.budget) (units.reads_part self.now.budget) names.now.names (drop at self.now.tokens.now)) }
    {
        if opens_body(self.tokens, at) {
            return (self.reader)(self.alloc, self.tokens, names, self.budget, at);
        }
        let Some(read) = read_upto(self.alloc, self.tokens, names, self.budget, 16, at)? else {
            return Ok(None);
        };
        let end = read.at;
        let height = read.height;
        Ok(Some(ReadPart {
            part: Boxed::new(self.alloc, Part::Single(read.tree))?,
            height,
            at: end,
        }))
    }

    /// The initializers behind the first, each behind a comma.
    fn inits(&self, names: &Typedefs<'_>, at: usize) -> Result<Option<ReadParts>, AllocError>
        requires nests { PartNests units.BracesOf self.now.budget (F.pre self.now.reader) (F.post self.now.reader) }
        requires within { at ≤ length self.now.tokens.now }
        requires small { self.now.budget < 1000 }
        ensures { PartsListing self.now.tokens.now at self.now.budget inits_part result (units.inits (spec.reads self.now.budget) (units.reads_part self.now.budget) names.now.names (length (drop at self.now.tokens.now)) (drop at self.now.tokens.now)) }
    {
        let mut list = ReadParts {
            parts: Items::new(self.alloc),
            height: 0,
            at,
        };
        while has_more(self.tokens, list.at) {
            if !self.take_init(names, &mut list)? {
                return Ok(None);
            }
        }
        Ok(Some(list))
    }

    /// One more initializer, behind a comma. Is there one?
    fn take_init(&self, names: &Typedefs<'_>, list: &mut ReadParts) -> Result<bool, AllocError>
        requires nests { PartNests units.BracesOf self.now.budget (F.pre self.now.reader) (F.post self.now.reader) }
        requires within { list.old.at < length self.now.tokens.now }
        requires small { self.now.budget < 1000 }
        ensures { TakingPart self.now.tokens.now (list.old.at + 1) self.now.budget list.old list.new result (units.init (spec.reads self.now.budget) (units.reads_part self.now.budget) names.now.names (drop (list.old.at + 1) self.now.tokens.now)) }
    {
        let Some(init) = self.init(names, behind(self.tokens, list.at))? else {
            return Ok(false);
        };
        push_part(init, list)?;
        Ok(true)
    }

    /// Initializers in braces, with at least one.
    fn braces(&self, names: &Typedefs<'_>, at: usize) -> Result<Option<ReadPart>, AllocError>
        requires nests { PartNests units.BracesOf self.now.budget (F.pre self.now.reader) (F.post self.now.reader) }
        requires small { self.now.budget < 1000 }
        ensures { Parting self.now.tokens.now at (self.now.budget + 1) result (units.braces (spec.reads self.now.budget) (units.reads_part self.now.budget) names.now.names (drop at self.now.tokens.now)) }
    {
        let Some(Word::Marked(Mark::LeftBrace)) = word(self.tokens, at) else {
            return Ok(None);
        };
        let Some(first) = self.init(names, at + 1)? else {
            return Ok(None);
        };
        self.braces_more(names, at, first)
    }

    /// The initializers behind the first, and the closing brace.
    fn braces_more(
        &self,
        names: &Typedefs<'_>,
        at: usize,
        first: ReadPart,
    ) -> Result<Option<ReadPart>, AllocError>
        requires nests { PartNests units.BracesOf self.now.budget (F.pre self.now.reader) (F.post self.now.reader) }
        requires small { self.now.budget < 1000 }
        requires order { (at < first.at) × (first.at ≤ length self.now.tokens.now) }
        requires high { first.height ≡ height_of (part_view first.part) }
        requires low { first.height ≤ self.now.budget }
        ensures { Parting self.now.tokens.now at (self.now.budget + 1) result (braces_behind (spec.reads self.now.budget) (units.reads_part self.now.budget) names.now.names (drop at self.now.tokens.now) (part_view first.part) (drop first.at self.now.tokens.now)) }
    {
        let Some(more) = self.inits(names, first.at)? else {
            return Ok(None);
        };
        let Some(end) = list_end(self.tokens, more.at) else {
            return Ok(None);
        };
        let place = place(self.tokens, at, end);
        let height = higher(first.height, more.height) + 1;
        Ok(Some(ReadPart {
            part: Boxed::new(self.alloc, Part::Braces(first.part, more.parts, place))?,
            height,
            at: end,
        }))
    }
}

/// Initializers in braces, of at most this height.
fn read_braces(
    alloc: Global,
    tokens: &[Token<'_>],
    names: &Typedefs<'_>,
    height: u64,
    at: usize,
) -> Result<Option<ReadPart>, AllocError>
    requires within { at ≤ length tokens.now }
    requires small { height < 1000 }
    ensures { Parting tokens.now at height result (units.reads_part height units.BracesOf names.now.names (drop at tokens.now)) }
{
    if height == 0 {
        return Ok(None);
    }
    Initializers {
        alloc,
        tokens: &*tokens,
        budget: height - 1,
        reader: read_braces,
    }
    .braces(names, at)
}

/// An initializer of at most this height.
pub fn read_init(
    alloc: Global,
    tokens: &[Token<'_>],
    names: &Typedefs<'_>,
    height: u64,
    at: usize,
) -> Result<Option<ReadPart>, AllocError>
    requires within { at ≤ length tokens.now }
    requires small { height < 1000 }
    ensures { Parting tokens.now at height result (units.init (spec.reads height) (units.reads_part height) names.now.names (drop at tokens.now)) }
{
    Initializers {
        alloc,
        tokens: &*tokens,
        budget: height,
        reader: read_braces,
    }
    .init(names, at)
}
