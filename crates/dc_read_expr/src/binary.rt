// The binary operators.
ghost use Rattle.std.specs.Prelude.{IfOk, suc, ◌≡◌, ◌<◌, ◌≤◌, ◌+◌, length, drop};
ghost use Rattle.dc_syntax.specs.Trees.{height};
ghost use Rattle.dc_syntax.specs.View.{raw_view};
ghost use Rattle.dc_syntax.specs.Reading as spec;
ghost use Rattle.dc_read_expr.specs.View.{Reading, IsReading, Turning, IsNext};
ghost use Rattle.dc_read_expr.specs.Nests.{Nests};
ghost use Rattle.dc_read_expr.specs.Levels as closed;

use crate::read::{Grammar, Kind, Read, Turn, higher, place, word};
use crate::words::infix_level;
use dc_syntax::{Keyword, Mark, Raw, Token, Typedefs, Word};
use dc_text::Name;
use sqlite_items::Boxed;
use std::alloc::{AllocError, Global};

impl<
    'a,
    'b,
    F: Fn(
        Global,
        &[Token<'_>],
        &Typedefs<'_>,
        u64,
        Kind,
        usize,
    ) -> Result<Option<Read>, AllocError>,
> Grammar<'a, 'b, F> {
    /// A binary operator of this level and its right operand, behind the left one.
    fn binary_one(&self, level: u64, at: usize, before: Read) -> Result<Turn, AllocError>
        requires nests { Nests self.now.budget (F.pre self.now.reader) (F.post self.now.reader) }
        requires small { self.now.budget < 1000 }
        requires level { level < 10 }
        requires within { (at < before.at) × (before.at ≤ length self.now.tokens.now) }
        requires high { before.height ≡ height (raw_view before.tree) }
        requires low { before.height ≤ self.now.budget }
        ensures { Turning self.now.tokens.now at (self.now.budget + 1) before result (spec.binary_one (spec.reads self.now.budget) self.now.names.now.names level (drop at self.now.tokens.now) (raw_view before.tree) (drop before.at self.now.tokens.now)) }
    {
        let Some(Word::Marked(mark)) = word(self.tokens, before.at) else {
            return Ok(Turn::Done(before));
        };
        if infix_level(mark) != level + 1 {
            return Ok(Turn::Done(before));
        }
        let Some(right) = self.below(Kind::Upto(3 + level), before.at + 1)? else {
            return Ok(Turn::Done(before));
        };
        Ok(Turn::More(Read {
            tree: Boxed::new(
                self.alloc,
                Raw::Binary(
                    mark,
                    before.tree,
                    right.tree,
                    place(self.tokens, at, right.at),
                ),
            )?,
            height: higher(before.height, right.height) + 1,
            at: right.at,
        }))
    }

    /// All binary operators of this level behind the first operand, from the left.
    fn binaries(&self, level: u64, at: usize, first: Read) -> Result<Read, AllocError>
        requires nests { Nests self.now.budget (F.pre self.now.reader) (F.post self.now.reader) }
        requires small { self.now.budget < 1000 }
        requires level { level < 10 }
        requires within { (at < first.at) × (first.at ≤ length self.now.tokens.now) }
        requires high { first.height ≡ height (raw_view first.tree) }
        requires low { first.height ≤ self.now.budget + 1 }
        ensures { IfOk result (λ r. IsReading self.now.tokens.now at (self.now.budget + 1) r (closed.binary_turns (spec.reads self.now.budget) self.now.budget self.now.names.now.names level (drop at self.now.tokens.now) (raw_view first.tree) (drop first.at self.now.tokens.now))) }
    {
        let mut read = first;
        while read.height <= self.budget {
            match self.binary_one(level, at, read)? {
                Turn::More(more) => read = more,
                Turn::Done(done) => return Ok(done),
            }
        }
        Ok(read)
    }

    /// The binary operators of the first levels.
    #[tactic(auto, using(crate::proofs::Levels::binary_nothing))]
    pub fn binary(&self, levels: u64, at: usize) -> Result<Option<Read>, AllocError>
        requires nests { Nests self.now.budget (F.pre self.now.reader) (F.post self.now.reader) }
        requires small { self.now.budget < 1000 }
        requires levels { levels ≤ 10 }
        ensures { Reading self.now.tokens.now at (self.now.budget + 1) result (closed.binary (spec.reads self.now.budget) self.now.budget self.now.names.now.names levels (drop at self.now.tokens.now)) }
    {
        let Some(mut read) = self.cast(at)? else {
            return Ok(None);
        };
        for level in 0..levels {
            let next = self.binaries(level, at, read)?;
            read = next;
        }
        Ok(Some(read))
    }
}
