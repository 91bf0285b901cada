// What stands behind an operand: an index, arguments, a member, `++` and `--`.
ghost use Rattle.std.specs.Prelude.{IfOk, suc, ◌≡◌, ◌<◌, ◌≤◌, ◌+◌, length, drop};
ghost use Rattle.dc_syntax.specs.Trees.{height};
ghost use Rattle.dc_syntax.specs.View.{raw_view};
ghost use Rattle.dc_syntax.specs.Reading as spec;
ghost use Rattle.std.specs.Prelude.{true};
ghost use Rattle.dc_syntax.specs.Tokens.{Marked, is_step};
ghost use Rattle.dc_syntax.specs.declared.mark.Mark.TheVariants.{LeftBracket, LeftParen, Dot, Arrow};
ghost use Rattle.dc_read_expr.specs.View.{Reading, IsReading, Turning, IsNext};
ghost use Rattle.dc_read_expr.specs.Nests.{Nests};
ghost use Rattle.dc_read_expr.specs.Levels as closed;

use crate::read::{Grammar, Kind, Read, Turn, higher, place, word};
use dc_syntax::{Keyword, Mark, Raw, Token, Typedefs, Word};
use dc_text::Name;
use sqlite_items::Boxed;
use std::alloc::{AllocError, Global};

impl<
    'a,
    'b,
    F: Fn(
        Global,
        &[Token<'_>],
        &Typedefs<'_>,
        u64,
        Kind,
        usize,
    ) -> Result<Option<Read>, AllocError>,
> Grammar<'a, 'b, F> {
    /// `[ i ]` behind an operand.
    fn index_behind(&self, at: usize, before: Read) -> Result<Turn, AllocError>
        requires nests { Nests self.now.budget (F.pre self.now.reader) (F.post self.now.reader) }
        requires small { self.now.budget < 1000 }
        requires begins { IsNext self.now.tokens.now before.at (Marked LeftBracket) }
        requires within { (at < before.at) × (before.at ≤ length self.now.tokens.now) }
        requires high { before.height ≡ height (raw_view before.tree) }
        requires low { before.height ≤ self.now.budget }
        ensures { Turning self.now.tokens.now at (self.now.budget + 1) before result (spec.postfix_one (spec.reads self.now.budget) self.now.names.now.names (drop at self.now.tokens.now) (raw_view before.tree) (drop before.at self.now.tokens.now)) }
    {
        let Some(index) = self.below(Kind::Upto(16), before.at + 1)? else {
            return Ok(Turn::Done(before));
        };
        let Some(Word::Marked(Mark::RightBracket)) = word(self.tokens, index.at) else {
            return Ok(Turn::Done(before));
        };
        let end = index.at + 1;
        Ok(Turn::More(Read {
            tree: Boxed::new(
                self.alloc,
                Raw::Index(before.tree, index.tree, place(self.tokens, at, end)),
            )?,
            height: higher(before.height, index.height) + 1,
            at: end,
        }))
    }

    /// `( a , b )` behind an operand.
    fn call_behind(&self, at: usize, before: Read) -> Result<Turn, AllocError>
        requires nests { Nests self.now.budget (F.pre self.now.reader) (F.post self.now.reader) }
        requires small { self.now.budget < 1000 }
        requires begins { IsNext self.now.tokens.now before.at (Marked LeftParen) }
        requires within { (at < before.at) × (before.at ≤ length self.now.tokens.now) }
        requires high { before.height ≡ height (raw_view before.tree) }
        requires low { before.height ≤ self.now.budget }
        ensures { Turning self.now.tokens.now at (self.now.budget + 1) before result (spec.postfix_one (spec.reads self.now.budget) self.now.names.now.names (drop at self.now.tokens.now) (raw_view before.tree) (drop before.at self.now.tokens.now)) }
    {
        let Some(arguments) = self.arguments(before.at + 1)? else {
            return Ok(Turn::Done(before));
        };
        let Some(Word::Marked(Mark::RightParen)) = word(self.tokens, arguments.at) else {
            return Ok(Turn::Done(before));
        };
        let end = arguments.at + 1;
        Ok(Turn::More(Read {
            tree: Boxed::new(
                self.alloc,
                Raw::Call(before.tree, arguments.items, place(self.tokens, at, end)),
            )?,
            height: higher(before.height, arguments.height) + 1,
            at: end,
        }))
    }

    /// `. n` behind an operand.
    fn member_behind(&self, at: usize, before: Read) -> Result<Turn, AllocError>
        requires small { self.now.budget < 1000 }
        requires begins { IsNext self.now.tokens.now before.at (Marked Dot) }
        requires within { (at < before.at) × (before.at ≤ length self.now.tokens.now) }
        requires high { before.height ≡ height (raw_view before.tree) }
        requires low { before.height ≤ self.now.budget }
        ensures { Turning self.now.tokens.now at (self.now.budget + 1) before result (spec.postfix_one (spec.reads self.now.budget) self.now.names.now.names (drop at self.now.tokens.now) (raw_view before.tree) (drop before.at self.now.tokens.now)) }
    {
        let Some(Word::Named(name)) = word(self.tokens, before.at + 1) else {
            return Ok(Turn::Done(before));
        };
        let end = before.at + 1 + 1;
        Ok(Turn::More(Read {
            tree: Boxed::new(
                self.alloc,
                Raw::Member(
                    before.tree,
                    Name::copied(self.alloc, name)?,
                    place(self.tokens, at, end),
                ),
            )?,
            height: before.height + 1,
            at: end,
        }))
    }

    /// `-> n` behind an operand.
    fn through_behind(&self, at: usize, before: Read) -> Result<Turn, AllocError>
        requires small { self.now.budget < 1000 }
        requires begins { IsNext self.now.tokens.now before.at (Marked Arrow) }
        requires within { (at < before.at) × (before.at ≤ length self.now.tokens.now) }
        requires high { before.height ≡ height (raw_view before.tree) }
        requires low { before.height ≤ self.now.budget }
        ensures { Turning self.now.tokens.now at (self.now.budget + 1) before result (spec.postfix_one (spec.reads self.now.budget) self.now.names.now.names (drop at self.now.tokens.now) (raw_view before.tree) (drop before.at self.now.tokens.now)) }
    {
        let Some(Word::Named(name)) = word(self.tokens, before.at + 1) else {
            return Ok(Turn::Done(before));
        };
        let end = before.at + 1 + 1;
        Ok(Turn::More(Read {
            tree: Boxed::new(
                self.alloc,
                Raw::Through(
                    before.tree,
                    Name::copied(self.alloc, name)?,
                    place(self.tokens, at, end),
                ),
            )?,
            height: before.height + 1,
            at: end,
        }))
    }

    /// `++` or `--` behind an operand.
    fn step_behind(&self, at: usize, before: Read, mark: Mark) -> Result<Turn, AllocError>
        requires small { self.now.budget < 1000 }
        requires begins { IsNext self.now.tokens.now before.at (Marked mark) }
        requires step { is_step mark ≡ true }
        requires within { (at < before.at) × (before.at ≤ length self.now.tokens.now) }
        requires high { before.height ≡ height (raw_view before.tree) }
        requires low { before.height ≤ self.now.budget }
        ensures { Turning self.now.tokens.now at (self.now.budget + 1) before result (spec.postfix_one (spec.reads self.now.budget) self.now.names.now.names (drop at self.now.tokens.now) (raw_view before.tree) (drop before.at self.now.tokens.now)) }
    {
        let end = before.at + 1;
        Ok(Turn::More(Read {
            tree: Boxed::new(
                self.alloc,
                Raw::After(mark, before.tree, place(self.tokens, at, end)),
            )?,
            height: before.height + 1,
            at: end,
        }))
    }

    /// One postfix operator behind an operand.
    fn postfix_one(&self, at: usize, before: Read) -> Result<Turn, AllocError>
        requires nests { Nests self.now.budget (F.pre self.now.reader) (F.post self.now.reader) }
        requires small { self.now.budget < 1000 }
        requires within { (at < before.at) × (before.at ≤ length self.now.tokens.now) }
        requires high { before.height ≡ height (raw_view before.tree) }
        requires low { before.height ≤ self.now.budget }
        ensures { Turning self.now.tokens.now at (self.now.budget + 1) before result (spec.postfix_one (spec.reads self.now.budget) self.now.names.now.names (drop at self.now.tokens.now) (raw_view before.tree) (drop before.at self.now.tokens.now)) }
    {
        match word(self.tokens, before.at) {
            Some(Word::Marked(Mark::LeftBracket)) => self.index_behind(at, before),
            Some(Word::Marked(Mark::LeftParen)) => self.call_behind(at, before),
            Some(Word::Marked(Mark::Dot)) => self.member_behind(at, before),
            Some(Word::Marked(Mark::Arrow)) => self.through_behind(at, before),
            Some(Word::Marked(Mark::Increment)) => self.step_behind(at, before, Mark::Increment),
            Some(Word::Marked(Mark::Decrement)) => self.step_behind(at, before, Mark::Decrement),
            _ => Ok(Turn::Done(before)),
        }
    }

    /// All postfix operators behind the first operand, from the left.
    fn postfixes(&self, at: usize, first: Read) -> Result<Read, AllocError>
        requires nests { Nests self.now.budget (F.pre self.now.reader) (F.post self.now.reader) }
        requires small { self.now.budget < 1000 }
        requires within { (at < first.at) × (first.at ≤ length self.now.tokens.now) }
        requires high { first.height ≡ height (raw_view first.tree) }
        requires low { first.height ≤ self.now.budget + 1 }
        ensures { IfOk result (λ r. IsReading self.now.tokens.now at (self.now.budget + 1) r (closed.postfix_turns (spec.reads self.now.budget) self.now.budget self.now.names.now.names (drop at self.now.tokens.now) (raw_view first.tree) (drop first.at self.now.tokens.now))) }
    {
        let mut read = first;
        while read.height <= self.budget {
            match self.postfix_one(at, read)? {
                Turn::More(more) => read = more,
                Turn::Done(done) => return Ok(done),
            }
        }
        Ok(read)
    }

    /// A postfix expression (C11 6.5.2).
    #[tactic(auto, using(crate::proofs::Levels::postfix_found))]
    pub fn postfix(&self, at: usize) -> Result<Option<Read>, AllocError>
        requires nests { Nests self.now.budget (F.pre self.now.reader) (F.post self.now.reader) }
        requires small { self.now.budget < 1000 }
        ensures { Reading self.now.tokens.now at (self.now.budget + 1) result (spec.postfix (spec.reads self.now.budget) self.now.budget self.now.names.now.names (drop at self.now.tokens.now)) }
    {
        let Some(first) = self.primary(at)? else {
            return Ok(None);
        };
        Ok(Some(self.postfixes(at, first)?))
    }
}
