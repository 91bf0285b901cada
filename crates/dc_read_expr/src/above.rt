// `==>`, `? :` and assignments, and the levels in their turn.
ghost use Rattle.std.specs.Prelude.{IfOk, suc, ◌≡◌, ◌<◌, ◌≤◌, ◌+◌, length, drop};
ghost use Rattle.dc_syntax.specs.Trees.{height};
ghost use Rattle.dc_syntax.specs.View.{raw_view};
ghost use Rattle.dc_syntax.specs.Reading as spec;
ghost use Rattle.std.specs.Prelude.{nat_le};
ghost use Rattle.dc_syntax.specs.Tokens.{Marked};
ghost use Rattle.dc_syntax.specs.declared.mark.Mark.TheVariants.{Question};
ghost use Rattle.dc_syntax.specs.Trees.{level_of};
ghost use Rattle.dc_read_expr.specs.View.{kind_view, Reading, ReadingOf, IsReading, Turning, IsNext};
ghost use Rattle.dc_read_expr.specs.Nests.{Nests};
ghost use Rattle.dc_read_expr.specs.Levels as closed;

use crate::read::{Grammar, Kind, Read, Turn, higher, place, word};
use crate::words::is_assignment;
use dc_syntax::{Keyword, Mark, Raw, Token, Typedefs, Word};
use dc_text::Name;
use sqlite_items::Boxed;
use std::alloc::{AllocError, Global};

impl<
    'a,
    'b,
    F: Fn(
        Global,
        &[Token<'_>],
        &Typedefs<'_>,
        u64,
        Kind,
        usize,
    ) -> Result<Option<Read>, AllocError>,
> Grammar<'a, 'b, F> {
    /// `==>` and what it implies, behind an operand.
    #[tactic(auto, unfolding(crate::specs::Levels::implies_one))]
    fn implies_one(&self, at: usize, before: Read) -> Result<Turn, AllocError>
        requires nests { Nests self.now.budget (F.pre self.now.reader) (F.post self.now.reader) }
        requires small { self.now.budget < 1000 }
        requires within { (at < before.at) × (before.at ≤ length self.now.tokens.now) }
        requires high { before.height ≡ height (raw_view before.tree) }
        requires low { before.height ≤ self.now.budget }
        ensures { Turning self.now.tokens.now at (self.now.budget + 1) before result (closed.implies_one (spec.reads self.now.budget) self.now.names.now.names (drop at self.now.tokens.now) (raw_view before.tree) (drop before.at self.now.tokens.now)) }
    {
        let Some(Word::Marked(Mark::Implication)) = word(self.tokens, before.at) else {
            return Ok(Turn::Done(before));
        };
        let Some(right) = self.below(Kind::Upto(14), before.at + 1)? else {
            return Ok(Turn::Done(before));
        };
        Ok(Turn::More(Read {
            tree: Boxed::new(
                self.alloc,
                Raw::Implies(before.tree, right.tree, place(self.tokens, at, right.at)),
            )?,
            height: higher(before.height, right.height) + 1,
            at: right.at,
        }))
    }

    /// An operand of `? :`: one of `==>`, or two with it between them.
    #[tactic(auto, using(crate::proofs::Levels::implied_none))]
    fn implied(&self, at: usize) -> Result<Option<Read>, AllocError>
        requires nests { Nests self.now.budget (F.pre self.now.reader) (F.post self.now.reader) }
        requires small { self.now.budget < 1000 }
        ensures { Reading self.now.tokens.now at (self.now.budget + 1) result (closed.implied (spec.reads self.now.budget) self.now.budget self.now.names.now.names (drop at self.now.tokens.now)) }
    {
        let Some(first) = self.binary(10, at)? else {
            return Ok(None);
        };
        let budget = self.budget;
        let high = first.height;
        if budget < high {
            return Ok(Some(first));
        }
        match self.implies_one(at, first)? {
            Turn::More(more) => Ok(Some(more)),
            Turn::Done(done) => Ok(Some(done)),
        }
    }

    /// What stands behind `a ? b`.
    #[tactic(auto, unfolding(crate::specs::Levels::conditional_one))]
    fn conditional_else(&self, at: usize, before: Read, left: Read) -> Result<Turn, AllocError>
        requires nests { Nests self.now.budget (F.pre self.now.reader) (F.post self.now.reader) }
        requires small { self.now.budget < 1000 }
        requires begins { IsNext self.now.tokens.now before.at (Marked Question) }
        requires within { (at < before.at) × (before.at ≤ length self.now.tokens.now) }
        requires high { before.height ≡ height (raw_view before.tree) }
        requires low { before.height ≤ self.now.budget }
        requires middle { IsReading self.now.tokens.now (before.at + 1) self.now.budget left (spec.reads self.now.budget (spec.Upto 16) self.now.names.now.names (drop (before.at + 1) self.now.tokens.now)) }
        ensures { Turning self.now.tokens.now at (self.now.budget + 1) before result (closed.conditional_one (spec.reads self.now.budget) self.now.names.now.names (drop at self.now.tokens.now) (raw_view before.tree) (drop before.at self.now.tokens.now)) }
    {
        let Some(Word::Marked(Mark::Colon)) = word(self.tokens, left.at) else {
            return Ok(Turn::Done(before));
        };
        let Some(right) = self.below(Kind::Upto(15), left.at + 1)? else {
            return Ok(Turn::Done(before));
        };
        Ok(Turn::More(Read {
            tree: Boxed::new(
                self.alloc,
                Raw::Conditional(
                    before.tree,
                    left.tree,
                    right.tree,
                    place(self.tokens, at, right.at),
                ),
            )?,
            height: higher(before.height, higher(left.height, right.height)) + 1,
            at: right.at,
        }))
    }

    /// `? b : c` behind an operand.
    #[tactic(auto, unfolding(crate::specs::Levels::conditional_one))]
    fn conditional_one(&self, at: usize, before: Read) -> Result<Turn, AllocError>
        requires nests { Nests self.now.budget (F.pre self.now.reader) (F.post self.now.reader) }
        requires small { self.now.budget < 1000 }
        requires within { (at < before.at) × (before.at ≤ length self.now.tokens.now) }
        requires high { before.height ≡ height (raw_view before.tree) }
        requires low { before.height ≤ self.now.budget }
        ensures { Turning self.now.tokens.now at (self.now.budget + 1) before result (closed.conditional_one (spec.reads self.now.budget) self.now.names.now.names (drop at self.now.tokens.now) (raw_view before.tree) (drop before.at self.now.tokens.now)) }
    {
        let Some(Word::Marked(Mark::Question)) = word(self.tokens, before.at) else {
            return Ok(Turn::Done(before));
        };
        let Some(left) = self.below(Kind::Upto(16), before.at + 1)? else {
            return Ok(Turn::Done(before));
        };
        self.conditional_else(at, before, left)
    }

    /// A conditional expression (C11 6.5.15).
    #[tactic(auto, using(crate::proofs::Levels::conditional_none))]
    fn conditional(&self, at: usize) -> Result<Option<Read>, AllocError>
        requires nests { Nests self.now.budget (F.pre self.now.reader) (F.post self.now.reader) }
        requires small { self.now.budget < 1000 }
        ensures { Reading self.now.tokens.now at (self.now.budget + 1) result (closed.conditional (spec.reads self.now.budget) self.now.budget self.now.names.now.names (drop at self.now.tokens.now)) }
    {
        let Some(first) = self.implied(at)? else {
            return Ok(None);
        };
        let budget = self.budget;
        let high = first.height;
        if budget < high {
            return Ok(Some(first));
        }
        match self.conditional_one(at, first)? {
            Turn::More(more) => Ok(Some(more)),
            Turn::Done(done) => Ok(Some(done)),
        }
    }

    /// An assignment operator and its right side, behind a unary expression.
    #[tactic(auto, unfolding(crate::specs::Levels::assign_one))]
    fn assign_one(&self, at: usize, before: Read) -> Result<Turn, AllocError>
        requires nests { Nests self.now.budget (F.pre self.now.reader) (F.post self.now.reader) }
        requires small { self.now.budget < 1000 }
        requires within { (at < before.at) × (before.at ≤ length self.now.tokens.now) }
        requires high { before.height ≡ height (raw_view before.tree) }
        requires low { before.height ≤ self.now.budget }
        ensures { Turning self.now.tokens.now at (self.now.budget + 1) before result (closed.assign_one (spec.reads self.now.budget) self.now.names.now.names (drop at self.now.tokens.now) (raw_view before.tree) (drop before.at self.now.tokens.now)) }
    {
        if !is_unary(before.tree.get()) {
            return Ok(Turn::Done(before));
        }
        let Some(Word::Marked(mark)) = word(self.tokens, before.at) else {
            return Ok(Turn::Done(before));
        };
        if !is_assignment(mark) {
            return Ok(Turn::Done(before));
        }
        let Some(right) = self.below(Kind::Upto(16), before.at + 1)? else {
            return Ok(Turn::Done(before));
        };
        Ok(Turn::More(Read {
            tree: Boxed::new(
                self.alloc,
                Raw::Assign(
                    mark,
                    before.tree,
                    right.tree,
                    place(self.tokens, at, right.at),
                ),
            )?,
            height: higher(before.height, right.height) + 1,
            at: right.at,
        }))
    }

    /// An assignment expression (C11 6.5.16).
    #[tactic(auto, using(crate::proofs::Levels::assign_none))]
    fn assign(&self, at: usize) -> Result<Option<Read>, AllocError>
        requires nests { Nests self.now.budget (F.pre self.now.reader) (F.post self.now.reader) }
        requires small { self.now.budget < 1000 }
        ensures { Reading self.now.tokens.now at (self.now.budget + 1) result (closed.assign (spec.reads self.now.budget) self.now.budget self.now.names.now.names (drop at self.now.tokens.now)) }
    {
        let Some(first) = self.conditional(at)? else {
            return Ok(None);
        };
        let budget = self.budget;
        let high = first.height;
        if budget < high {
            return Ok(Some(first));
        }
        match self.assign_one(at, first)? {
            Turn::More(more) => Ok(Some(more)),
            Turn::Done(done) => Ok(Some(done)),
        }
    }

    /// An expression of at most this level.
    fn upto(&self, level: u64, at: usize) -> Result<Option<Read>, AllocError>
        requires nests { Nests self.now.budget (F.pre self.now.reader) (F.post self.now.reader) }
        requires small { self.now.budget < 1000 }
        ensures { Reading self.now.tokens.now at (self.now.budget + 1) result (closed.upto (spec.reads self.now.budget) self.now.budget self.now.names.now.names level (drop at self.now.tokens.now)) }
    {
        if level == 0 {
            return self.primary(at);
        }
        if level == 1 {
            return self.postfix(at);
        }
        if level == 2 {
            return self.unary(at);
        }
        if level < 14 {
            return self.binary(level - 3, at);
        }
        if level == 14 {
            return self.implied(at);
        }
        if level == 15 {
            return self.conditional(at);
        }
        self.assign(at)
    }

    /// What of this kind begins at the place, by the readers of its parts.
    pub fn step(&self, kind: Kind, at: usize) -> Result<Option<Read>, AllocError>
        requires nests { Nests self.now.budget (F.pre self.now.reader) (F.post self.now.reader) }
        requires small { self.now.budget < 1000 }
        requires within { at ≤ length self.now.tokens.now }
        ensures { ReadingOf kind self.now.tokens.now at (self.now.budget + 1) result (spec.step (spec.reads self.now.budget) self.now.budget (kind_view kind) self.now.names.now.names (drop at self.now.tokens.now)) }
    {
        match kind {
            Kind::Upto(level) => self.upto(level, at),
            Kind::Member => self.member(at),
            Kind::Enumerator => self.enumerator(at),
            Kind::Declarator => self.declarator(at),
        }
    }
}

/// Is it an expression that stands before no operand but as a unary one?
fn is_unary(tree: &Raw) -> bool
    ensures { result ≡ nat_le (level_of (raw_view tree.now)) 2 }
{
    matches!(
        tree,
        Raw::Name(..)
            | Raw::Constant(..)
            | Raw::Paren(..)
            | Raw::Quantifier(..)
            | Raw::Index(..)
            | Raw::Call(..)
            | Raw::Member(..)
            | Raw::Through(..)
            | Raw::After(..)
            | Raw::Before(..)
            | Raw::Prefix(..)
            | Raw::SizeofExpression(..)
            | Raw::SizeofType(..)
    )
}
