// What stands before an operand: operators, `sizeof` and casts.
ghost use Rattle.std.specs.Prelude.{IfOk, suc, ◌≡◌, ◌<◌, ◌≤◌, ◌+◌, length, drop};
ghost use Rattle.dc_syntax.specs.Trees.{height};
ghost use Rattle.dc_syntax.specs.View.{raw_view};
ghost use Rattle.dc_syntax.specs.Reading as spec;
ghost use Rattle.std.specs.Prelude.{true, false};
ghost use Rattle.dc_syntax.specs.Tokens.{Marked, is_step, is_prefix, sizeof_word};
ghost use Rattle.dc_read_expr.specs.View.{Reading, IsReading, Turning, IsNext};
ghost use Rattle.dc_read_expr.specs.Nests.{Nests};

use crate::lists::behind;
use crate::read::{Grammar, Kind, Read, higher, place, word};
use crate::types::begins_specs;
use crate::words::{is_prefix, is_step};
use dc_syntax::{Keyword, Mark, Raw, Token, Typedefs, Word};
use dc_text::Name;
use sqlite_items::Boxed;
use std::alloc::{AllocError, Global};

impl<
    'a,
    'b,
    F: Fn(
        Global,
        &[Token<'_>],
        &Typedefs<'_>,
        u64,
        Kind,
        usize,
    ) -> Result<Option<Read>, AllocError>,
> Grammar<'a, 'b, F> {
    /// `++` or `--` before an operand.
    fn before(&self, at: usize, mark: Mark) -> Result<Option<Read>, AllocError>
        requires nests { Nests self.now.budget (F.pre self.now.reader) (F.post self.now.reader) }
        requires small { self.now.budget < 1000 }
        requires begins { IsNext self.now.tokens.now at (Marked mark) }
        requires step { is_step mark ≡ true }
        ensures { Reading self.now.tokens.now at (self.now.budget + 1) result (spec.unary (spec.reads self.now.budget) self.now.budget self.now.names.now.names (drop at self.now.tokens.now)) }
    {
        let Some(operand) = self.below(Kind::Upto(2), at + 1)? else {
            return Ok(None);
        };
        Ok(Some(Read {
            tree: Boxed::new(
                self.alloc,
                Raw::Before(mark, operand.tree, place(self.tokens, at, operand.at)),
            )?,
            height: operand.height + 1,
            at: operand.at,
        }))
    }

    /// One of `&`, `*`, `+`, `-`, `~` and `!` before an operand.
    fn prefix(&self, at: usize, mark: Mark) -> Result<Option<Read>, AllocError>
        requires nests { Nests self.now.budget (F.pre self.now.reader) (F.post self.now.reader) }
        requires small { self.now.budget < 1000 }
        requires begins { IsNext self.now.tokens.now at (Marked mark) }
        requires step { is_step mark ≡ false }
        requires prefix { is_prefix mark ≡ true }
        ensures { Reading self.now.tokens.now at (self.now.budget + 1) result (spec.unary (spec.reads self.now.budget) self.now.budget self.now.names.now.names (drop at self.now.tokens.now)) }
    {
        let Some(operand) = self.below(Kind::Upto(3), at + 1)? else {
            return Ok(None);
        };
        Ok(Some(Read {
            tree: Boxed::new(
                self.alloc,
                Raw::Prefix(mark, operand.tree, place(self.tokens, at, operand.at)),
            )?,
            height: operand.height + 1,
            at: operand.at,
        }))
    }

    /// Does a parenthesis stand at the place, and a spec behind it?
    fn begins_cast(&self, at: usize) -> bool
        ensures { result ≡ spec.begins_cast self.now.names.now.names (drop at self.now.tokens.now) }
    {
        let Some(Word::Marked(Mark::LeftParen)) = word(self.tokens, at) else {
            return false;
        };
        begins_specs(self.tokens, self.names, at + 1)
    }

    /// Does the type of a cast begin behind the place?
    fn begins_cast_behind(&self, at: usize) -> bool
        requires within { at < length self.now.tokens.now }
        ensures { result ≡ spec.begins_cast self.now.names.now.names (drop (at + 1) self.now.tokens.now) }
    {
        let next = behind(self.tokens, at);
        self.begins_cast(next)
    }

    /// `sizeof ( T )`
    fn sizeof_type(&self, at: usize) -> Result<Option<Read>, AllocError>
        requires nests { Nests self.now.budget (F.pre self.now.reader) (F.post self.now.reader) }
        requires small { self.now.budget < 1000 }
        requires begins { IsNext self.now.tokens.now at sizeof_word }
        requires cast { spec.begins_cast self.now.names.now.names (drop (at + 1) self.now.tokens.now) ≡ true }
        ensures { Reading self.now.tokens.now at (self.now.budget + 1) result (spec.sizeof_at (spec.reads self.now.budget) self.now.budget self.now.names.now.names (drop at self.now.tokens.now) (drop (at + 1) self.now.tokens.now)) }
    {
        let open = at + 1;
        let Some(Word::Marked(Mark::LeftParen)) = word(self.tokens, open) else {
            return Ok(None);
        };
        let Some(named) = self.type_name(open + 1)? else {
            return Ok(None);
        };
        let Some(Word::Marked(Mark::RightParen)) = word(self.tokens, named.at) else {
            return Ok(None);
        };
        let end = named.at + 1;
        Ok(Some(Read {
            tree: Boxed::new(
                self.alloc,
                Raw::SizeofType(named.tree, place(self.tokens, at, end)),
            )?,
            height: named.height + 1,
            at: end,
        }))
    }

    /// `sizeof a`
    fn sizeof_expression(&self, at: usize) -> Result<Option<Read>, AllocError>
        requires nests { Nests self.now.budget (F.pre self.now.reader) (F.post self.now.reader) }
        requires small { self.now.budget < 1000 }
        requires begins { IsNext self.now.tokens.now at sizeof_word }
        requires cast { spec.begins_cast self.now.names.now.names (drop (at + 1) self.now.tokens.now) ≡ false }
        ensures { Reading self.now.tokens.now at (self.now.budget + 1) result (spec.sizeof_at (spec.reads self.now.budget) self.now.budget self.now.names.now.names (drop at self.now.tokens.now) (drop (at + 1) self.now.tokens.now)) }
    {
        let Some(operand) = self.below(Kind::Upto(2), at + 1)? else {
            return Ok(None);
        };
        Ok(Some(Read {
            tree: Boxed::new(
                self.alloc,
                Raw::SizeofExpression(operand.tree, place(self.tokens, at, operand.at)),
            )?,
            height: operand.height + 1,
            at: operand.at,
        }))
    }

    /// `sizeof` before a type or an operand.
    fn sizeof(&self, at: usize) -> Result<Option<Read>, AllocError>
        requires nests { Nests self.now.budget (F.pre self.now.reader) (F.post self.now.reader) }
        requires small { self.now.budget < 1000 }
        requires begins { IsNext self.now.tokens.now at sizeof_word }
        ensures { Reading self.now.tokens.now at (self.now.budget + 1) result (spec.unary (spec.reads self.now.budget) self.now.budget self.now.names.now.names (drop at self.now.tokens.now)) }
    {
        if self.begins_cast_behind(at) {
            self.sizeof_type(at)
        } else {
            self.sizeof_expression(at)
        }
    }

    /// A unary expression (C11 6.5.3).
    pub fn unary(&self, at: usize) -> Result<Option<Read>, AllocError>
        requires nests { Nests self.now.budget (F.pre self.now.reader) (F.post self.now.reader) }
        requires small { self.now.budget < 1000 }
        ensures { Reading self.now.tokens.now at (self.now.budget + 1) result (spec.unary (spec.reads self.now.budget) self.now.budget self.now.names.now.names (drop at self.now.tokens.now)) }
    {
        match word(self.tokens, at) {
            None => Ok(None),
            Some(Word::Marked(mark)) if is_step(mark) => self.before(at, mark),
            Some(Word::Marked(mark)) if is_prefix(mark) => self.prefix(at, mark),
            Some(Word::Reserved(Keyword::Sizeof)) => self.sizeof(at),
            Some(_) => self.postfix(at),
        }
    }

    /// A cast, from its parenthesis on.
    fn cast_at(&self, at: usize) -> Result<Option<Read>, AllocError>
        requires nests { Nests self.now.budget (F.pre self.now.reader) (F.post self.now.reader) }
        requires small { self.now.budget < 1000 }
        ensures { Reading self.now.tokens.now at (self.now.budget + 1) result (spec.cast_at (spec.reads self.now.budget) self.now.budget self.now.names.now.names (drop at self.now.tokens.now)) }
    {
        let Some(Word::Marked(Mark::LeftParen)) = word(self.tokens, at) else {
            return Ok(None);
        };
        let Some(named) = self.type_name(at + 1)? else {
            return Ok(None);
        };
        let Some(Word::Marked(Mark::RightParen)) = word(self.tokens, named.at) else {
            return Ok(None);
        };
        let Some(operand) = self.below(Kind::Upto(3), named.at + 1)? else {
            return Ok(None);
        };
        Ok(Some(Read {
            tree: Boxed::new(
                self.alloc,
                Raw::Cast(named.tree, operand.tree, place(self.tokens, at, operand.at)),
            )?,
            height: higher(named.height, operand.height) + 1,
            at: operand.at,
        }))
    }

    /// A cast expression (C11 6.5.4).
    pub fn cast(&self, at: usize) -> Result<Option<Read>, AllocError>
        requires nests { Nests self.now.budget (F.pre self.now.reader) (F.post self.now.reader) }
        requires small { self.now.budget < 1000 }
        ensures { Reading self.now.tokens.now at (self.now.budget + 1) result (spec.cast (spec.reads self.now.budget) self.now.budget self.now.names.now.names (drop at self.now.tokens.now)) }
    {
        if self.begins_cast(at) {
            self.cast_at(at)
        } else {
            self.unary(at)
        }
    }
}
