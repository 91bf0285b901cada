// Names, literals and parentheses.
ghost use Rattle.std.specs.Prelude.{IfOk, suc, ◌≡◌, ◌<◌, ◌≤◌, ◌+◌, length, drop, map};
ghost use Rattle.std.specs.Prelude.{false};
ghost use Rattle.dc_syntax.specs.Trees.{height, naming};
ghost use Rattle.dc_syntax.specs.Trees as trees;
ghost use Rattle.dc_syntax.specs.View.{raw_view, specs_tree};
ghost use Rattle.dc_syntax.specs.Reading as spec;
ghost use Rattle.dc_syntax.specs.Tokens.{Marked, Reserved};
ghost use Rattle.dc_syntax.specs.declared.mark.Mark.TheVariants.{LeftParen};
ghost use Rattle.dc_read_expr.specs.View.{Reading, IsReading, Turning, IsNext};
ghost use Rattle.dc_read_expr.specs.Quantified.{condition_behind, quantifier_behind};
ghost use Rattle.dc_read_expr.specs.Nests.{Nests};

use crate::read::{Grammar, Kind, Read, higher, place, word};
use crate::types::ReadSpecs;
use crate::words::is_quantifier;
use dc_syntax::{Keyword, Mark, Place, Raw, Token, Typedefs, Word};
use dc_text::Name;
use sqlite_items::{Boxed, Items};
use std::alloc::{AllocError, Global};

impl<
    'a,
    'b,
    F: Fn(
        Global,
        &[Token<'_>],
        &Typedefs<'_>,
        u64,
        Kind,
        usize,
    ) -> Result<Option<Read>, AllocError>,
> Grammar<'a, 'b, F> {
    /// A quantifier, from its keyword on.
    fn quantified(&self, at: usize, keyword: Keyword) -> Result<Option<Read>, AllocError>
        requires nests { Nests self.now.budget (F.pre self.now.reader) (F.post self.now.reader) }
        requires begins { IsNext self.now.tokens.now at (Reserved keyword) }
        requires small { self.now.budget < 1000 }
        ensures { Reading self.now.tokens.now at (self.now.budget + 1) result (spec.quantified (spec.reads self.now.budget) self.now.budget self.now.names.now.names (drop at self.now.tokens.now) keyword (drop (at + 1) self.now.tokens.now)) }
    {
        let Some(Word::Marked(Mark::LeftBrace)) = word(self.tokens, at + 1) else {
            return Ok(None);
        };
        let Some(read) = self.bare(self.names, at + 1 + 1)? else {
            return Ok(None);
        };
        self.quantifier(at, keyword, read)
    }

    /// What stands behind a quantifier's specs.
    fn quantifier(
        &self,
        at: usize,
        keyword: Keyword,
        specs: ReadSpecs,
    ) -> Result<Option<Read>, AllocError>
        requires nests { Nests self.now.budget (F.pre self.now.reader) (F.post self.now.reader) }
        requires small { self.now.budget < 1000 }
        requires within { (at < specs.at) × (specs.at ≤ length self.now.tokens.now) }
        requires high { specs.height ≡ height (specs_tree (map raw_view specs.specs)) }
        requires low { specs.height ≤ self.now.budget }
        ensures { Reading self.now.tokens.now at (self.now.budget + 1) result (quantifier_behind (spec.reads self.now.budget) self.now.names.now.names (drop at self.now.tokens.now) keyword (specs_tree (map raw_view specs.specs)) (drop specs.at self.now.tokens.now)) }
    {
        let Some(declarator) = self.declarator_named(self.names, specs.at)? else {
            return Ok(None);
        };
        let Some(condition) = self.condition_behind(declarator.tree.get(), declarator.at)? else {
            return Ok(None);
        };
        let end = condition.at;
        let height = higher(specs.height, higher(declarator.height, condition.height)) + 1;
        let place = place(self.tokens, at, end);
        Ok(Some(Read {
            tree: Boxed::new(
                self.alloc,
                Raw::Quantifier(keyword, specs.specs, declarator.tree, condition.tree, place),
            )?,
            height,
            at: end,
        }))
    }

    /// The condition of a quantifier, from the semicolon to the closing brace.
    fn condition_behind(&self, declarator: &Raw, at: usize) -> Result<Option<Read>, AllocError>
        requires nests { Nests self.now.budget (F.pre self.now.reader) (F.post self.now.reader) }
        ensures { Reading self.now.tokens.now at self.now.budget result (condition_behind (spec.reads self.now.budget) self.now.names.now.names (raw_view declarator.now) (drop at self.now.tokens.now)) }
    {
        let Some(Word::Marked(Mark::Semicolon)) = word(self.tokens, at) else {
            return Ok(None);
        };
        let Some(body) = self.quantified_body(declarator, at + 1)? else {
            return Ok(None);
        };
        let Some(Word::Marked(Mark::RightBrace)) = word(self.tokens, body.at) else {
            return Ok(None);
        };
        Ok(Some(Read {
            tree: body.tree,
            height: body.height,
            at: body.at + 1,
        }))
    }

    /// The condition of a quantifier, in which the declared name is in force.
    fn quantified_body(&self, declarator: &Raw, at: usize) -> Result<Option<Read>, AllocError>
        requires nests { Nests self.now.budget (F.pre self.now.reader) (F.post self.now.reader) }
        requires within { at ≤ length self.now.tokens.now }
        ensures { Reading self.now.tokens.now at self.now.budget result (spec.reads self.now.budget (spec.Upto 15) (naming (raw_view declarator.now) false self.now.names.now.names) (drop at self.now.tokens.now)) }
    {
        let mut scope = Typedefs::within(self.alloc, self.names);
        if let Some(name) = declarator.declared_name() {
            scope.declare(self.alloc, name, false)?;
        }
        self.below_in(&scope, Kind::Upto(15), at)
    }

    /// An expression in parentheses.
    fn paren(&self, at: usize) -> Result<Option<Read>, AllocError>
        requires nests { Nests self.now.budget (F.pre self.now.reader) (F.post self.now.reader) }
        requires begins { IsNext self.now.tokens.now at (Marked LeftParen) }
        requires small { self.now.budget < 1000 }
        ensures { Reading self.now.tokens.now at (self.now.budget + 1) result (spec.primary (spec.reads self.now.budget) self.now.budget self.now.names.now.names (drop at self.now.tokens.now)) }
    {
        let Some(inner) = self.below(Kind::Upto(16), at + 1)? else {
            return Ok(None);
        };
        let Some(Word::Marked(Mark::RightParen)) = word(self.tokens, inner.at) else {
            return Ok(None);
        };
        let end = inner.at + 1;
        Ok(Some(Read {
            tree: Boxed::new(
                self.alloc,
                Raw::Paren(inner.tree, place(self.tokens, at, end)),
            )?,
            height: inner.height + 1,
            at: end,
        }))
    }

    /// A primary expression (C11 6.5.1), or a quantifier.
    pub fn primary(&self, at: usize) -> Result<Option<Read>, AllocError>
        requires nests { Nests self.now.budget (F.pre self.now.reader) (F.post self.now.reader) }
        requires small { self.now.budget < 1000 }
        ensures { Reading self.now.tokens.now at (self.now.budget + 1) result (spec.primary (spec.reads self.now.budget) self.now.budget self.now.names.now.names (drop at self.now.tokens.now)) }
    {
        match word(self.tokens, at) {
            Some(Word::Named(name)) => {
                if self.names.has_type(name) {
                    return Ok(None);
                }
                Ok(Some(Read {
                    tree: Boxed::new(
                        self.alloc,
                        Raw::Name(
                            Name::copied(self.alloc, name)?,
                            place(self.tokens, at, at + 1),
                        ),
                    )?,
                    height: 1,
                    at: at + 1,
                }))
            }
            Some(Word::Literal(text)) => Ok(Some(Read {
                tree: Boxed::new(
                    self.alloc,
                    Raw::Constant(
                        Name::copied(self.alloc, text)?,
                        place(self.tokens, at, at + 1),
                    ),
                )?,
                height: 1,
                at: at + 1,
            })),
            Some(Word::Marked(Mark::LeftParen)) => self.paren(at),
            Some(Word::Reserved(keyword)) => {
                if !is_quantifier(keyword) {
                    return Ok(None);
                }
                self.quantified(at, keyword)
            }
            _ => Ok(None),
        }
    }
}
