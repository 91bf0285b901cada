// Statements, and what stands in blocks (C11 6.8).
ghost use Rattle.std.specs.Prelude.{◌≡◌, ◌<◌, ◌≤◌, ◌+◌, IfOk, length, drop, map};
ghost use Rattle.dc_syntax.specs.declared.mark.Mark.TheVariants.{LeftBrace, Semicolon};
ghost use Rattle.dc_syntax.specs.Parts as parts;
ghost use Rattle.dc_syntax.specs.Parts.{height_of};
ghost use Rattle.dc_syntax.specs.Reading as spec;
ghost use Rattle.dc_syntax.specs.ReadingUnits as units;
ghost use Rattle.dc_syntax.specs.Tokens as tokens;
ghost use Rattle.dc_syntax.specs.Tokens.{Marked};
ghost use Rattle.dc_syntax.specs.Trees.{height};
ghost use Rattle.dc_syntax.specs.UnitView.{part_view, items_part, clauses_part};
ghost use Rattle.dc_syntax.specs.View.{raw_view};
ghost use Rattle.dc_read_expr.specs.View.{Reading, IsNext};
ghost use Rattle.dc_read_unit.specs.PartNests.{PartNests};
ghost use Rattle.dc_read_unit.specs.StatementParts.{closed_items, closed_tested, closed_optional, closed_first, branch_else, do_condition, item, jump_part, jump_word, simple};
ghost use Rattle.dc_read_unit.specs.PartTaking.{DeclaringPart};
ghost use Rattle.dc_read_unit.specs.PartView.{Parting, PartsListing};

use crate::clauses::Level;
use crate::declarations::{read_declaration, read_first};
use crate::marks::begins_mark;
use crate::read::{ReadPart, ReadParts, push_part};
use dc_read_expr::{Read, begins_specs, behind, closes_body, higher, place, read_upto, word};
use dc_syntax::{Keyword, Mark, Part, Place, Token, Typedefs, Word};
use sqlite_items::{Boxed, Items};
use std::alloc::{AllocError, Global};

/// `break` or `continue`.
#[derive(Clone, Copy)]
pub enum Jump {
    Break,
    Continue,
}

/// The readers of statements whose parts are at most so high.
#[derive(Clone, Copy)]
pub struct Statements<'a, 'b, F> {
    pub alloc: Global,
    pub tokens: &'a [Token<'b>],
    /// The greatest height of a part.
    pub budget: u64,
    pub reader: F,
}

impl<
    'a,
    'b,
    F: Fn(Global, &[Token<'_>], &Typedefs<'_>, u64, usize) -> Result<Option<ReadPart>, AllocError>,
> Statements<'a, 'b, F> {
    /// The statement at the place, of at most the budget's height.
    fn below(&self, names: &Typedefs<'_>, at: usize) -> Result<Option<ReadPart>, AllocError>
        requires nests { PartNests units.StatementOf self.now.budget (F.pre self.now.reader) (F.post self.now.reader) }
        requires within { at ≤ length self.now.tokens.now }
        ensures { Parting self.now.tokens.now at self.now.budget result (units.reads_part self.now.budget units.StatementOf names.now.names (drop at self.now.tokens.now)) }
    {
        (self.reader)(self.alloc, self.tokens, names, self.budget, at)
    }

    /// The clauses of a loop.
    fn loop_clauses(&self, names: &Typedefs<'_>, at: usize) -> Result<Option<ReadParts>, AllocError>
        requires within { at ≤ length self.now.tokens.now }
        requires small { self.now.budget < 1000 }
        ensures { PartsListing self.now.tokens.now at self.now.budget clauses_part result (units.loop_clauses (units.reads_part self.now.budget) names.now.names (drop at self.now.tokens.now)) }
    {
        Level {
            alloc: self.alloc,
            tokens: self.tokens,
            budget: self.budget,
        }
        .loop_clauses(names, at)
    }

    /// A declaration or a statement in a block.
    fn item(&self, names: &Typedefs<'_>, at: usize) -> Result<Option<ReadPart>, AllocError>
        requires nests { PartNests units.StatementOf self.now.budget (F.pre self.now.reader) (F.post self.now.reader) }
        requires small { self.now.budget < 1000 }
        requires within { at ≤ length self.now.tokens.now }
        ensures { Parting self.now.tokens.now at self.now.budget result (item (units.reads_part self.now.budget) names.now.names (drop at self.now.tokens.now)) }
    {
        if begins_specs(self.tokens, names, at) {
            return read_declaration(self.alloc, self.tokens, names, self.budget, at);
        }
        self.below(names, at)
    }

    /// What stands in a block, up to its closing brace.
    fn items(&self, names: &Typedefs<'_>, at: usize) -> Result<Option<ReadParts>, AllocError>
        requires nests { PartNests units.StatementOf self.now.budget (F.pre self.now.reader) (F.post self.now.reader) }
        requires small { self.now.budget < 1000 }
        requires within { at ≤ length self.now.tokens.now }
        ensures { PartsListing self.now.tokens.now at self.now.budget items_part result (closed_items (units.reads_part self.now.budget) names.now.names (length (drop at self.now.tokens.now)) (drop at self.now.tokens.now)) }
    {
        let mut scope = Typedefs::within(self.alloc, names);
        let mut list = ReadParts {
            parts: Items::new(self.alloc),
            height: 0,
            at,
        };
        while !closes_body(self.tokens, list.at) {
            if !self.take_item(&mut scope, &mut list)? {
                return Ok(None);
            }
        }
        list.at = behind(self.tokens, list.at);
        Ok(Some(list))
    }

    /// One more declaration or statement, with what it brings into force. Is there one?
    fn take_item(&self, scope: &mut Typedefs<'_>, list: &mut ReadParts) -> Result<bool, AllocError>
        requires nests { PartNests units.StatementOf self.now.budget (F.pre self.now.reader) (F.post self.now.reader) }
        requires small { self.now.budget < 1000 }
        requires within { list.old.at ≤ length self.now.tokens.now }
        ensures { DeclaringPart self.now.tokens.now list.old.at self.now.budget list.old list.new scope.new.names (λ a. parts.in_force_behind a scope.old.names) result (item (units.reads_part self.now.budget) scope.old.names (drop list.old.at self.now.tokens.now)) }
    {
        let Some(item) = self.item(scope, list.at)? else {
            return Ok(false);
        };
        item.part.get().declare(self.alloc, scope)?;
        push_part(item, list)?;
        Ok(true)
    }

    /// A block, from its opening brace on (C11 6.8.2).
    fn block(&self, names: &Typedefs<'_>, at: usize) -> Result<Option<ReadPart>, AllocError>
        requires nests { PartNests units.StatementOf self.now.budget (F.pre self.now.reader) (F.post self.now.reader) }
        requires small { self.now.budget < 1000 }
        requires begins { IsNext self.now.tokens.now at (Marked LeftBrace) }
        ensures { Parting self.now.tokens.now at (self.now.budget + 1) result (units.block (units.reads_part self.now.budget) names.now.names (drop at self.now.tokens.now)) }
    {
        let Some(items) = self.items(names, at + 1)? else {
            return Ok(None);
        };
        let place = place(self.tokens, at, items.at);
        Ok(Some(ReadPart {
            part: Boxed::new(self.alloc, Part::Block(items.parts, place))?,
            height: items.height + 1,
            at: items.at,
        }))
    }

    /// An expression in parentheses.
    fn tested(&self, names: &Typedefs<'_>, at: usize) -> Result<Option<Read>, AllocError>
        requires small { self.now.budget < 1000 }
        ensures { Reading self.now.tokens.now at self.now.budget result (closed_tested (spec.reads self.now.budget) names.now.names (drop at self.now.tokens.now)) }
    {
        let Some(Word::Marked(Mark::LeftParen)) = word(self.tokens, at) else {
            return Ok(None);
        };
        let Some(read) = read_upto(self.alloc, self.tokens, names, self.budget, 16, at + 1)? else {
            return Ok(None);
        };
        let Some(Word::Marked(Mark::RightParen)) = word(self.tokens, read.at) else {
            return Ok(None);
        };
        Ok(Some(Read {
            tree: read.tree,
            height: read.height,
            at: read.at + 1,
        }))
    }

    /// `if`, from its keyword on (C11 6.8.4.1).
    fn branch(&self, names: &Typedefs<'_>, at: usize) -> Result<Option<ReadPart>, AllocError>
        requires nests { PartNests units.StatementOf self.now.budget (F.pre self.now.reader) (F.post self.now.reader) }
        requires small { self.now.budget < 1000 }
        requires begins { IsNext self.now.tokens.now at tokens.if_word }
        ensures { Parting self.now.tokens.now at (self.now.budget + 1) result (units.branch (spec.reads self.now.budget) (units.reads_part self.now.budget) names.now.names (drop at self.now.tokens.now) (drop (at + 1) self.now.tokens.now)) }
    {
        let next = behind(self.tokens, at);
        let Some(test) = self.tested(names, next)? else {
            return Ok(None);
        };
        let Some(first) = self.below(names, test.at)? else {
            return Ok(None);
        };
        self.branch_behind(names, at, test, first)
    }

    /// What stands behind the first branch: an `else`, or nothing.
    fn branch_behind(
        &self,
        names: &Typedefs<'_>,
        at: usize,
        test: Read,
        first: ReadPart,
    ) -> Result<Option<ReadPart>, AllocError>
        requires nests { PartNests units.StatementOf self.now.budget (F.pre self.now.reader) (F.post self.now.reader) }
        requires small { self.now.budget < 1000 }
        requires order { (at < first.at) × (first.at ≤ length self.now.tokens.now) }
        requires test_high { test.height ≡ height (raw_view test.tree) }
        requires test_low { test.height ≤ self.now.budget }
        requires first_high { first.height ≡ height_of (part_view first.part) }
        requires first_low { first.height ≤ self.now.budget }
        ensures { Parting self.now.tokens.now at (self.now.budget + 1) result (branch_else (units.reads_part self.now.budget) names.now.names (drop at self.now.tokens.now) (raw_view test.tree) (part_view first.part) (drop first.at self.now.tokens.now)) }
    {
        if let Some(Word::Reserved(Keyword::Else)) = word(self.tokens, first.at) {
            let Some(second) = self.below(names, first.at + 1)? else {
                return Ok(None);
            };
            let place = place(self.tokens, at, second.at);
            return Ok(Some(ReadPart {
                part: Boxed::new(
                    self.alloc,
                    Part::IfElse(test.tree, first.part, second.part, place),
                )?,
                height: higher(test.height, higher(first.height, second.height)) + 1,
                at: second.at,
            }));
        }
        let place = place(self.tokens, at, first.at);
        Ok(Some(ReadPart {
            part: Boxed::new(self.alloc, Part::If(test.tree, first.part, place))?,
            height: higher(test.height, first.height) + 1,
            at: first.at,
        }))
    }

    /// `while`, from its keyword on (C11 6.8.5.1).
    fn while_loop(&self, names: &Typedefs<'_>, at: usize) -> Result<Option<ReadPart>, AllocError>
        requires nests { PartNests units.StatementOf self.now.budget (F.pre self.now.reader) (F.post self.now.reader) }
        requires small { self.now.budget < 1000 }
        requires begins { IsNext self.now.tokens.now at tokens.while_word }
        ensures { Parting self.now.tokens.now at (self.now.budget + 1) result (units.while_loop (spec.reads self.now.budget) (units.reads_part self.now.budget) names.now.names (drop at self.now.tokens.now) (drop (at + 1) self.now.tokens.now)) }
    {
        let Some(test) = self.tested(names, at + 1)? else {
            return Ok(None);
        };
        let Some(clauses) = self.loop_clauses(names, test.at)? else {
            return Ok(None);
        };
        let Some(body) = self.below(names, clauses.at)? else {
            return Ok(None);
        };
        let place = place(self.tokens, at, body.at);
        Ok(Some(ReadPart {
            part: Boxed::new(
                self.alloc,
                Part::While(test.tree, clauses.parts, body.part, place),
            )?,
            height: higher(test.height, higher(clauses.height, body.height)) + 1,
            at: body.at,
        }))
    }

    /// `do`, from its keyword on (C11 6.8.5.2).
    fn do_loop(&self, names: &Typedefs<'_>, at: usize) -> Result<Option<ReadPart>, AllocError>
        requires nests { PartNests units.StatementOf self.now.budget (F.pre self.now.reader) (F.post self.now.reader) }
        requires small { self.now.budget < 1000 }
        requires begins { IsNext self.now.tokens.now at tokens.do_word }
        ensures { Parting self.now.tokens.now at (self.now.budget + 1) result (units.do_loop (spec.reads self.now.budget) (units.reads_part self.now.budget) names.now.names (drop at self.now.tokens.now) (drop (at + 1) self.now.tokens.now)) }
    {
        let Some(body) = self.below(names, at + 1)? else {
            return Ok(None);
        };
        let Some(Word::Reserved(Keyword::While)) = word(self.tokens, body.at) else {
            return Ok(None);
        };
        let next = body.at + 1;
        self.do_behind(names, at, body, next)
    }

    /// What stands behind the `while` of a `do`.
    fn do_behind(
        &self,
        names: &Typedefs<'_>,
        at: usize,
        body: ReadPart,
        next: usize,
    ) -> Result<Option<ReadPart>, AllocError>
        requires small { self.now.budget < 1000 }
        requires order { at < next }
        requires high { body.height ≡ height_of (part_view body.part) }
        requires low { body.height ≤ self.now.budget }
        ensures { Parting self.now.tokens.now at (self.now.budget + 1) result (do_condition (spec.reads self.now.budget) (units.reads_part self.now.budget) names.now.names (drop at self.now.tokens.now) (part_view body.part) (drop next self.now.tokens.now)) }
    {
        let Some(test) = self.tested(names, next)? else {
            return Ok(None);
        };
        let Some(clauses) = self.loop_clauses(names, test.at)? else {
            return Ok(None);
        };
        self.do_end(at, body, test, clauses)
    }

    /// The semicolon behind a `do`.
    fn do_end(
        &self,
        at: usize,
        body: ReadPart,
        test: Read,
        clauses: ReadParts,
    ) -> Result<Option<ReadPart>, AllocError>
        requires small { self.now.budget < 1000 }
        requires order { (at < clauses.at) × (clauses.at ≤ length self.now.tokens.now) }
        requires body_high { body.height ≡ height_of (part_view body.part) }
        requires body_low { body.height ≤ self.now.budget }
        requires test_high { test.height ≡ height (raw_view test.tree) }
        requires test_low { test.height ≤ self.now.budget }
        requires clauses_high { clauses.height ≡ height_of (clauses_part (map part_view clauses.parts)) }
        requires clauses_low { clauses.height ≤ self.now.budget }
        ensures { Parting self.now.tokens.now at (self.now.budget + 1) result (units.ended (drop at self.now.tokens.now) (drop clauses.at self.now.tokens.now) (parts.Do (part_view body.part) (raw_view test.tree) (clauses_part (map part_view clauses.parts)))) }
    {
        let Some(Word::Marked(Mark::Semicolon)) = word(self.tokens, clauses.at) else {
            return Ok(None);
        };
        let end = clauses.at + 1;
        let place = place(self.tokens, at, end);
        Ok(Some(ReadPart {
            part: Boxed::new(
                self.alloc,
                Part::Do(body.part, test.tree, clauses.parts, place),
            )?,
            height: higher(body.height, higher(test.height, clauses.height)) + 1,
            at: end,
        }))
    }

    /// An expression of a `for` up to a mark and with it; it may be left away.
    fn step_up_to(
        &self,
        mark: Mark,
        names: &Typedefs<'_>,
        at: usize,
    ) -> Result<Option<ReadPart>, AllocError>
        requires within { at ≤ length self.now.tokens.now }
        requires small { self.now.budget < 1000 }
        ensures { Parting self.now.tokens.now at self.now.budget result (closed_optional (spec.reads self.now.budget) names.now.names (Marked mark) (drop at self.now.tokens.now)) }
    {
        if begins_mark(self.tokens, at, mark) {
            return Ok(Some(ReadPart {
                part: Boxed::new(self.alloc, Part::NoStep)?,
                height: 0,
                at: behind(self.tokens, at),
            }));
        }
        let Some(read) = read_upto(self.alloc, self.tokens, names, self.budget, 16, at)? else {
            return Ok(None);
        };
        if !begins_mark(self.tokens, read.at, mark) {
            return Ok(None);
        }
        let end = behind(self.tokens, read.at);
        Ok(Some(ReadPart {
            part: Boxed::new(self.alloc, Part::Step(read.tree))?,
            height: read.height,
            at: end,
        }))
    }

    /// The first part of a `for`, up to a semicolon and with it.
    fn first(&self, names: &Typedefs<'_>, at: usize) -> Result<Option<ReadPart>, AllocError>
        requires within { at ≤ length self.now.tokens.now }
        requires small { self.now.budget < 1000 }
        ensures { Parting self.now.tokens.now at self.now.budget result (closed_first (spec.reads self.now.budget) (units.reads_part self.now.budget) names.now.names (drop at self.now.tokens.now)) }
    {
        if !begins_specs(self.tokens, names, at) {
            return self.step_up_to(Mark::Semicolon, names, at);
        }
        let Some(first) = read_first(self.alloc, self.tokens, names, self.budget, at)? else {
            return Ok(None);
        };
        let Some(Word::Marked(Mark::Semicolon)) = word(self.tokens, first.at) else {
            return Ok(None);
        };
        let end = first.at + 1;
        Ok(Some(ReadPart {
            part: first.part,
            height: first.height,
            at: end,
        }))
    }

    /// `for`, from its keyword on (C11 6.8.5.3).
    fn for_loop(&self, names: &Typedefs<'_>, at: usize) -> Result<Option<ReadPart>, AllocError>
        requires nests { PartNests units.StatementOf self.now.budget (F.pre self.now.reader) (F.post self.now.reader) }
        requires small { self.now.budget < 1000 }
        requires begins { IsNext self.now.tokens.now at tokens.for_word }
        ensures { Parting self.now.tokens.now at (self.now.budget + 1) result (units.for_loop (spec.reads self.now.budget) (units.reads_part self.now.budget) names.now.names (drop at self.now.tokens.now) (drop (at + 1) self.now.tokens.now)) }
    {
        let next = at + 1;
        let Some(Word::Marked(Mark::LeftParen)) = word(self.tokens, next) else {
            return Ok(None);
        };
        let Some(first) = self.first(names, next + 1)? else {
            return Ok(None);
        };
        let mut scope = Typedefs::within(self.alloc, names);
        first.part.get().declare(self.alloc, &mut scope)?;
        self.for_condition(&scope, at, first)
    }

    /// What stands behind the first part of a `for`, with what it declares in force.
    fn for_condition(
        &self,
        names: &Typedefs<'_>,
        at: usize,
        first: ReadPart,
    ) -> Result<Option<ReadPart>, AllocError>
        requires nests { PartNests units.StatementOf self.now.budget (F.pre self.now.reader) (F.post self.now.reader) }
        requires small { self.now.budget < 1000 }
        requires order { (at < first.at) × (first.at ≤ length self.now.tokens.now) }
        requires high { first.height ≡ height_of (part_view first.part) }
        requires low { first.height ≤ self.now.budget }
        ensures { Parting self.now.tokens.now at (self.now.budget + 1) result (units.for_condition (spec.reads self.now.budget) (units.reads_part self.now.budget) names.now.names (drop at self.now.tokens.now) (part_view first.part) (drop first.at self.now.tokens.now)) }
    {
        let Some(test) = self.step_up_to(Mark::Semicolon, names, first.at)? else {
            return Ok(None);
        };
        let Some(step) = self.step_up_to(Mark::RightParen, names, test.at)? else {
            return Ok(None);
        };
        self.for_body(names, at, first, test, step)
    }

    /// What stands behind the parentheses of a `for`.
    fn for_body(
        &self,
        names: &Typedefs<'_>,
        at: usize,
        first: ReadPart,
        test: ReadPart,
        step: ReadPart,
    ) -> Result<Option<ReadPart>, AllocError>
        requires nests { PartNests units.StatementOf self.now.budget (F.pre self.now.reader) (F.post self.now.reader) }
        requires small { self.now.budget < 1000 }
        requires order { (at < step.at) × (step.at ≤ length self.now.tokens.now) }
        requires first_high { first.height ≡ height_of (part_view first.part) }
        requires first_low { first.height ≤ self.now.budget }
        requires test_high { test.height ≡ height_of (part_view test.part) }
        requires test_low { test.height ≤ self.now.budget }
        requires step_high { step.height ≡ height_of (part_view step.part) }
        requires step_low { step.height ≤ self.now.budget }
        ensures { Parting self.now.tokens.now at (self.now.budget + 1) result (units.for_body (units.reads_part self.now.budget) names.now.names (drop at self.now.tokens.now) (part_view first.part) (part_view test.part) (part_view step.part) (drop step.at self.now.tokens.now)) }
    {
        let Some(clauses) = self.loop_clauses(names, step.at)? else {
            return Ok(None);
        };
        let Some(body) = self.below(names, clauses.at)? else {
            return Ok(None);
        };
        let place = place(self.tokens, at, body.at);
        let height = higher(
            first.height,
            higher(
                test.height,
                higher(step.height, higher(clauses.height, body.height)),
            ),
        ) + 1;
        Ok(Some(ReadPart {
            part: Boxed::new(
                self.alloc,
                Part::For(
                    first.part,
                    test.part,
                    step.part,
                    clauses.parts,
                    body.part,
                    place,
                ),
            )?,
            height,
            at: body.at,
        }))
    }

    /// `switch`, from its keyword on (C11 6.8.4.2).
    fn switched(&self, names: &Typedefs<'_>, at: usize) -> Result<Option<ReadPart>, AllocError>
        requires nests { PartNests units.StatementOf self.now.budget (F.pre self.now.reader) (F.post self.now.reader) }
        requires small { self.now.budget < 1000 }
        requires begins { IsNext self.now.tokens.now at tokens.switch_word }
        ensures { Parting self.now.tokens.now at (self.now.budget + 1) result (units.switched (spec.reads self.now.budget) (units.reads_part self.now.budget) names.now.names (drop at self.now.tokens.now) (drop (at + 1) self.now.tokens.now)) }
    {
        let Some(test) = self.tested(names, at + 1)? else {
            return Ok(None);
        };
        let Some(body) = self.below(names, test.at)? else {
            return Ok(None);
        };
        let place = place(self.tokens, at, body.at);
        Ok(Some(ReadPart {
            part: Boxed::new(self.alloc, Part::Switch(test.tree, body.part, place))?,
            height: higher(test.height, body.height) + 1,
            at: body.at,
        }))
    }

    /// `case`, from its keyword on (C11 6.8.1).
    fn labelled(&self, names: &Typedefs<'_>, at: usize) -> Result<Option<ReadPart>, AllocError>
        requires nests { PartNests units.StatementOf self.now.budget (F.pre self.now.reader) (F.post self.now.reader) }
        requires small { self.now.budget < 1000 }
        requires begins { IsNext self.now.tokens.now at tokens.case_word }
        ensures { Parting self.now.tokens.now at (self.now.budget + 1) result (units.labelled (spec.reads self.now.budget) (units.reads_part self.now.budget) names.now.names (drop at self.now.tokens.now) (drop (at + 1) self.now.tokens.now)) }
    {
        let next = at + 1;
        let Some(label) = read_upto(self.alloc, self.tokens, names, self.budget, 15, next)? else {
            return Ok(None);
        };
        let Some(Word::Marked(Mark::Colon)) = word(self.tokens, label.at) else {
            return Ok(None);
        };
        let Some(body) = self.below(names, label.at + 1)? else {
            return Ok(None);
        };
        let place = place(self.tokens, at, body.at);
        Ok(Some(ReadPart {
            part: Boxed::new(self.alloc, Part::Case(label.tree, body.part, place))?,
            height: higher(label.height, body.height) + 1,
            at: body.at,
        }))
    }

    /// `default`, from its keyword on (C11 6.8.1).
    fn otherwise(&self, names: &Typedefs<'_>, at: usize) -> Result<Option<ReadPart>, AllocError>
        requires nests { PartNests units.StatementOf self.now.budget (F.pre self.now.reader) (F.post self.now.reader) }
        requires small { self.now.budget < 1000 }
        requires begins { IsNext self.now.tokens.now at tokens.default_word }
        ensures { Parting self.now.tokens.now at (self.now.budget + 1) result (units.otherwise (units.reads_part self.now.budget) names.now.names (drop at self.now.tokens.now) (drop (at + 1) self.now.tokens.now)) }
    {
        let colon = at + 1;
        let Some(Word::Marked(Mark::Colon)) = word(self.tokens, colon) else {
            return Ok(None);
        };
        let Some(body) = self.below(names, colon + 1)? else {
            return Ok(None);
        };
        let place = place(self.tokens, at, body.at);
        Ok(Some(ReadPart {
            part: Boxed::new(self.alloc, Part::Default(body.part, place))?,
            height: body.height + 1,
            at: body.at,
        }))
    }

    /// `return`, from its keyword on (C11 6.8.6.4).
    fn returned(&self, names: &Typedefs<'_>, at: usize) -> Result<Option<ReadPart>, AllocError>
        requires small { self.now.budget < 1000 }
        requires begins { IsNext self.now.tokens.now at tokens.return_word }
        ensures { Parting self.now.tokens.now at (self.now.budget + 1) result (units.returned (spec.reads self.now.budget) names.now.names (drop at self.now.tokens.now) (drop (at + 1) self.now.tokens.now)) }
    {
        let next = at + 1;
        if let Some(Word::Marked(Mark::Semicolon)) = word(self.tokens, next) {
            let end = next + 1;
            let place = place(self.tokens, at, end);
            return Ok(Some(ReadPart {
                part: Boxed::new(self.alloc, Part::Return(place))?,
                height: 1,
                at: end,
            }));
        }
        let Some(value) = read_upto(self.alloc, self.tokens, names, self.budget, 16, next)? else {
            return Ok(None);
        };
        let Some(Word::Marked(Mark::Semicolon)) = word(self.tokens, value.at) else {
            return Ok(None);
        };
        let end = value.at + 1;
        let place = place(self.tokens, at, end);
        Ok(Some(ReadPart {
            part: Boxed::new(self.alloc, Part::ReturnValue(value.tree, place))?,
            height: value.height + 1,
            at: end,
        }))
    }

    /// An expression statement (C11 6.8.3).
    fn simple(&self, names: &Typedefs<'_>, at: usize) -> Result<Option<ReadPart>, AllocError>
        requires within { at ≤ length self.now.tokens.now }
        requires small { self.now.budget < 1000 }
        ensures { Parting self.now.tokens.now at (self.now.budget + 1) result (simple (spec.reads self.now.budget) names.now.names (drop at self.now.tokens.now)) }
    {
        let Some(read) = read_upto(self.alloc, self.tokens, names, self.budget, 16, at)? else {
            return Ok(None);
        };
        let Some(Word::Marked(Mark::Semicolon)) = word(self.tokens, read.at) else {
            return Ok(None);
        };
        let end = read.at + 1;
        let place = place(self.tokens, at, end);
        Ok(Some(ReadPart {
            part: Boxed::new(self.alloc, Part::Simple(read.tree, place))?,
            height: read.height + 1,
            at: end,
        }))
    }

    /// `break` or `continue`, from its keyword on (C11 6.8.6).
    fn jump(&self, at: usize, kind: Jump) -> Result<Option<ReadPart>, AllocError>
        requires begins { IsNext self.now.tokens.now at (jump_word kind) }
        ensures { Parting self.now.tokens.now at (self.now.budget + 1) result (units.ended (drop at self.now.tokens.now) (drop (at + 1) self.now.tokens.now) (jump_part kind)) }
    {
        let next = at + 1;
        let Some(Word::Marked(Mark::Semicolon)) = word(self.tokens, next) else {
            return Ok(None);
        };
        let end = next + 1;
        let place = place(self.tokens, at, end);
        Ok(Some(ReadPart {
            part: jumping(self.alloc, kind, place)?,
            height: 1,
            at: end,
        }))
    }

    /// A statement that begins with a keyword, or an expression statement.
    fn by_keyword(&self, names: &Typedefs<'_>, at: usize) -> Result<Option<ReadPart>, AllocError>
        requires nests { PartNests units.StatementOf self.now.budget (F.pre self.now.reader) (F.post self.now.reader) }
        requires within { at ≤ length self.now.tokens.now }
        requires small { self.now.budget < 1000 }
        ensures { Parting self.now.tokens.now at (self.now.budget + 1) result (units.by_keyword (spec.reads self.now.budget) (units.reads_part self.now.budget) names.now.names (drop at self.now.tokens.now)) }
    {
        match word(self.tokens, at) {
            Some(Word::Reserved(Keyword::If)) => self.branch(names, at),
            Some(Word::Reserved(Keyword::While)) => self.while_loop(names, at),
            Some(Word::Reserved(Keyword::Do)) => self.do_loop(names, at),
            Some(Word::Reserved(Keyword::For)) => self.for_loop(names, at),
            Some(Word::Reserved(Keyword::Switch)) => self.switched(names, at),
            Some(Word::Reserved(Keyword::Case)) => self.labelled(names, at),
            Some(Word::Reserved(Keyword::Default)) => self.otherwise(names, at),
            Some(Word::Reserved(Keyword::Return)) => self.returned(names, at),
            Some(Word::Reserved(Keyword::Break)) => self.jump(at, Jump::Break),
            Some(Word::Reserved(Keyword::Continue)) => self.jump(at, Jump::Continue),
            _ => self.simple(names, at),
        }
    }

    /// A statement (C11 6.8).
    fn statement(&self, names: &Typedefs<'_>, at: usize) -> Result<Option<ReadPart>, AllocError>
        requires nests { PartNests units.StatementOf self.now.budget (F.pre self.now.reader) (F.post self.now.reader) }
        requires within { at ≤ length self.now.tokens.now }
        requires small { self.now.budget < 1000 }
        ensures { Parting self.now.tokens.now at (self.now.budget + 1) result (units.statement (spec.reads self.now.budget) (units.reads_part self.now.budget) names.now.names (drop at self.now.tokens.now)) }
    {
        match word(self.tokens, at) {
            Some(Word::Marked(Mark::LeftBrace)) => self.block(names, at),
            Some(Word::Marked(Mark::Semicolon)) => self.empty(at),
            _ => self.by_keyword(names, at),
        }
    }

    /// A semicolon alone (C11 6.8.3).
    fn empty(&self, at: usize) -> Result<Option<ReadPart>, AllocError>
        requires begins { IsNext self.now.tokens.now at (Marked Semicolon) }
        ensures { Parting self.now.tokens.now at (self.now.budget + 1) result (units.ended (drop at self.now.tokens.now) (drop at self.now.tokens.now) parts.Empty) }
    {
        let end = at + 1;
        let place = place(self.tokens, at, end);
        Ok(Some(ReadPart {
            part: Boxed::new(self.alloc, Part::Empty(place))?,
            height: 1,
            at: end,
        }))
    }
}

/// `break` or `continue`.
fn jumping(alloc: Global, kind: Jump, place: Place) -> Result<Boxed<Part>, AllocError>
    ensures { IfOk result (λ part. part_view part ≡ jump_part kind place) }
{
    Boxed::new(
        alloc,
        match kind {
            Jump::Break => Part::Break(place),
            Jump::Continue => Part::Continue(place),
        },
    )
}

/// A statement of at most this height.
pub fn read_statement(
    alloc: Global,
    tokens: &[Token<'_>],
    names: &Typedefs<'_>,
    height: u64,
    at: usize,
) -> Result<Option<ReadPart>, AllocError>
    requires within { at ≤ length tokens.now }
    requires small { height < 1000 }
    ensures { Parting tokens.now at height result (units.reads_part height units.StatementOf names.now.names (drop at tokens.now)) }
{
    if height == 0 {
        return Ok(None);
    }
    Statements {
        alloc,
        tokens: &*tokens,
        budget: height - 1,
        reader: read_statement,
    }
    .statement(names, at)
}
