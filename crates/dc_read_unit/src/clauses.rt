// Clauses, and the groups in them.
ghost use Rattle.std.specs.Prelude.{◌≡◌, ◌<◌, ◌≤◌, ◌+◌, IfOk, length, drop, map};
ghost use Rattle.dc_syntax.specs.Parts as parts;
ghost use Rattle.dc_syntax.specs.Reading as spec;
ghost use Rattle.dc_syntax.specs.ReadingUnits as units;
ghost use Rattle.dc_syntax.specs.Tokens.{decreases_word};
ghost use Rattle.dc_syntax.specs.Trees.{height};
ghost use Rattle.dc_syntax.specs.UnitView.{part_view, groups_part, more_groups_part, clauses_part};
ghost use Rattle.dc_syntax.specs.View.{raw_view};
ghost use Rattle.dc_read_expr.specs.View.{Reading, IsNext};
ghost use Rattle.dc_read_unit.specs.ClauseParts.{closed_condition, closed_groups, group_behind, group_if_behind, decreases_behind, condition_word, condition_part, target_word, target_part};
ghost use Rattle.dc_read_unit.specs.PartTaking.{TakingPart};
ghost use Rattle.dc_read_unit.specs.PartView.{Parting, PartsListing};

use crate::marks::begins_colon;
use crate::read::{ReadPart, ReadParts, joined, push_part};
use dc_read_expr::{
    Read, begins_semicolon, behind, closes, higher, place, read_conditions, read_upto, word,
};
use dc_syntax::{Keyword, Mark, Part, Place, Raw, Token, Typedefs, Word};
use sqlite_items::{Boxed, Items};
use std::alloc::{AllocError, Global};

/// A clause of one condition.
#[derive(Clone, Copy)]
pub enum ConditionClause {
    Requires,
    Ensures,
    LoopInvariant,
}

/// A clause of groups.
#[derive(Clone, Copy)]
pub enum TargetClause {
    Assigns,
    Frees,
}

/// The readers of parts that are at most so high.
#[derive(Clone, Copy)]
pub struct Level<'a, 'b> {
    pub alloc: Global,
    pub tokens: &'a [Token<'b>],
    /// The greatest height of a part.
    pub budget: u64,
}

impl<'a, 'b> Level<'a, 'b> {
    /// What a clause names, with a condition before it or without.
    fn group(&self, names: &Typedefs<'_>, at: usize) -> Result<Option<ReadPart>, AllocError>
        requires within { at ≤ length self.now.tokens.now }
        requires small { self.now.budget < 1000 }
        ensures { Parting self.now.tokens.now at self.now.budget result (units.group (spec.reads self.now.budget) names.now.names (drop at self.now.tokens.now)) }
    {
        let Some(first) = read_upto(self.alloc, self.tokens, names, self.budget, 15, at)? else {
            return Ok(None);
        };
        if begins_colon(self.tokens, first.at) {
            return self.group_if(names, at, first);
        }
        self.group_more(names, at, first)
    }

    /// What stands behind a group's condition, from the colon on.
    fn group_if(
        &self,
        names: &Typedefs<'_>,
        at: usize,
        condition: Read,
    ) -> Result<Option<ReadPart>, AllocError>
        requires order { (at < condition.at) × (condition.at < length self.now.tokens.now) }
        requires small { self.now.budget < 1000 }
        requires high { condition.height ≡ height (raw_view condition.tree) }
        requires low { condition.height ≤ self.now.budget }
        ensures { Parting self.now.tokens.now at self.now.budget result (group_if_behind (spec.reads self.now.budget) names.now.names (drop at self.now.tokens.now) (raw_view condition.tree) (drop (condition.at + 1) self.now.tokens.now)) }
    {
        let next = behind(self.tokens, condition.at);
        let Some(first) = read_upto(self.alloc, self.tokens, names, self.budget, 15, next)? else {
            return Ok(None);
        };
        let Some(more) = read_conditions(self.alloc, self.tokens, names, self.budget, first.at)?
        else {
            return Ok(None);
        };
        let end = more.at;
        let place = place(self.tokens, at, end);
        Ok(Some(ReadPart {
            part: Boxed::new(
                self.alloc,
                Part::GroupIf(condition.tree, first.tree, more.items, place),
            )?,
            height: higher(condition.height, higher(first.height, more.height)),
            at: end,
        }))
    }

    /// What stands behind the first of a group without a condition.
    fn group_more(
        &self,
        names: &Typedefs<'_>,
        at: usize,
        first: Read,
    ) -> Result<Option<ReadPart>, AllocError>
        requires order { (at < first.at) × (first.at ≤ length self.now.tokens.now) }
        requires small { self.now.budget < 1000 }
        requires high { first.height ≡ height (raw_view first.tree) }
        requires low { first.height ≤ self.now.budget }
        ensures { Parting self.now.tokens.now at self.now.budget result (group_behind (spec.reads self.now.budget) names.now.names (drop at self.now.tokens.now) (raw_view first.tree) (drop first.at self.now.tokens.now)) }
    {
        let Some(more) = read_conditions(self.alloc, self.tokens, names, self.budget, first.at)?
        else {
            return Ok(None);
        };
        let end = more.at;
        let place = place(self.tokens, at, end);
        Ok(Some(ReadPart {
            part: Boxed::new(self.alloc, Part::Group(first.tree, more.items, place))?,
            height: higher(first.height, more.height),
            at: end,
        }))
    }

    /// The groups up to a closing parenthesis; there may be none.
    fn groups(&self, names: &Typedefs<'_>, at: usize) -> Result<Option<ReadParts>, AllocError>
        requires within { at ≤ length self.now.tokens.now }
        requires small { self.now.budget < 1000 }
        ensures { PartsListing self.now.tokens.now at self.now.budget groups_part result (units.groups (spec.reads self.now.budget) names.now.names (drop at self.now.tokens.now)) }
    {
        if closes(self.tokens, at) {
            return Ok(Some(ReadParts {
                parts: Items::new(self.alloc),
                height: 0,
                at,
            }));
        }
        let Some(first) = self.group(names, at)? else {
            return Ok(None);
        };
        let Some(more) = self.more_groups(names, first.at)? else {
            return Ok(None);
        };
        let height = higher(first.height, more.height);
        let end = more.at;
        Ok(Some(ReadParts {
            parts: joined(self.alloc, first.part, more.parts)?,
            height,
            at: end,
        }))
    }

    /// The groups behind the first, each behind a semicolon.
    fn more_groups(&self, names: &Typedefs<'_>, at: usize) -> Result<Option<ReadParts>, AllocError>
        requires within { at ≤ length self.now.tokens.now }
        requires small { self.now.budget < 1000 }
        ensures { PartsListing self.now.tokens.now at self.now.budget more_groups_part result (units.more_groups (spec.reads self.now.budget) names.now.names (length (drop at self.now.tokens.now)) (drop at self.now.tokens.now)) }
    {
        let mut list = ReadParts {
            parts: Items::new(self.alloc),
            height: 0,
            at,
        };
        while begins_semicolon(self.tokens, list.at) {
            if !self.take_group(names, &mut list)? {
                return Ok(None);
            }
        }
        Ok(Some(list))
    }

    /// One more group, behind a semicolon. Is there one?
    fn take_group(&self, names: &Typedefs<'_>, list: &mut ReadParts) -> Result<bool, AllocError>
        requires within { list.old.at < length self.now.tokens.now }
        requires small { self.now.budget < 1000 }
        ensures { TakingPart self.now.tokens.now (list.old.at + 1) self.now.budget list.old list.new result (units.group (spec.reads self.now.budget) names.now.names (drop (list.old.at + 1) self.now.tokens.now)) }
    {
        let Some(group) = self.group(names, behind(self.tokens, list.at))? else {
            return Ok(false);
        };
        push_part(group, list)?;
        Ok(true)
    }

    /// A condition in parentheses.
    fn closed_condition(&self, names: &Typedefs<'_>, at: usize) -> Result<Option<Read>, AllocError>
        requires small { self.now.budget < 1000 }
        ensures { Reading self.now.tokens.now at self.now.budget result (closed_condition (spec.reads self.now.budget) names.now.names (drop at self.now.tokens.now)) }
    {
        let Some(Word::Marked(Mark::LeftParen)) = word(self.tokens, at) else {
            return Ok(None);
        };
        let Some(read) = read_upto(self.alloc, self.tokens, names, self.budget, 15, at + 1)? else {
            return Ok(None);
        };
        let Some(Word::Marked(Mark::RightParen)) = word(self.tokens, read.at) else {
            return Ok(None);
        };
        Ok(Some(Read {
            tree: read.tree,
            height: read.height,
            at: read.at + 1,
        }))
    }

    /// Groups in parentheses.
    fn closed_groups(
        &self,
        names: &Typedefs<'_>,
        at: usize,
    ) -> Result<Option<ReadParts>, AllocError>
        requires small { self.now.budget < 1000 }
        ensures { PartsListing self.now.tokens.now (at + 1) self.now.budget groups_part result (closed_groups (spec.reads self.now.budget) names.now.names (drop at self.now.tokens.now)) }
    {
        let Some(Word::Marked(Mark::LeftParen)) = word(self.tokens, at) else {
            return Ok(None);
        };
        let Some(read) = self.groups(names, at + 1)? else {
            return Ok(None);
        };
        let Some(Word::Marked(Mark::RightParen)) = word(self.tokens, read.at) else {
            return Ok(None);
        };
        Ok(Some(ReadParts {
            parts: read.parts,
            height: read.height,
            at: read.at + 1,
        }))
    }

    /// A clause of one condition, from its keyword on.
    fn condition_clause(
        &self,
        names: &Typedefs<'_>,
        at: usize,
        kind: ConditionClause,
    ) -> Result<Option<ReadPart>, AllocError>
        requires begins { IsNext self.now.tokens.now at (condition_word kind) }
        requires small { self.now.budget < 1000 }
        ensures { Parting self.now.tokens.now at (self.now.budget + 1) result (units.in_parens (spec.reads self.now.budget) names.now.names (drop at self.now.tokens.now) (drop (at + 1) self.now.tokens.now) (condition_part kind)) }
    {
        let next = behind(self.tokens, at);
        let Some(condition) = self.closed_condition(names, next)? else {
            return Ok(None);
        };
        let end = condition.at;
        let place = place(self.tokens, at, end);
        Ok(Some(ReadPart {
            part: condition_clause(self.alloc, kind, condition.tree, place)?,
            height: condition.height + 1,
            at: end,
        }))
    }

    /// A clause of groups, from its keyword on.
    fn target_clause(
        &self,
        names: &Typedefs<'_>,
        at: usize,
        kind: TargetClause,
    ) -> Result<Option<ReadPart>, AllocError>
        requires begins { IsNext self.now.tokens.now at (target_word kind) }
        requires small { self.now.budget < 1000 }
        ensures { Parting self.now.tokens.now at (self.now.budget + 1) result (units.grouped (spec.reads self.now.budget) names.now.names (drop at self.now.tokens.now) (drop (at + 1) self.now.tokens.now) (target_part kind)) }
    {
        let next = behind(self.tokens, at);
        let Some(groups) = self.closed_groups(names, next)? else {
            return Ok(None);
        };
        let end = groups.at;
        let place = place(self.tokens, at, end);
        Ok(Some(ReadPart {
            part: target_clause(self.alloc, kind, groups.parts, place)?,
            height: groups.height + 1,
            at: end,
        }))
    }

    /// `__CPROVER_decreases`, from its keyword on.
    fn decreases(&self, names: &Typedefs<'_>, at: usize) -> Result<Option<ReadPart>, AllocError>
        requires begins { IsNext self.now.tokens.now at decreases_word }
        requires small { self.now.budget < 1000 }
        ensures { Parting self.now.tokens.now at (self.now.budget + 1) result (units.decreases (spec.reads self.now.budget) names.now.names (drop at self.now.tokens.now) (drop (at + 1) self.now.tokens.now)) }
    {
        let next = behind(self.tokens, at);
        let Some(Word::Marked(Mark::LeftParen)) = word(self.tokens, next) else {
            return Ok(None);
        };
        let Some(first) = read_upto(self.alloc, self.tokens, names, self.budget, 15, next + 1)?
        else {
            return Ok(None);
        };
        self.decreases_more(names, at, first)
    }

    /// What stands behind the first of a `__CPROVER_decreases`.
    fn decreases_more(
        &self,
        names: &Typedefs<'_>,
        at: usize,
        first: Read,
    ) -> Result<Option<ReadPart>, AllocError>
        requires order { (at < first.at) × (first.at ≤ length self.now.tokens.now) }
        requires small { self.now.budget < 1000 }
        requires high { first.height ≡ height (raw_view first.tree) }
        requires low { first.height ≤ self.now.budget }
        ensures { Parting self.now.tokens.now at (self.now.budget + 1) result (decreases_behind (spec.reads self.now.budget) names.now.names (drop at self.now.tokens.now) (raw_view first.tree) (drop first.at self.now.tokens.now)) }
    {
        let Some(more) = read_conditions(self.alloc, self.tokens, names, self.budget, first.at)?
        else {
            return Ok(None);
        };
        if !closes(self.tokens, more.at) {
            return Ok(None);
        }
        let end = behind(self.tokens, more.at);
        let place = place(self.tokens, at, end);
        Ok(Some(ReadPart {
            part: Boxed::new(self.alloc, Part::Decreases(first.tree, more.items, place))?,
            height: higher(first.height, more.height) + 1,
            at: end,
        }))
    }

    /// A clause of a function or of a loop.
    fn clause(&self, names: &Typedefs<'_>, at: usize) -> Result<Option<ReadPart>, AllocError>
        requires small { self.now.budget < 1000 }
        ensures { Parting self.now.tokens.now at (self.now.budget + 1) result (units.clause (spec.reads self.now.budget) names.now.names (drop at self.now.tokens.now)) }
    {
        match word(self.tokens, at) {
            Some(Word::Reserved(Keyword::Requires)) => {
                self.condition_clause(names, at, ConditionClause::Requires)
            }
            Some(Word::Reserved(Keyword::Ensures)) => {
                self.condition_clause(names, at, ConditionClause::Ensures)
            }
            Some(Word::Reserved(Keyword::Assigns)) => {
                self.target_clause(names, at, TargetClause::Assigns)
            }
            Some(Word::Reserved(Keyword::Frees)) => {
                self.target_clause(names, at, TargetClause::Frees)
            }
            Some(Word::Reserved(Keyword::LoopInvariant)) => {
                self.condition_clause(names, at, ConditionClause::LoopInvariant)
            }
            Some(Word::Reserved(Keyword::Decreases)) => self.decreases(names, at),
            _ => Ok(None),
        }
    }

    /// The clauses at the place; there may be none.
    fn clauses(&self, names: &Typedefs<'_>, at: usize) -> Result<Option<ReadParts>, AllocError>
        requires within { at ≤ length self.now.tokens.now }
        requires small { self.now.budget < 1000 }
        ensures { PartsListing self.now.tokens.now at self.now.budget clauses_part result (units.clauses (units.reads_part self.now.budget) names.now.names (length (drop at self.now.tokens.now)) (drop at self.now.tokens.now)) }
    {
        let mut list = ReadParts {
            parts: Items::new(self.alloc),
            height: 0,
            at,
        };
        while begins_clause(self.tokens, list.at) {
            if !self.take_clause(names, &mut list)? {
                return Ok(None);
            }
        }
        Ok(Some(list))
    }

    /// One more clause. Is there one?
    fn take_clause(&self, names: &Typedefs<'_>, list: &mut ReadParts) -> Result<bool, AllocError>
        requires within { list.old.at ≤ length self.now.tokens.now }
        requires small { self.now.budget < 1000 }
        ensures { TakingPart self.now.tokens.now list.old.at self.now.budget list.old list.new result (units.reads_part self.now.budget units.ClauseOf names.now.names (drop list.old.at self.now.tokens.now)) }
    {
        let Some(clause) = read_clause(self.alloc, self.tokens, names, self.budget, list.at)? else {
            return Ok(false);
        };
        push_part(clause, list)?;
        Ok(true)
    }

    /// The clauses of a loop; there may be none.
    pub fn loop_clauses(
        &self,
        names: &Typedefs<'_>,
        at: usize,
    ) -> Result<Option<ReadParts>, AllocError>
        requires within { at ≤ length self.now.tokens.now }
        requires small { self.now.budget < 1000 }
        ensures { PartsListing self.now.tokens.now at self.now.budget clauses_part result (units.loop_clauses (units.reads_part self.now.budget) names.now.names (drop at self.now.tokens.now)) }
    {
        let Some(clauses) = self.clauses(names, at)? else {
            return Ok(None);
        };
        if !are_loop_clauses(clauses.parts.as_slice()) {
            return Ok(None);
        }
        Ok(Some(clauses))
    }

    /// The clauses of a function; there may be none.
    pub fn function_clauses(
        &self,
        names: &Typedefs<'_>,
        at: usize,
    ) -> Result<Option<ReadParts>, AllocError>
        requires within { at ≤ length self.now.tokens.now }
        requires small { self.now.budget < 1000 }
        ensures { PartsListing self.now.tokens.now at self.now.budget clauses_part result (units.function_clauses (units.reads_part self.now.budget) names.now.names (drop at self.now.tokens.now)) }
    {
        let Some(clauses) = self.clauses(names, at)? else {
            return Ok(None);
        };
        if !are_function_clauses(clauses.parts.as_slice()) {
            return Ok(None);
        }
        Ok(Some(clauses))
    }
}

/// A clause of at most this height at the place.
pub fn read_clause(
    alloc: Global,
    tokens: &[Token<'_>],
    names: &Typedefs<'_>,
    height: u64,
    at: usize,
) -> Result<Option<ReadPart>, AllocError>
    requires small { height < 1000 }
    ensures { Parting tokens.now at height result (units.reads_part height units.ClauseOf names.now.names (drop at tokens.now)) }
{
    if height == 0 {
        return Ok(None);
    }
    Level {
        alloc,
        tokens: &*tokens,
        budget: height - 1,
    }
    .clause(names, at)
}

/// Whether a clause begins at the place.
pub fn begins_clause(tokens: &[Token<'_>], at: usize) -> bool
    ensures { result ≡ units.begins_clause (drop at tokens.now) }
{
    matches!(
        word(tokens, at),
        Some(Word::Reserved(
            Keyword::Requires
                | Keyword::Ensures
                | Keyword::Assigns
                | Keyword::Frees
                | Keyword::LoopInvariant
                | Keyword::Decreases
        ))
    )
}

/// A clause of this condition.
fn condition_clause(
    alloc: Global,
    kind: ConditionClause,
    condition: Boxed<Raw>,
    place: Place,
) -> Result<Boxed<Part>, AllocError>
    ensures { IfOk result (λ part. part_view part ≡ condition_part kind (raw_view condition) place) }
{
    Boxed::new(
        alloc,
        match kind {
            ConditionClause::Requires => Part::Requires(condition, place),
            ConditionClause::Ensures => Part::Ensures(condition, place),
            ConditionClause::LoopInvariant => Part::LoopInvariant(condition, place),
        },
    )
}

/// A clause of these groups.
fn target_clause(
    alloc: Global,
    kind: TargetClause,
    groups: Items<Part>,
    place: Place,
) -> Result<Boxed<Part>, AllocError>
    ensures { IfOk result (λ part. part_view part ≡ target_part kind (groups_part (map part_view groups)) place) }
{
    Boxed::new(
        alloc,
        match kind {
            TargetClause::Assigns => Part::Assigns(groups, place),
            TargetClause::Frees => Part::Frees(groups, place),
        },
    )
}

/// Whether all are clauses of loops.
fn are_loop_clauses(clauses: &[Part]) -> bool
    ensures { result ≡ parts.are_loop_clauses (clauses_part (map part_view clauses.now)) }
{
    for clause in clauses {
        if !is_loop_clause(clause) {
            return false;
        }
    }
    true
}

fn is_loop_clause(clause: &Part) -> bool
    ensures { result ≡ parts.is_loop_clause (part_view clause.now) }
{
    matches!(
        clause,
        Part::Assigns(..) | Part::LoopInvariant(..) | Part::Decreases(..)
    )
}

/// Whether all are clauses of functions.
fn are_function_clauses(clauses: &[Part]) -> bool
    ensures { result ≡ parts.are_function_clauses (clauses_part (map part_view clauses.now)) }
{
    for clause in clauses {
        if !is_function_clause(clause) {
            return false;
        }
    }
    true
}

fn is_function_clause(clause: &Part) -> bool
    ensures { result ≡ parts.is_function_clause (part_view clause.now) }
{
    matches!(
        clause,
        Part::Requires(..) | Part::Ensures(..) | Part::Assigns(..) | Part::Frees(..)
    )
}
