// Declarations and definitions of a unit (C11 6.9).
ghost use Rattle.std.specs.Prelude.{◌≡◌, ◌<◌, ◌≤◌, ◌+◌, [], ◌∷◌, IfOk, MatchOption, length, drop, map};
ghost use Rattle.dc_syntax.specs.Parts as parts;
ghost use Rattle.dc_syntax.specs.Parts.{height_of};
ghost use Rattle.dc_syntax.specs.Reading as spec;
ghost use Rattle.dc_syntax.specs.ReadingUnits as units;
ghost use Rattle.dc_syntax.specs.Trees as trees;
ghost use Rattle.dc_syntax.specs.Trees.{height};
ghost use Rattle.dc_syntax.specs.UnitView.{part_view, clauses_part, externals_part};
ghost use Rattle.dc_syntax.specs.View.{raw_view, specs_tree};
ghost use Rattle.dc_read_unit.specs.ExternalParts.{block_behind};
ghost use Rattle.dc_read_unit.specs.PartTaking.{DeclaringPart};
ghost use Rattle.dc_read_unit.specs.PartView.{Parting, PartsListing};

use crate::clauses::{Level, begins_clause};
use crate::read::{ReadPart, ReadParts, push_part};
use crate::statements::read_statement;
use dc_read_expr::{
    Read, ReadSpecs, begins_semicolon, higher, leaves, opens_body, place, read_declarator,
    read_specs, word,
};
use dc_syntax::{Mark, Part, Token, Typedefs, Word, declare_specs, declare_within_function};
use sqlite_items::{Boxed, Items};
use std::alloc::{AllocError, Global};

/// The clauses of a function without a block, the height of the whole with them, and the place behind them.
#[derive(Drop)]
struct ReadClauses {
    first: Boxed<Part>,
    more: Items<Part>,
    height: u64,
    at: usize,
}

impl<'a, 'b> Level<'a, 'b> {
    /// A declaration or a definition of a unit.
    fn external(&self, names: &Typedefs<'_>, at: usize) -> Result<Option<ReadPart>, AllocError>
        requires small { self.now.budget < 1000 }
        ensures { Parting self.now.tokens.now at (self.now.budget + 1) result (units.external (spec.reads self.now.budget) (units.reads_part self.now.budget) self.now.budget names.now.names (drop at self.now.tokens.now)) }
    {
        let Some(run) = read_specs(self.alloc, self.tokens, names, self.budget, at)? else {
            return Ok(None);
        };
        let mut scope = Typedefs::within(self.alloc, names);
        declare_specs(self.alloc, run.specs.as_slice(), &mut scope)?;
        if !leaves(self.tokens, &scope, run.has_type, run.at) {
            return Ok(None);
        }
        self.external_behind(names, &scope, at, run)
    }

    /// What stands behind the specs, with what they declare in force: one token behind the first declarator tells which.
    fn external_behind(
        &self,
        names: &Typedefs<'_>,
        scope: &Typedefs<'_>,
        at: usize,
        run: ReadSpecs,
    ) -> Result<Option<ReadPart>, AllocError>
        requires order { (at < run.at) × (run.at ≤ length self.now.tokens.now) }
        requires small { self.now.budget < 1000 }
        requires high { run.height ≡ height (specs_tree (map raw_view run.specs)) }
        requires low { run.height ≤ self.now.budget }
        requires scope { scope.now.names ≡ trees.declared (specs_tree (map raw_view run.specs)) names.now.names }
        ensures { Parting self.now.tokens.now at (self.now.budget + 1) result (units.external_from (spec.reads self.now.budget) (units.reads_part self.now.budget) names.now.names (drop at self.now.tokens.now) (specs_tree (map raw_view run.specs)) (drop run.at self.now.tokens.now)) }
    {
        if begins_semicolon(self.tokens, run.at) {
            return self.declaration_behind(scope, at, run);
        }
        let Some(declarator) = read_declarator(self.alloc, self.tokens, scope, self.budget, run.at)?
        else {
            return Ok(None);
        };
        if !begins_function(self.tokens, declarator.at) {
            return self.declaration_behind(scope, at, run);
        }
        self.function(names, at, run, declarator)
    }

    /// A function's clauses and its block, or its clauses up to a semicolon.
    fn function(
        &self,
        names: &Typedefs<'_>,
        at: usize,
        run: ReadSpecs,
        declarator: Read,
    ) -> Result<Option<ReadPart>, AllocError>
        requires order { (at < declarator.at) × (declarator.at ≤ length self.now.tokens.now) }
        requires small { self.now.budget < 1000 }
        requires specs_high { run.height ≡ height (specs_tree (map raw_view run.specs)) }
        requires specs_low { run.height ≤ self.now.budget }
        requires high { declarator.height ≡ height (raw_view declarator.tree) }
        requires low { declarator.height ≤ self.now.budget }
        ensures { Parting self.now.tokens.now at (self.now.budget + 1) result (units.function (units.reads_part self.now.budget) names.now.names (drop at self.now.tokens.now) (specs_tree (map raw_view run.specs)) (raw_view declarator.tree) (drop declarator.at self.now.tokens.now)) }
    {
        let mut scope = Typedefs::within(self.alloc, names);
        declare_within_function(
            self.alloc,
            run.specs.as_slice(),
            declarator.tree.get(),
            &mut scope,
        )?;
        let Some(clauses) = self.function_clauses(&scope, declarator.at)? else {
            return Ok(None);
        };
        if opens_body(self.tokens, clauses.at) {
            return self.definition(&scope, at, run, declarator, clauses);
        }
        self.prototype(at, run, declarator, clauses)
    }

    /// The block of a function, with its names in force.
    fn definition(
        &self,
        names: &Typedefs<'_>,
        at: usize,
        run: ReadSpecs,
        declarator: Read,
        clauses: ReadParts,
    ) -> Result<Option<ReadPart>, AllocError>
        requires order { (at < clauses.at) × (clauses.at ≤ length self.now.tokens.now) }
        requires small { self.now.budget < 1000 }
        requires specs_high { run.height ≡ height (specs_tree (map raw_view run.specs)) }
        requires specs_low { run.height ≤ self.now.budget }
        requires high { declarator.height ≡ height (raw_view declarator.tree) }
        requires low { declarator.height ≤ self.now.budget }
        requires clauses_high { clauses.height ≡ height_of (clauses_part (map part_view clauses.parts)) }
        requires clauses_low { clauses.height ≤ self.now.budget }
        ensures { Parting self.now.tokens.now at (self.now.budget + 1) result (block_behind (units.reads_part self.now.budget) names.now.names (drop at self.now.tokens.now) (specs_tree (map raw_view run.specs)) (raw_view declarator.tree) (clauses_part (map part_view clauses.parts)) (drop clauses.at self.now.tokens.now)) }
    {
        let Some(block) = read_statement(self.alloc, self.tokens, names, self.budget, clauses.at)?
        else {
            return Ok(None);
        };
        if !is_block(block.part.get()) {
            return Ok(None);
        }
        let end = block.at;
        let height = higher(
            run.height,
            higher(declarator.height, higher(clauses.height, block.height)),
        ) + 1;
        let place = place(self.tokens, at, end);
        Ok(Some(ReadPart {
            part: Boxed::new(
                self.alloc,
                Part::Definition(run.specs, declarator.tree, clauses.parts, block.part, place),
            )?,
            height,
            at: end,
        }))
    }

    /// The semicolon behind a function's clauses, of which there is at least one.
    fn prototype(
        &self,
        at: usize,
        run: ReadSpecs,
        declarator: Read,
        clauses: ReadParts,
    ) -> Result<Option<ReadPart>, AllocError>
        requires order { (at < clauses.at) × (clauses.at ≤ length self.now.tokens.now) }
        requires small { self.now.budget < 1000 }
        requires specs_high { run.height ≡ height (specs_tree (map raw_view run.specs)) }
        requires specs_low { run.height ≤ self.now.budget }
        requires high { declarator.height ≡ height (raw_view declarator.tree) }
        requires low { declarator.height ≤ self.now.budget }
        requires clauses_high { clauses.height ≡ height_of (clauses_part (map part_view clauses.parts)) }
        requires clauses_low { clauses.height ≤ self.now.budget }
        ensures { Parting self.now.tokens.now at (self.now.budget + 1) result (units.clauses_end (units.reads_part self.now.budget) [] (drop at self.now.tokens.now) (specs_tree (map raw_view run.specs)) (raw_view declarator.tree) (clauses_part (map part_view clauses.parts)) (drop clauses.at self.now.tokens.now)) }
    {
        let height = higher(run.height, higher(declarator.height, clauses.height)) + 1;
        let end = clauses.at;
        let Some((first, more)) = first_clause(self.alloc, clauses.parts)? else {
            return Ok(None);
        };
        self.prototype_end(
            at,
            run,
            declarator,
            ReadClauses {
                first,
                more,
                height,
                at: end,
            },
        )
    }

    /// The semicolon behind a function's clauses.
    fn prototype_end(
        &self,
        at: usize,
        run: ReadSpecs,
        declarator: Read,
        clauses: ReadClauses,
    ) -> Result<Option<ReadPart>, AllocError>
        requires order { (at < clauses.at) × (clauses.at ≤ length self.now.tokens.now) }
        requires high { clauses.height ≡ height_of (parts.Prototype (specs_tree (map raw_view run.specs)) (raw_view declarator.tree) (part_view clauses.first) (clauses_part (map part_view clauses.more)) (record { last = 0; line = 0 })) }
        requires low { clauses.height ≤ self.now.budget + 1 }
        ensures { Parting self.now.tokens.now at (self.now.budget + 1) result (units.ended (drop at self.now.tokens.now) (drop clauses.at self.now.tokens.now) (parts.Prototype (specs_tree (map raw_view run.specs)) (raw_view declarator.tree) (part_view clauses.first) (clauses_part (map part_view clauses.more)))) }
    {
        let Some(Word::Marked(Mark::Semicolon)) = word(self.tokens, clauses.at) else {
            return Ok(None);
        };
        let end = clauses.at + 1;
        let place = place(self.tokens, at, end);
        Ok(Some(ReadPart {
            part: Boxed::new(
                self.alloc,
                Part::Prototype(
                    run.specs,
                    declarator.tree,
                    clauses.first,
                    clauses.more,
                    place,
                ),
            )?,
            height: clauses.height,
            at: end,
        }))
    }

    /// All declarations and definitions from the place on, up to the last token.
    pub fn externals(
        &self,
        names: &Typedefs<'_>,
        at: usize,
    ) -> Result<Option<ReadParts>, AllocError>
        requires within { at ≤ length self.now.tokens.now }
        requires small { self.now.budget < 1000 }
        ensures { PartsListing self.now.tokens.now at self.now.budget externals_part result (units.externals (units.reads_part self.now.budget) names.now.names (length (drop at self.now.tokens.now)) (drop at self.now.tokens.now)) }
    {
        let mut scope = Typedefs::within(self.alloc, names);
        let mut list = ReadParts {
            parts: Items::new(self.alloc),
            height: 0,
            at,
        };
        while list.at < self.tokens.len() {
            if !self.take_external(&mut scope, &mut list)? {
                return Ok(None);
            }
        }
        Ok(Some(list))
    }

    /// One more declaration or definition, with what it brings into force. Is there one?
    fn take_external(
        &self,
        scope: &mut Typedefs<'_>,
        list: &mut ReadParts,
    ) -> Result<bool, AllocError>
        requires within { list.old.at ≤ length self.now.tokens.now }
        requires small { self.now.budget < 1000 }
        ensures { DeclaringPart self.now.tokens.now list.old.at self.now.budget list.old list.new scope.new.names (λ a. parts.in_force_behind a scope.old.names) result (units.reads_part self.now.budget units.ExternalOf scope.old.names (drop list.old.at self.now.tokens.now)) }
    {
        let Some(external) = read_external(self.alloc, self.tokens, scope, self.budget, list.at)?
        else {
            return Ok(false);
        };
        external.part.get().declare(self.alloc, scope)?;
        push_part(external, list)?;
        Ok(true)
    }
}

/// A declaration or definition of at most this height.
fn read_external(
    alloc: Global,
    tokens: &[Token<'_>],
    names: &Typedefs<'_>,
    height: u64,
    at: usize,
) -> Result<Option<ReadPart>, AllocError>
    requires small { height < 1000 }
    ensures { Parting tokens.now at height result (units.reads_part height units.ExternalOf names.now.names (drop at tokens.now)) }
{
    if height == 0 {
        return Ok(None);
    }
    Level {
        alloc,
        tokens: &*tokens,
        budget: height - 1,
    }
    .external(names, at)
}

/// Whether a block or a clause begins at the place.
fn begins_function(tokens: &[Token<'_>], at: usize) -> bool
    ensures { result ≡ units.is_function (drop at tokens.now) }
{
    opens_body(tokens, at) || begins_clause(tokens, at)
}

/// `{ .. }`
fn is_block(part: &Part) -> bool
    ensures { result ≡ parts.is_block (part_view part.now) }
{
    matches!(part, Part::Block(..))
}

/// The first of clauses, and those after it.
fn first_clause(
    alloc: Global,
    clauses: Items<Part>,
) -> Result<Option<(Boxed<Part>, Items<Part>)>, AllocError>
    ensures { IfOk result (λ r. MatchOption r (clauses ≡ []) (λ c. clauses ≡ c.0 ∷ c.1)) }
{
    let mut more = clauses;
    if more.is_empty() {
        return Ok(None);
    }
    let first = Boxed::new(alloc, more.remove(0))?;
    Ok(Some((first, more)))
}
