// Declarations (C11 6.7).
ghost use Rattle.std.specs.Prelude.{◌≡◌, ◌<◌, ◌≤◌, ◌+◌, length, drop, map};
ghost use Rattle.dc_syntax.specs.Parts as parts;
ghost use Rattle.dc_syntax.specs.Parts.{height_of};
ghost use Rattle.dc_syntax.specs.Reading as spec;
ghost use Rattle.dc_syntax.specs.ReadingUnits as units;
ghost use Rattle.dc_syntax.specs.Trees.{height};
ghost use Rattle.dc_syntax.specs.UnitView.{part_view, declared_part, more_declared_part};
ghost use Rattle.dc_syntax.specs.View.{raw_view, specs_tree};
ghost use Rattle.dc_read_unit.specs.InitParts.{initialized_behind, declared_behind, declaration_behind, first_behind};
ghost use Rattle.dc_read_unit.specs.PartTaking.{DeclaringPart};
ghost use Rattle.dc_read_unit.specs.PartView.{Parting, PartsListing};

use crate::clauses::Level;
use crate::initializers::read_init;
use crate::read::{ReadPart, ReadParts, joined, push_part};
use dc_read_expr::{
    Read, ReadSpecs, begins_comma, behind, higher, leaves, place, read_declarator, read_specs, word,
};
use dc_syntax::{Mark, Part, Token, Typedefs, Word, declare_specs, has_tag, is_typedef};
use sqlite_items::{Boxed, Items};
use std::alloc::{AllocError, Global};

impl<'a, 'b> Level<'a, 'b> {
    /// A declarator, with an initializer or without.
    fn init_declarator(
        &self,
        names: &Typedefs<'_>,
        is_type: bool,
        at: usize,
    ) -> Result<Option<ReadPart>, AllocError>
        requires within { at ≤ length self.now.tokens.now }
        requires small { self.now.budget < 1000 }
        ensures { Parting self.now.tokens.now at self.now.budget result (units.init_decl (spec.reads self.now.budget) (units.reads_part self.now.budget) names.now.names is_type (drop at self.now.tokens.now)) }
    {
        let Some(declarator) = read_declarator(self.alloc, self.tokens, names, self.budget, at)?
        else {
            return Ok(None);
        };
        if let Some(Word::Marked(Mark::Equals)) = word(self.tokens, declarator.at) {
            return self.initialized(names, is_type, at, declarator);
        }
        let end = declarator.at;
        let height = declarator.height;
        let place = place(self.tokens, at, end);
        Ok(Some(ReadPart {
            part: Boxed::new(self.alloc, Part::Plain(declarator.tree, place))?,
            height,
            at: end,
        }))
    }

    /// The initializer behind a declarator, from the `=` on. The declared name is in force in it.
    fn initialized(
        &self,
        names: &Typedefs<'_>,
        is_type: bool,
        at: usize,
        declarator: Read,
    ) -> Result<Option<ReadPart>, AllocError>
        requires small { self.now.budget < 1000 }
        requires order { (at < declarator.at) × (declarator.at < length self.now.tokens.now) }
        requires high { declarator.height ≡ height (raw_view declarator.tree) }
        requires low { declarator.height ≤ self.now.budget }
        ensures { Parting self.now.tokens.now at self.now.budget result (initialized_behind (spec.reads self.now.budget) (units.reads_part self.now.budget) names.now.names is_type (drop at self.now.tokens.now) (raw_view declarator.tree) (drop (declarator.at + 1) self.now.tokens.now)) }
    {
        let mut scope = Typedefs::within(self.alloc, names);
        declarator
            .tree
            .get()
            .declare_name(self.alloc, is_type, &mut scope)?;
        let next = declarator.at + 1;
        let Some(init) = read_init(self.alloc, self.tokens, &scope, self.budget, next)? else {
            return Ok(None);
        };
        let end = init.at;
        let height = higher(declarator.height, init.height);
        let place = place(self.tokens, at, end);
        Ok(Some(ReadPart {
            part: Boxed::new(
                self.alloc,
                Part::Initialized(declarator.tree, init.part, place),
            )?,
            height,
            at: end,
        }))
    }

    /// The declarators behind the first, each behind a comma.
    fn more_declarators(
        &self,
        names: &Typedefs<'_>,
        is_type: bool,
        at: usize,
    ) -> Result<Option<ReadParts>, AllocError>
        requires within { at ≤ length self.now.tokens.now }
        requires small { self.now.budget < 1000 }
        ensures { PartsListing self.now.tokens.now at self.now.budget more_declared_part result (units.more_declared (spec.reads self.now.budget) (units.reads_part self.now.budget) names.now.names is_type (length (drop at self.now.tokens.now)) (drop at self.now.tokens.now)) }
    {
        let mut scope = Typedefs::within(self.alloc, names);
        let mut list = ReadParts {
            parts: Items::new(self.alloc),
            height: 0,
            at,
        };
        while begins_comma(self.tokens, list.at) {
            if !self.take_declarator(&mut scope, is_type, &mut list)? {
                return Ok(None);
            }
        }
        Ok(Some(list))
    }

    /// One more declarator, behind a comma, with its name in force. Is there one?
    fn take_declarator(
        &self,
        scope: &mut Typedefs<'_>,
        is_type: bool,
        list: &mut ReadParts,
    ) -> Result<bool, AllocError>
        requires within { list.old.at < length self.now.tokens.now }
        requires small { self.now.budget < 1000 }
        ensures { DeclaringPart self.now.tokens.now (list.old.at + 1) self.now.budget list.old list.new scope.new.names (λ a. parts.declaring is_type a scope.old.names) result (units.init_decl (spec.reads self.now.budget) (units.reads_part self.now.budget) scope.old.names is_type (drop (list.old.at + 1) self.now.tokens.now)) }
    {
        let next = behind(self.tokens, list.at);
        let Some(declarator) = self.init_declarator(scope, is_type, next)? else {
            return Ok(false);
        };
        declarator
            .part
            .get()
            .declare_as(self.alloc, is_type, scope)?;
        push_part(declarator, list)?;
        Ok(true)
    }

    /// The declarators up to a semicolon; there may be none.
    fn declarators(
        &self,
        names: &Typedefs<'_>,
        is_type: bool,
        at: usize,
    ) -> Result<Option<ReadParts>, AllocError>
        requires within { at ≤ length self.now.tokens.now }
        requires small { self.now.budget < 1000 }
        ensures { PartsListing self.now.tokens.now at self.now.budget declared_part result (units.some_declared (spec.reads self.now.budget) (units.reads_part self.now.budget) names.now.names is_type (drop at self.now.tokens.now)) }
    {
        if let Some(Word::Marked(Mark::Semicolon)) = word(self.tokens, at) {
            return Ok(Some(ReadParts {
                parts: Items::new(self.alloc),
                height: 0,
                at,
            }));
        }
        let Some(first) = self.init_declarator(names, is_type, at)? else {
            return Ok(None);
        };
        self.declarators_behind(names, is_type, at, first)
    }

    /// The first declarator with those behind it.
    fn declarators_behind(
        &self,
        names: &Typedefs<'_>,
        is_type: bool,
        at: usize,
        first: ReadPart,
    ) -> Result<Option<ReadParts>, AllocError>
        requires order { (at < first.at) × (first.at ≤ length self.now.tokens.now) }
        requires small { self.now.budget < 1000 }
        requires high { first.height ≡ height_of (part_view first.part) }
        requires low { first.height ≤ self.now.budget }
        ensures { PartsListing self.now.tokens.now at self.now.budget declared_part result (declared_behind (spec.reads self.now.budget) (units.reads_part self.now.budget) names.now.names is_type (part_view first.part) (drop first.at self.now.tokens.now)) }
    {
        let mut scope = Typedefs::within(self.alloc, names);
        first
            .part
            .get()
            .declare_as(self.alloc, is_type, &mut scope)?;
        let Some(more) = self.more_declarators(&scope, is_type, first.at)? else {
            return Ok(None);
        };
        let end = more.at;
        let height = higher(first.height, more.height);
        Ok(Some(ReadParts {
            parts: joined(self.alloc, first.part, more.parts)?,
            height,
            at: end,
        }))
    }

    /// What stands behind the specs of a declaration, with what they declare in force.
    pub fn declaration_behind(
        &self,
        names: &Typedefs<'_>,
        at: usize,
        run: ReadSpecs,
    ) -> Result<Option<ReadPart>, AllocError>
        requires order { (at < run.at) × (run.at ≤ length self.now.tokens.now) }
        requires small { self.now.budget < 1000 }
        requires high { run.height ≡ height (specs_tree (map raw_view run.specs)) }
        requires low { run.height ≤ self.now.budget }
        ensures { Parting self.now.tokens.now at (self.now.budget + 1) result (declaration_behind (spec.reads self.now.budget) (units.reads_part self.now.budget) names.now.names (drop at self.now.tokens.now) (specs_tree (map raw_view run.specs)) (drop run.at self.now.tokens.now)) }
    {
        let Some(list) = self.declarators(names, is_typedef(run.specs.as_slice()), run.at)? else {
            return Ok(None);
        };
        if list.parts.is_empty() && !has_tag(run.specs.as_slice()) {
            return Ok(None);
        }
        let Some(Word::Marked(Mark::Semicolon)) = word(self.tokens, list.at) else {
            return Ok(None);
        };
        let end = list.at + 1;
        let height = higher(run.height, list.height) + 1;
        let place = place(self.tokens, at, end);
        Ok(Some(ReadPart {
            part: Boxed::new(self.alloc, Part::Declaration(run.specs, list.parts, place))?,
            height,
            at: end,
        }))
    }

    /// A declaration.
    fn declaration(&self, names: &Typedefs<'_>, at: usize) -> Result<Option<ReadPart>, AllocError>
        requires small { self.now.budget < 1000 }
        ensures { Parting self.now.tokens.now at (self.now.budget + 1) result (units.declaration (spec.reads self.now.budget) (units.reads_part self.now.budget) self.now.budget names.now.names (drop at self.now.tokens.now)) }
    {
        let Some(run) = read_specs(self.alloc, self.tokens, names, self.budget, at)? else {
            return Ok(None);
        };
        let mut scope = Typedefs::within(self.alloc, names);
        declare_specs(self.alloc, run.specs.as_slice(), &mut scope)?;
        if !leaves(self.tokens, &scope, run.has_type, run.at) {
            return Ok(None);
        }
        self.declaration_behind(&scope, at, run)
    }

    /// A declaration at the front of a `for`, without its semicolon.
    fn first_declaration(
        &self,
        names: &Typedefs<'_>,
        at: usize,
    ) -> Result<Option<ReadPart>, AllocError>
        requires small { self.now.budget < 1000 }
        ensures { Parting self.now.tokens.now at (self.now.budget + 1) result (units.first_declaration (spec.reads self.now.budget) (units.reads_part self.now.budget) self.now.budget names.now.names (drop at self.now.tokens.now)) }
    {
        let Some(run) = read_specs(self.alloc, self.tokens, names, self.budget, at)? else {
            return Ok(None);
        };
        let mut scope = Typedefs::within(self.alloc, names);
        declare_specs(self.alloc, run.specs.as_slice(), &mut scope)?;
        if !leaves(self.tokens, &scope, run.has_type, run.at) {
            return Ok(None);
        }
        self.first_behind(&scope, at, run)
    }

    /// The declarators behind the specs at the front of a `for`.
    fn first_behind(
        &self,
        names: &Typedefs<'_>,
        at: usize,
        run: ReadSpecs,
    ) -> Result<Option<ReadPart>, AllocError>
        requires order { (at < run.at) × (run.at ≤ length self.now.tokens.now) }
        requires small { self.now.budget < 1000 }
        requires high { run.height ≡ height (specs_tree (map raw_view run.specs)) }
        requires low { run.height ≤ self.now.budget }
        ensures { Parting self.now.tokens.now at (self.now.budget + 1) result (first_behind (spec.reads self.now.budget) (units.reads_part self.now.budget) names.now.names (drop at self.now.tokens.now) (specs_tree (map raw_view run.specs)) (drop run.at self.now.tokens.now)) }
    {
        let is_type = is_typedef(run.specs.as_slice());
        let Some(first) = self.init_declarator(names, is_type, run.at)? else {
            return Ok(None);
        };
        let mut scope = Typedefs::within(self.alloc, names);
        first
            .part
            .get()
            .declare_as(self.alloc, is_type, &mut scope)?;
        let Some(more) = self.more_declarators(&scope, is_type, first.at)? else {
            return Ok(None);
        };
        let end = more.at;
        let height = higher(run.height, higher(first.height, more.height)) + 1;
        let place = place(self.tokens, at, end);
        Ok(Some(ReadPart {
            part: Boxed::new(
                self.alloc,
                Part::FirstDeclaration(run.specs, first.part, more.parts, place),
            )?,
            height,
            at: end,
        }))
    }
}

/// A declaration of at most this height.
pub fn read_declaration(
    alloc: Global,
    tokens: &[Token<'_>],
    names: &Typedefs<'_>,
    height: u64,
    at: usize,
) -> Result<Option<ReadPart>, AllocError>
    requires small { height < 1000 }
    ensures { Parting tokens.now at height result (units.reads_part height units.DeclarationOf names.now.names (drop at tokens.now)) }
{
    if height == 0 {
        return Ok(None);
    }
    Level {
        alloc,
        tokens: &*tokens,
        budget: height - 1,
    }
    .declaration(names, at)
}

/// A declaration at the front of a `for`, of at most this height.
pub fn read_first(
    alloc: Global,
    tokens: &[Token<'_>],
    names: &Typedefs<'_>,
    height: u64,
    at: usize,
) -> Result<Option<ReadPart>, AllocError>
    requires small { height < 1000 }
    ensures { Parting tokens.now at height result (units.reads_part height units.FirstOf names.now.names (drop at tokens.now)) }
{
    if height == 0 {
        return Ok(None);
    }
    Level {
        alloc,
        tokens: &*tokens,
        budget: height - 1,
    }
    .first_declaration(names, at)
}
