// Declarators and parameters (C11 6.7.6), and abstract ones (C11 6.7.7).
ghost use Rattle.std.specs.Prelude.{◌≡◌, ◌<◌, ◌≤◌, ◌+◌, suc, true, false, IfOk, OnSome, ◌&&◌, length, drop, map};
ghost use Rattle.dc_syntax.specs.Tokens.{Marked};
ghost use Rattle.dc_syntax.specs.declared.mark.Mark.TheVariants.{LeftParen, RightParen, LeftBracket, RightBracket, Star};
ghost use Rattle.dc_syntax.specs.Trees.{height};
ghost use Rattle.dc_syntax.specs.Trees as trees;
ghost use Rattle.dc_syntax.specs.View.{raw_view, more_tree, parameters_tree, specs_tree};
ghost use Rattle.dc_syntax.specs.Reading as spec;
ghost use Rattle.dc_read_expr.specs.View.{Reading, LooselyReading, IsLooseReading, Turning, Listing, Qualifying, IsNext};
ghost use Rattle.dc_read_expr.specs.Qualifiers.{NextQualifier};
ghost use Rattle.dc_read_expr.specs.ParameterLists.{IsParameterList};
ghost use Rattle.dc_read_expr.specs.Suffixes.{suffix_turns};
ghost use Rattle.dc_read_expr.specs.Taking.{Taking};
ghost use Rattle.dc_read_expr.specs.Nests.{Nests};

use crate::lists::{ReadItems, behind, has_more, joined, push_read};
use crate::marks::{closes, closes_length};
use crate::read::{Grammar, Kind, Read, Turn, higher, place, word};
use crate::types::begins_specs;
use crate::words::is_qualifier;
use dc_syntax::{Keyword, Mark, Raw, Token, Typedefs, Word};
use dc_text::Name;
use sqlite_items::{Boxed, Items};
use std::alloc::{AllocError, Global};

/// The qualifiers behind a star, and the place behind them.
#[derive(Drop)]
pub struct ReadQualifiers {
    pub keywords: Items<Keyword>,
    pub at: usize,
}

impl<
    'a,
    'b,
    F: Fn(
        Global,
        &[Token<'_>],
        &Typedefs<'_>,
        u64,
        Kind,
        usize,
    ) -> Result<Option<Read>, AllocError>,
> Grammar<'a, 'b, F> {
    /// Whether a declarator that has tokens stands at the place.
    fn begins_declarator(&self, at: usize) -> bool
        ensures { result ≡ spec.begins_declarator (drop at self.now.tokens.now) }
    {
        matches!(
            word(self.tokens, at),
            Some(Word::Named(_))
                | Some(Word::Marked(Mark::Star))
                | Some(Word::Marked(Mark::LeftParen))
                | Some(Word::Marked(Mark::LeftBracket))
        )
    }

    /// A declarator, which may have no token.
    pub fn declarator_or_none(
        &self,
        names: &Typedefs<'_>,
        at: usize,
    ) -> Result<Option<Read>, AllocError>
        requires nests { Nests self.now.budget (F.pre self.now.reader) (F.post self.now.reader) }
        requires small { self.now.budget < 1000 }
        requires within { at ≤ length self.now.tokens.now }
        ensures { LooselyReading self.now.tokens.now at self.now.budget result (spec.declarator_or_none (spec.reads self.now.budget) names.now.names (drop at self.now.tokens.now)) }
    {
        if self.begins_declarator(at) {
            return self.below_in(names, Kind::Declarator, at);
        }
        Ok(Some(Read {
            tree: Boxed::new(self.alloc, Raw::Nameless)?,
            height: 0,
            at,
        }))
    }

    /// A declarator with a name.
    pub fn declarator_named(
        &self,
        names: &Typedefs<'_>,
        at: usize,
    ) -> Result<Option<Read>, AllocError>
        requires nests { Nests self.now.budget (F.pre self.now.reader) (F.post self.now.reader) }
        requires small { self.now.budget < 1000 }
        requires within { at ≤ length self.now.tokens.now }
        ensures { Reading self.now.tokens.now at self.now.budget result (spec.declarator_named (spec.reads self.now.budget) names.now.names (drop at self.now.tokens.now)) }
    {
        let Some(read) = self.below_in(names, Kind::Declarator, at)? else {
            return Ok(None);
        };
        if is_named(read.tree.get()) {
            return Ok(Some(read));
        }
        Ok(None)
    }

    /// `const` and `restrict`.
    fn qualified(&self, at: usize) -> Result<ReadQualifiers, AllocError>
        requires within { at ≤ length self.now.tokens.now }
        ensures { Qualifying self.now.tokens.now at result }
    {
        let mut keywords = Items::new(self.alloc);
        let mut end = at;
        while let Some(keyword) = self.qualifier(end) {
            keywords.push(keyword)?;
            end = behind(self.tokens, end);
        }
        Ok(ReadQualifiers { keywords, at: end })
    }

    /// The qualifier at the place.
    fn qualifier(&self, at: usize) -> Option<Keyword>
        ensures next { NextQualifier self.now.tokens.now at result }
        ensures within { OnSome result (at < length self.now.tokens.now) }
    {
        match word(self.tokens, at) {
            Some(Word::Reserved(keyword)) if is_qualifier(keyword) => Some(keyword),
            _ => None,
        }
    }

    /// A star with its qualifiers, and the declarator behind them.
    fn pointer(&self, at: usize) -> Result<Option<Read>, AllocError>
        requires nests { Nests self.now.budget (F.pre self.now.reader) (F.post self.now.reader) }
        requires small { self.now.budget < 1000 }
        requires begins { IsNext self.now.tokens.now at (Marked Star) }
        ensures { LooselyReading self.now.tokens.now at (self.now.budget + 1) result (spec.declarator (spec.reads self.now.budget) self.now.budget self.now.names.now.names (drop at self.now.tokens.now)) }
    {
        let qualified = self.qualified(at + 1)?;
        let Some(inner) = self.declarator_or_none(self.names, qualified.at)? else {
            return Ok(None);
        };
        let end = inner.at;
        Ok(Some(Read {
            tree: Boxed::new(
                self.alloc,
                Raw::Pointer(qualified.keywords, inner.tree, place(self.tokens, at, end)),
            )?,
            height: inner.height + 1,
            at: end,
        }))
    }

    /// A name, a declarator in parentheses, or nothing.
    fn direct(&self, at: usize) -> Result<Option<Read>, AllocError>
        requires nests { Nests self.now.budget (F.pre self.now.reader) (F.post self.now.reader) }
        requires small { self.now.budget < 1000 }
        requires within { at ≤ length self.now.tokens.now }
        ensures { LooselyReading self.now.tokens.now at (self.now.budget + 1) result (spec.direct (spec.reads self.now.budget) self.now.names.now.names (drop at self.now.tokens.now)) }
    {
        match word(self.tokens, at) {
            Some(Word::Named(name)) => Ok(Some(Read {
                tree: Boxed::new(
                    self.alloc,
                    Raw::DeclaredName(
                        Name::copied(self.alloc, name)?,
                        place(self.tokens, at, at + 1),
                    ),
                )?,
                height: 1,
                at: at + 1,
            })),
            Some(Word::Marked(Mark::LeftParen)) if self.opens(at + 1) => self.wrapped(at),
            _ => Ok(Some(Read {
                tree: Boxed::new(self.alloc, Raw::Nameless)?,
                height: 0,
                at,
            })),
        }
    }

    /// Whether a parenthesis before the place opens a declarator.
    fn opens(&self, at: usize) -> bool
        ensures { result ≡ spec.opens self.now.names.now.names (drop at self.now.tokens.now) }
    {
        if let Some(Word::Marked(Mark::RightParen)) = word(self.tokens, at) {
            return false;
        }
        !begins_specs(self.tokens, self.names, at)
    }

    /// A declarator in parentheses.
    fn wrapped(&self, at: usize) -> Result<Option<Read>, AllocError>
        requires nests { Nests self.now.budget (F.pre self.now.reader) (F.post self.now.reader) }
        requires small { self.now.budget < 1000 }
        requires begins { IsNext self.now.tokens.now at (Marked LeftParen) }
        requires opens { spec.opens self.now.names.now.names (drop (at + 1) self.now.tokens.now) ≡ true }
        ensures { LooselyReading self.now.tokens.now at (self.now.budget + 1) result (spec.direct (spec.reads self.now.budget) self.now.names.now.names (drop at self.now.tokens.now)) }
    {
        let Some(inner) = self.below(Kind::Declarator, at + 1)? else {
            return Ok(None);
        };
        if is_nameless(inner.tree.get()) {
            return Ok(None);
        }
        let Some(Word::Marked(Mark::RightParen)) = word(self.tokens, inner.at) else {
            return Ok(None);
        };
        let end = inner.at + 1;
        Ok(Some(Read {
            tree: Boxed::new(
                self.alloc,
                Raw::Wrapped(inner.tree, place(self.tokens, at, end)),
            )?,
            height: inner.height + 1,
            at: end,
        }))
    }

    /// Brackets behind a declarator.
    fn length_behind(&self, at: usize, before: Read) -> Result<Turn, AllocError>
        requires nests { Nests self.now.budget (F.pre self.now.reader) (F.post self.now.reader) }
        requires small { self.now.budget < 1000 }
        requires begins { IsNext self.now.tokens.now before.at (Marked LeftBracket) }
        requires within { (at ≤ before.at) × (before.at ≤ length self.now.tokens.now) }
        requires high { before.height ≡ height (raw_view before.tree) }
        requires low { before.height ≤ self.now.budget }
        ensures { Turning self.now.tokens.now at (self.now.budget + 1) before result (spec.suffix_one (spec.reads self.now.budget) self.now.budget self.now.names.now.names (drop at self.now.tokens.now) (raw_view before.tree) (drop before.at self.now.tokens.now)) }
    {
        if closes_length(self.tokens, behind(self.tokens, before.at)) {
            return self.unsized_behind(at, before);
        }
        self.sized_behind(at, before)
    }

    /// Brackets with nothing in them.
    fn unsized_behind(&self, at: usize, before: Read) -> Result<Turn, AllocError>
        requires nests { Nests self.now.budget (F.pre self.now.reader) (F.post self.now.reader) }
        requires small { self.now.budget < 1000 }
        requires begins { IsNext self.now.tokens.now before.at (Marked LeftBracket) }
        requires closed { spec.begins (Marked RightBracket) (drop (before.at + 1) self.now.tokens.now) ≡ true }
        requires within { (at ≤ before.at) × (before.at ≤ length self.now.tokens.now) }
        requires high { before.height ≡ height (raw_view before.tree) }
        requires low { before.height ≤ self.now.budget }
        ensures { Turning self.now.tokens.now at (self.now.budget + 1) before result (spec.suffix_one (spec.reads self.now.budget) self.now.budget self.now.names.now.names (drop at self.now.tokens.now) (raw_view before.tree) (drop before.at self.now.tokens.now)) }
    {
        let Some(Word::Marked(Mark::RightBracket)) = word(self.tokens, before.at + 1) else {
            return Ok(Turn::Done(before));
        };
        let end = before.at + 1 + 1;
        Ok(Turn::More(Read {
            tree: Boxed::new(
                self.alloc,
                Raw::Unsized(before.tree, place(self.tokens, at, end)),
            )?,
            height: before.height + 1,
            at: end,
        }))
    }

    /// A length in brackets.
    fn sized_behind(&self, at: usize, before: Read) -> Result<Turn, AllocError>
        requires nests { Nests self.now.budget (F.pre self.now.reader) (F.post self.now.reader) }
        requires small { self.now.budget < 1000 }
        requires begins { IsNext self.now.tokens.now before.at (Marked LeftBracket) }
        requires open_yet { spec.begins (Marked RightBracket) (drop (before.at + 1) self.now.tokens.now) ≡ false }
        requires within { (at ≤ before.at) × (before.at ≤ length self.now.tokens.now) }
        requires high { before.height ≡ height (raw_view before.tree) }
        requires low { before.height ≤ self.now.budget }
        ensures { Turning self.now.tokens.now at (self.now.budget + 1) before result (spec.suffix_one (spec.reads self.now.budget) self.now.budget self.now.names.now.names (drop at self.now.tokens.now) (raw_view before.tree) (drop before.at self.now.tokens.now)) }
    {
        let Some(length) = self.below(Kind::Upto(15), before.at + 1)? else {
            return Ok(Turn::Done(before));
        };
        let Some(Word::Marked(Mark::RightBracket)) = word(self.tokens, length.at) else {
            return Ok(Turn::Done(before));
        };
        let end = length.at + 1;
        Ok(Turn::More(Read {
            tree: Boxed::new(
                self.alloc,
                Raw::Sized(before.tree, length.tree, place(self.tokens, at, end)),
            )?,
            height: higher(before.height, length.height) + 1,
            at: end,
        }))
    }

    /// Parameters behind a declarator.
    fn parameters_behind(&self, at: usize, before: Read) -> Result<Turn, AllocError>
        requires nests { Nests self.now.budget (F.pre self.now.reader) (F.post self.now.reader) }
        requires small { self.now.budget < 1000 }
        requires begins { IsNext self.now.tokens.now before.at (Marked LeftParen) }
        requires within { (at ≤ before.at) × (before.at ≤ length self.now.tokens.now) }
        requires high { before.height ≡ height (raw_view before.tree) }
        requires low { before.height ≤ self.now.budget }
        ensures { Turning self.now.tokens.now at (self.now.budget + 1) before result (spec.suffix_one (spec.reads self.now.budget) self.now.budget self.now.names.now.names (drop at self.now.tokens.now) (raw_view before.tree) (drop before.at self.now.tokens.now)) }
    {
        let Some(parameters) = self.parameters(before.at + 1)? else {
            return Ok(Turn::Done(before));
        };
        let Some(Word::Marked(Mark::RightParen)) = word(self.tokens, parameters.at) else {
            return Ok(Turn::Done(before));
        };
        let end = parameters.at + 1;
        Ok(Turn::More(Read {
            tree: Boxed::new(
                self.alloc,
                Raw::Function(before.tree, parameters.items, place(self.tokens, at, end)),
            )?,
            height: higher(before.height, parameters.height) + 1,
            at: end,
        }))
    }

    /// Brackets or parentheses behind a declarator.
    fn suffix_one(&self, at: usize, before: Read) -> Result<Turn, AllocError>
        requires nests { Nests self.now.budget (F.pre self.now.reader) (F.post self.now.reader) }
        requires small { self.now.budget < 1000 }
        requires within { (at ≤ before.at) × (before.at ≤ length self.now.tokens.now) }
        requires high { before.height ≡ height (raw_view before.tree) }
        requires low { before.height ≤ self.now.budget }
        ensures { Turning self.now.tokens.now at (self.now.budget + 1) before result (spec.suffix_one (spec.reads self.now.budget) self.now.budget self.now.names.now.names (drop at self.now.tokens.now) (raw_view before.tree) (drop before.at self.now.tokens.now)) }
    {
        match word(self.tokens, before.at) {
            Some(Word::Marked(Mark::LeftBracket)) => self.length_behind(at, before),
            Some(Word::Marked(Mark::LeftParen)) => self.parameters_behind(at, before),
            _ => Ok(Turn::Done(before)),
        }
    }

    /// The lengths and parameters behind a declarator.
    fn suffixes(&self, at: usize, first: Read) -> Result<Read, AllocError>
        requires nests { Nests self.now.budget (F.pre self.now.reader) (F.post self.now.reader) }
        requires small { self.now.budget < 1000 }
        requires within { (at ≤ first.at) × (first.at ≤ length self.now.tokens.now) }
        requires high { first.height ≡ height (raw_view first.tree) }
        requires low { first.height ≤ self.now.budget + 1 }
        ensures { IfOk result (λ r. IsLooseReading self.now.tokens.now at (self.now.budget + 1) r (suffix_turns (spec.reads self.now.budget) self.now.budget self.now.names.now.names (drop at self.now.tokens.now) (raw_view first.tree) (drop first.at self.now.tokens.now))) }
    {
        let mut read = first;
        while read.height <= self.budget {
            match self.suffix_one(at, read)? {
                Turn::More(more) => read = more,
                Turn::Done(done) => return Ok(done),
            }
        }
        Ok(read)
    }

    /// A declarator, abstract or with its name.
    pub fn declarator(&self, at: usize) -> Result<Option<Read>, AllocError>
        requires nests { Nests self.now.budget (F.pre self.now.reader) (F.post self.now.reader) }
        requires small { self.now.budget < 1000 }
        requires within { at ≤ length self.now.tokens.now }
        ensures { LooselyReading self.now.tokens.now at (self.now.budget + 1) result (spec.declarator (spec.reads self.now.budget) self.now.budget self.now.names.now.names (drop at self.now.tokens.now)) }
    {
        match word(self.tokens, at) {
            Some(Word::Marked(Mark::Star)) => self.pointer(at),
            _ => self.unpointed(at),
        }
    }

    /// A declarator without a star.
    fn unpointed(&self, at: usize) -> Result<Option<Read>, AllocError>
        requires nests { Nests self.now.budget (F.pre self.now.reader) (F.post self.now.reader) }
        requires small { self.now.budget < 1000 }
        requires within { at ≤ length self.now.tokens.now }
        requires plain { spec.begins (Marked Star) (drop at self.now.tokens.now) ≡ false }
        ensures { LooselyReading self.now.tokens.now at (self.now.budget + 1) result (spec.declarator (spec.reads self.now.budget) self.now.budget self.now.names.now.names (drop at self.now.tokens.now)) }
    {
        let Some(first) = self.direct(at)? else {
            return Ok(None);
        };
        Ok(Some(self.suffixes(at, first)?))
    }

    /// A parameter.
    pub fn parameter(&self, names: &Typedefs<'_>, at: usize) -> Result<Option<Read>, AllocError>
        requires nests { Nests self.now.budget (F.pre self.now.reader) (F.post self.now.reader) }
        requires small { self.now.budget < 1000 }
        ensures { Reading self.now.tokens.now at self.now.budget result (spec.parameter (spec.reads self.now.budget) self.now.budget names.now.names (drop at self.now.tokens.now)) }
    {
        let Some(read) = self.bare(names, at)? else {
            return Ok(None);
        };
        let Some(declarator) = self.declarator_or_none(names, read.at)? else {
            return Ok(None);
        };
        let end = declarator.at;
        Ok(Some(Read {
            tree: Boxed::new(
                self.alloc,
                Raw::Parameter(read.specs, declarator.tree, place(self.tokens, at, end)),
            )?,
            height: higher(read.height, declarator.height),
            at: end,
        }))
    }

    /// The parameters behind the first, each behind a comma.
    fn more_parameters(
        &self,
        names: &Typedefs<'_>,
        at: usize,
    ) -> Result<Option<ReadItems>, AllocError>
        requires nests { Nests self.now.budget (F.pre self.now.reader) (F.post self.now.reader) }
        requires small { self.now.budget < 1000 }
        requires within { at ≤ length self.now.tokens.now }
        ensures { Listing self.now.tokens.now at self.now.budget (more_tree trees.Parameters) result (spec.more (spec.parameter (spec.reads self.now.budget) self.now.budget) trees.Parameters names.now.names (length (drop at self.now.tokens.now)) (drop at self.now.tokens.now)) }
    {
        let mut scope = Typedefs::within(self.alloc, names);
        let mut list = ReadItems {
            items: Items::new(self.alloc),
            height: 0,
            at,
        };
        while has_more(self.tokens, list.at) {
            if !self.take_parameter(&mut scope, &mut list)? {
                return Ok(None);
            }
        }
        Ok(Some(list))
    }

    /// One more parameter, behind a comma. Is there one?
    fn take_parameter(
        &self,
        scope: &mut Typedefs<'_>,
        list: &mut ReadItems,
    ) -> Result<bool, AllocError>
        requires nests { Nests self.now.budget (F.pre self.now.reader) (F.post self.now.reader) }
        requires small { self.now.budget < 1000 }
        requires within { list.old.at < length self.now.tokens.now }
        ensures { Taking self.now.tokens.now (list.old.at + 1) self.now.budget list.old list.new scope.old.names scope.new.names result (spec.parameter (spec.reads self.now.budget) self.now.budget scope.old.names (drop (list.old.at + 1) self.now.tokens.now)) }
    {
        let Some(member) = self.parameter(scope, behind(self.tokens, list.at))? else {
            return Ok(false);
        };
        push_read(self.alloc, member, scope, list)?;
        Ok(true)
    }

    /// The parameters up to the closing parenthesis. `void` alone is no parameter.
    fn parameters(&self, at: usize) -> Result<Option<ReadItems>, AllocError>
        requires nests { Nests self.now.budget (F.pre self.now.reader) (F.post self.now.reader) }
        requires small { self.now.budget < 1000 }
        requires within { at ≤ length self.now.tokens.now }
        ensures { Listing self.now.tokens.now at self.now.budget parameters_tree result (spec.parameters (spec.reads self.now.budget) self.now.budget self.now.names.now.names (drop at self.now.tokens.now)) }
    {
        if closes(self.tokens, at) {
            return Ok(Some(ReadItems {
                items: Items::new(self.alloc),
                height: 0,
                at,
            }));
        }
        let Some(first) = self.parameter(self.names, at)? else {
            return Ok(None);
        };
        let mut scope = Typedefs::within(self.alloc, self.names);
        first.tree.get().declare(self.alloc, &mut scope)?;
        let Some(more) = self.more_parameters(&scope, first.at)? else {
            return Ok(None);
        };
        Ok(Some(parameter_list(self.alloc, first, more)?))
    }
}

/// The first parameter and those behind it. `void` alone is no parameter.
fn parameter_list(alloc: Global, first: Read, more: ReadItems) -> Result<ReadItems, AllocError>
    requires first_high { first.height ≡ height (raw_view first.tree) }
    requires more_high { more.height ≡ height (more_tree trees.Parameters (map raw_view more.items)) }
    ensures { IfOk result (λ r. IsParameterList first more r) }
{
    if is_lone(first.tree.get(), &more.items) {
        return Ok(more);
    }
    let height = higher(first.height, more.height);
    let at = more.at;
    let items = joined(alloc, first.tree, more.items)?;
    Ok(ReadItems { items, height, at })
}

/// Is `void` the only parameter?
fn is_lone(first: &Raw, more: &Items<Raw>) -> bool
    ensures { result ≡ (trees.is_void_parameter (raw_view first.now) && trees.is_no_more (more_tree trees.Parameters (map raw_view more.now))) }
{
    is_void_parameter(first) && is_no_more(more.as_slice())
}

/// Is it the empty list?
fn is_no_more(more: &[Raw]) -> bool
    ensures { result ≡ trees.is_no_more (more_tree trees.Parameters (map raw_view more.now)) }
{
    match more {
        [] => true,
        _ => false,
    }
}

/// The parameter that is only `void`.
fn is_void_parameter(parameter: &Raw) -> bool
    ensures { result ≡ trees.is_void_parameter (raw_view parameter.now) }
{
    match parameter {
        Raw::Parameter(specs, declarator, _) => {
            is_lone_void(specs.as_slice()) && is_nameless(declarator.get())
        }
        _ => false,
    }
}

/// The specs that are only `void`.
fn is_lone_void(specs: &[Raw]) -> bool
    ensures { result ≡ trees.is_lone_void (specs_tree (map raw_view specs.now)) }
{
    match specs {
        [spec] => is_void_spec(spec),
        _ => false,
    }
}

/// `void`
fn is_void_spec(spec: &Raw) -> bool
    ensures { result ≡ trees.is_void_spec (raw_view spec.now) }
{
    match spec {
        Raw::SpecWord(keyword, _) => matches!(keyword, Keyword::Void),
        _ => false,
    }
}

/// A declarator with a name.
pub fn is_named(declarator: &Raw) -> bool
    ensures { result ≡ trees.is_named (raw_view declarator.now) }
{
    declarator.declared_name().is_some()
}

/// A declarator that has no token.
fn is_nameless(declarator: &Raw) -> bool
    ensures { result ≡ trees.is_nameless (raw_view declarator.now) }
{
    matches!(declarator, Raw::Nameless)
}
