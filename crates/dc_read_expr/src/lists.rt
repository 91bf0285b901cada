// Lists whose members stand with commas between them.
ghost use Rattle.std.specs.Prelude.{◌≡◌, ◌∷◌, IfOk, OnOk, ◌<◌, ◌≤◌, ◌+◌, length, drop, map};
ghost use Rattle.dc_syntax.specs.View.{raw_view, arguments_tree, more_tree};
ghost use Rattle.dc_syntax.specs.Reading as spec;
ghost use Rattle.dc_read_expr.specs.View.{Reading, Listing, Ending, item_view, one_of};
ghost use Rattle.dc_read_expr.specs.Taking.{Taking, IsPushed};
ghost use Rattle.dc_read_expr.specs.Nests.{Nests};

use crate::marks::{begins_comma, closes_body};
use crate::read::{Grammar, Kind, Read, higher, word};
use dc_syntax::{Mark, Raw, Token, Typedefs, Word};
use sqlite_items::{Boxed, Items};
use std::alloc::{AllocError, Global};

/// What a list with commas has as members, parameters aside.
#[derive(Clone, Copy)]
pub enum Item {
    Assigned,
    Condition,
    Declared,
    Enumerator,
}

/// What was read of a list, its height, and the place behind it.
#[derive(Drop)]
pub struct ReadItems {
    pub items: Items<Raw>,
    pub height: u64,
    pub at: usize,
}

impl<
    'a,
    'b,
    F: Fn(
        Global,
        &[Token<'_>],
        &Typedefs<'_>,
        u64,
        Kind,
        usize,
    ) -> Result<Option<Read>, AllocError>,
> Grammar<'a, 'b, F> {
    /// One member.
    fn one(&self, item: Item, names: &Typedefs<'_>, at: usize) -> Result<Option<Read>, AllocError>
        requires nests { Nests self.now.budget (F.pre self.now.reader) (F.post self.now.reader) }
        requires small { self.now.budget < 1000 }
        requires within { at ≤ length self.now.tokens.now }
        ensures { Reading self.now.tokens.now at self.now.budget result (one_of (spec.reads self.now.budget) self.now.budget (item_view item) names.now.names (drop at self.now.tokens.now)) }
    {
        match item {
            Item::Assigned => self.below_in(names, Kind::Upto(16), at),
            Item::Condition => self.below_in(names, Kind::Upto(15), at),
            Item::Declared => self.declarator_named(names, at),
            Item::Enumerator => self.below_in(names, Kind::Enumerator, at),
        }
    }

    /// The members behind the first, each behind a comma.
    pub fn more(
        &self,
        item: Item,
        names: &Typedefs<'_>,
        at: usize,
    ) -> Result<Option<ReadItems>, AllocError>
        requires nests { Nests self.now.budget (F.pre self.now.reader) (F.post self.now.reader) }
        requires small { self.now.budget < 1000 }
        requires within { at ≤ length self.now.tokens.now }
        ensures { Listing self.now.tokens.now at self.now.budget (more_tree (item_view item)) result (spec.more (one_of (spec.reads self.now.budget) self.now.budget (item_view item)) (item_view item) names.now.names (length (drop at self.now.tokens.now)) (drop at self.now.tokens.now)) }
    {
        let mut scope = Typedefs::within(self.alloc, names);
        let mut list = ReadItems {
            items: Items::new(self.alloc),
            height: 0,
            at,
        };
        while has_more(self.tokens, list.at) {
            if !self.take_one(item, &mut scope, &mut list)? {
                return Ok(None);
            }
        }
        Ok(Some(list))
    }

    /// One more member of a list, behind a comma. Is there one?
    fn take_one(
        &self,
        item: Item,
        scope: &mut Typedefs<'_>,
        list: &mut ReadItems,
    ) -> Result<bool, AllocError>
        requires nests { Nests self.now.budget (F.pre self.now.reader) (F.post self.now.reader) }
        requires small { self.now.budget < 1000 }
        requires within { list.old.at < length self.now.tokens.now }
        ensures { Taking self.now.tokens.now (list.old.at + 1) self.now.budget list.old list.new scope.old.names scope.new.names result (one_of (spec.reads self.now.budget) self.now.budget (item_view item) scope.old.names (drop (list.old.at + 1) self.now.tokens.now)) }
    {
        let Some(member) = self.one(item, scope, behind(self.tokens, list.at))? else {
            return Ok(false);
        };
        push_read(self.alloc, member, scope, list)?;
        Ok(true)
    }

    /// The arguments of a call, up to the closing parenthesis.
    pub fn arguments(&self, at: usize) -> Result<Option<ReadItems>, AllocError>
        requires nests { Nests self.now.budget (F.pre self.now.reader) (F.post self.now.reader) }
        requires small { self.now.budget < 1000 }
        requires within { at ≤ length self.now.tokens.now }
        ensures { Listing self.now.tokens.now at self.now.budget arguments_tree result (spec.arguments (spec.reads self.now.budget) self.now.names.now.names (drop at self.now.tokens.now)) }
    {
        if let Some(Word::Marked(Mark::RightParen)) = word(self.tokens, at) {
            return Ok(Some(ReadItems {
                items: Items::new(self.alloc),
                height: 0,
                at,
            }));
        }
        let Some(first) = self.below(Kind::Upto(16), at)? else {
            return Ok(None);
        };
        let Some(more) = self.more(Item::Assigned, self.names, first.at)? else {
            return Ok(None);
        };
        let height = higher(first.height, more.height);
        let at = more.at;
        Ok(Some(ReadItems {
            items: joined(self.alloc, first.tree, more.items)?,
            height,
            at,
        }))
    }
}

/// A comma, and no closing brace behind it.
pub fn has_more(tokens: &[Token<'_>], at: usize) -> bool
    ensures { result ≡ spec.has_more (drop at tokens.now) }
{
    let Some(Word::Marked(Mark::Comma)) = word(tokens, at) else {
        return false;
    };
    !matches!(word(tokens, at + 1), Some(Word::Marked(Mark::RightBrace)))
}

/// The place behind a closing brace, before which a comma may stand.
pub fn list_end(tokens: &[Token<'_>], at: usize) -> Option<usize>
    ensures { Ending tokens.now at result }
{
    if begins_comma(tokens, at) {
        let brace = behind(tokens, at);
        if !closes_body(tokens, brace) {
            return None;
        }
        return Some(behind(tokens, brace));
    }
    if !closes_body(tokens, at) {
        return None;
    }
    Some(behind(tokens, at))
}

/// The place behind a token.
pub fn behind(tokens: &[Token<'_>], at: usize) -> usize
    requires within { at < length tokens.now }
    ensures { result ≡ at + 1 }
{
    at + 1
}

/// A first member before the others.
pub fn joined(alloc: Global, first: Boxed<Raw>, more: Items<Raw>) -> Result<Items<Raw>, AllocError>
    ensures { IfOk result (λ all. all ≡ first ∷ more) }
{
    let mut all = Items::new(alloc);
    all.push(first.into_inner())?;
    all.append(more)?;
    Ok(all)
}

/// One more tree in a list, with what it declares in force.
pub fn push_read(
    alloc: Global,
    member: Read,
    scope: &mut Typedefs<'_>,
    list: &mut ReadItems,
) -> Result<(), AllocError>
    ensures { OnOk result (IsPushed member list.old list.new scope.old.names scope.new.names) }
{
    member.tree.get().declare(alloc, scope)?;
    list.items.push(member.tree.into_inner())?;
    list.height = higher(list.height, member.height);
    list.at = member.at;
    Ok(())
}
