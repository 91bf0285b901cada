// Structs and enums (C11 6.7.2.1, 6.7.2.2).
ghost use Rattle.std.specs.Prelude.{◌≡◌, ◌<◌, ◌≤◌, ◌+◌, true, false, length, drop, map};
ghost use Rattle.dc_syntax.specs.Tokens.{Marked, struct_word, enum_word};
ghost use Rattle.dc_syntax.specs.declared.mark.Mark.TheVariants.{LeftBrace, RightBrace, Comma, Semicolon};
ghost use Rattle.dc_syntax.specs.Trees as trees;
ghost use Rattle.dc_syntax.specs.Trees.{height};
ghost use Rattle.dc_syntax.specs.View.{raw_view, members_tree, more_tree, specs_tree, tag_view};
ghost use Rattle.dc_syntax.specs.Reading as spec;
ghost use Rattle.dc_read_expr.specs.View.{Reading, Listing, IsNext, IsTag, closed_members};
ghost use Rattle.dc_read_expr.specs.Bodies.{behind_specs, behind_declarator, enumerators_behind};
ghost use Rattle.dc_read_expr.specs.Taking.{Taking};
ghost use Rattle.dc_read_expr.specs.Nests.{Nests};

use crate::lists::{Item, ReadItems, behind, list_end, push_read};
use crate::marks::{begins_semicolon, closes_body, opens_body};
use crate::read::{Grammar, Kind, Read, higher, place, word};
use crate::types::{ReadSpecs, leaves};
use dc_syntax::{Keyword, Mark, Raw, Tag, Token, Typedefs, Word, declare_specs};
use dc_text::Name;
use sqlite_items::{Boxed, Items};
use std::alloc::{AllocError, Global};

impl<
    'a,
    'b,
    F: Fn(
        Global,
        &[Token<'_>],
        &Typedefs<'_>,
        u64,
        Kind,
        usize,
    ) -> Result<Option<Read>, AllocError>,
> Grammar<'a, 'b, F> {
    /// A `struct` with braces, or with a name alone.
    pub fn struct_spec(&self, names: &Typedefs<'_>, at: usize) -> Result<Option<Read>, AllocError>
        requires nests { Nests self.now.budget (F.pre self.now.reader) (F.post self.now.reader) }
        requires small { self.now.budget < 1000 }
        requires begins { IsNext self.now.tokens.now at struct_word }
        ensures { Reading self.now.tokens.now at self.now.budget result (spec.spec (spec.reads self.now.budget) self.now.budget names.now.names false (drop at self.now.tokens.now)) }
    {
        let next = behind(self.tokens, at);
        if opens_body(self.tokens, next) {
            return self.struct_body(names, at, Tag::NoTag, 0, next);
        }
        let Some(Word::Named(name)) = word(self.tokens, next) else {
            return Ok(None);
        };
        if self.budget < 1 {
            return Ok(None);
        }
        let name = Name::copied(self.alloc, name)?;
        let end = behind(self.tokens, next);
        if opens_body(self.tokens, end) {
            let tag = Tag::Tagged(name, place(self.tokens, next, end));
            return self.struct_body(names, at, tag, 1, end);
        }
        Ok(Some(Read {
            tree: Boxed::new(
                self.alloc,
                Raw::StructTag(name, place(self.tokens, at, end)),
            )?,
            height: 1,
            at: end,
        }))
    }

    /// The members of a struct in its braces, from the opening one on.
    fn struct_body(
        &self,
        names: &Typedefs<'_>,
        at: usize,
        tag: Tag,
        tag_height: u64,
        brace: usize,
    ) -> Result<Option<Read>, AllocError>
        requires nests { Nests self.now.budget (F.pre self.now.reader) (F.post self.now.reader) }
        requires small { self.now.budget < 1000 }
        requires order { at < brace }
        requires opens { spec.begins (Marked LeftBrace) (drop brace self.now.tokens.now) ≡ true }
        requires tag { IsTag tag tag_height self.now.budget }
        ensures { Reading self.now.tokens.now at self.now.budget result (spec.struct_body (spec.reads self.now.budget) names.now.names (drop at self.now.tokens.now) (tag_view tag) (drop brace self.now.tokens.now)) }
    {
        let Some(members) = self.members(names, behind(self.tokens, brace))? else {
            return Ok(None);
        };
        Ok(Some(Read {
            tree: Boxed::new(
                self.alloc,
                Raw::StructBody(tag, members.items, place(self.tokens, at, members.at)),
            )?,
            height: higher(tag_height, members.height),
            at: members.at,
        }))
    }

    /// The members of a struct, up to the closing brace and with it.
    fn members(&self, names: &Typedefs<'_>, at: usize) -> Result<Option<ReadItems>, AllocError>
        requires nests { Nests self.now.budget (F.pre self.now.reader) (F.post self.now.reader) }
        requires small { self.now.budget < 1000 }
        requires within { at ≤ length self.now.tokens.now }
        ensures { Listing self.now.tokens.now at self.now.budget members_tree result (closed_members (spec.reads self.now.budget) names.now.names (length (drop at self.now.tokens.now)) (drop at self.now.tokens.now)) }
    {
        let mut scope = Typedefs::within(self.alloc, names);
        let mut list = ReadItems {
            items: Items::new(self.alloc),
            height: 0,
            at,
        };
        while !closes_body(self.tokens, list.at) {
            if !self.take_member(&mut scope, &mut list)? {
                return Ok(None);
            }
        }
        list.at = behind(self.tokens, list.at);
        Ok(Some(list))
    }

    /// One more member of a struct. Is there one?
    fn take_member(
        &self,
        scope: &mut Typedefs<'_>,
        list: &mut ReadItems,
    ) -> Result<bool, AllocError>
        requires nests { Nests self.now.budget (F.pre self.now.reader) (F.post self.now.reader) }
        requires within { list.old.at ≤ length self.now.tokens.now }
        ensures { Taking self.now.tokens.now list.old.at self.now.budget list.old list.new scope.old.names scope.new.names result (spec.reads self.now.budget spec.MemberOf scope.old.names (drop list.old.at self.now.tokens.now)) }
    {
        let Some(member) = self.below_in(scope, Kind::Member, list.at)? else {
            return Ok(false);
        };
        push_read(self.alloc, member, scope, list)?;
        Ok(true)
    }

    /// A member of a struct.
    pub fn member(&self, at: usize) -> Result<Option<Read>, AllocError>
        requires nests { Nests self.now.budget (F.pre self.now.reader) (F.post self.now.reader) }
        requires small { self.now.budget < 1000 }
        ensures { Reading self.now.tokens.now at (self.now.budget + 1) result (spec.member (spec.reads self.now.budget) self.now.budget self.now.names.now.names (drop at self.now.tokens.now)) }
    {
        let Some(read) = self.specs(self.names, at)? else {
            return Ok(None);
        };
        self.member_first(at, read)
    }

    /// The first declarator behind a member's specs, and what stands behind it.
    fn member_first(&self, at: usize, read: ReadSpecs) -> Result<Option<Read>, AllocError>
        requires nests { Nests self.now.budget (F.pre self.now.reader) (F.post self.now.reader) }
        requires small { self.now.budget < 1000 }
        requires order { (at < read.at) × (read.at ≤ length self.now.tokens.now) }
        requires high { read.height ≡ height (specs_tree (map raw_view read.specs)) }
        requires low { read.height ≤ self.now.budget }
        requires typed { read.has_type ≡ trees.has_type (specs_tree (map raw_view read.specs)) }
        ensures { Reading self.now.tokens.now at (self.now.budget + 1) result (behind_specs (spec.reads self.now.budget) self.now.names.now.names (drop at self.now.tokens.now) (specs_tree (map raw_view read.specs)) (drop read.at self.now.tokens.now)) }
    {
        let mut scope = Typedefs::within(self.alloc, self.names);
        declare_specs(self.alloc, read.specs.as_slice(), &mut scope)?;
        if !leaves(self.tokens, &scope, read.has_type, read.at) {
            return Ok(None);
        }
        let Some(first) = self.declarator_named(&scope, read.at)? else {
            return Ok(None);
        };
        self.member_more(&scope, at, read, first)
    }

    /// The declarators behind the first, and the semicolon.
    fn member_more(
        &self,
        names: &Typedefs<'_>,
        at: usize,
        read: ReadSpecs,
        first: Read,
    ) -> Result<Option<Read>, AllocError>
        requires nests { Nests self.now.budget (F.pre self.now.reader) (F.post self.now.reader) }
        requires small { self.now.budget < 1000 }
        requires order { (at < first.at) × (first.at ≤ length self.now.tokens.now) }
        requires specs_high { read.height ≡ height (specs_tree (map raw_view read.specs)) }
        requires specs_low { read.height ≤ self.now.budget }
        requires first_high { first.height ≡ height (raw_view first.tree) }
        requires first_low { first.height ≤ self.now.budget }
        ensures { Reading self.now.tokens.now at (self.now.budget + 1) result (behind_declarator (spec.reads self.now.budget) names.now.names (drop at self.now.tokens.now) (specs_tree (map raw_view read.specs)) (raw_view first.tree) (drop first.at self.now.tokens.now)) }
    {
        let Some(more) = self.more(Item::Declared, names, first.at)? else {
            return Ok(None);
        };
        if !begins_semicolon(self.tokens, more.at) {
            return Ok(None);
        }
        let end = behind(self.tokens, more.at);
        Ok(Some(Read {
            tree: Boxed::new(
                self.alloc,
                Raw::MemberDeclaration(
                    read.specs,
                    first.tree,
                    more.items,
                    place(self.tokens, at, end),
                ),
            )?,
            height: higher(read.height, higher(first.height, more.height)) + 1,
            at: end,
        }))
    }

    /// An `enum` with braces, or with a name alone.
    pub fn enum_spec(&self, names: &Typedefs<'_>, at: usize) -> Result<Option<Read>, AllocError>
        requires nests { Nests self.now.budget (F.pre self.now.reader) (F.post self.now.reader) }
        requires small { self.now.budget < 1000 }
        requires begins { IsNext self.now.tokens.now at enum_word }
        ensures { Reading self.now.tokens.now at self.now.budget result (spec.spec (spec.reads self.now.budget) self.now.budget names.now.names false (drop at self.now.tokens.now)) }
    {
        let next = behind(self.tokens, at);
        if opens_body(self.tokens, next) {
            return self.enum_body(names, at, Tag::NoTag, 0, next);
        }
        let Some(Word::Named(name)) = word(self.tokens, next) else {
            return Ok(None);
        };
        if self.budget < 1 {
            return Ok(None);
        }
        let name = Name::copied(self.alloc, name)?;
        let end = behind(self.tokens, next);
        if opens_body(self.tokens, end) {
            let tag = Tag::Tagged(name, place(self.tokens, next, end));
            return self.enum_body(names, at, tag, 1, end);
        }
        Ok(Some(Read {
            tree: Boxed::new(self.alloc, Raw::EnumTag(name, place(self.tokens, at, end)))?,
            height: 1,
            at: end,
        }))
    }

    /// The enumerators of an enum in its braces, from the opening one on.
    fn enum_body(
        &self,
        names: &Typedefs<'_>,
        at: usize,
        tag: Tag,
        tag_height: u64,
        brace: usize,
    ) -> Result<Option<Read>, AllocError>
        requires nests { Nests self.now.budget (F.pre self.now.reader) (F.post self.now.reader) }
        requires small { self.now.budget < 1000 }
        requires order { at < brace }
        requires opens { spec.begins (Marked LeftBrace) (drop brace self.now.tokens.now) ≡ true }
        requires tag { IsTag tag tag_height self.now.budget }
        ensures { Reading self.now.tokens.now at self.now.budget result (spec.enum_body (spec.reads self.now.budget) names.now.names (drop at self.now.tokens.now) (tag_view tag) (drop brace self.now.tokens.now)) }
    {
        let Some(first) = self.below_in(names, Kind::Enumerator, behind(self.tokens, brace))? else {
            return Ok(None);
        };
        self.enum_behind(names, at, tag, tag_height, first)
    }

    /// The enumerators behind the first, and the closing brace.
    fn enum_behind(
        &self,
        names: &Typedefs<'_>,
        at: usize,
        tag: Tag,
        tag_height: u64,
        first: Read,
    ) -> Result<Option<Read>, AllocError>
        requires nests { Nests self.now.budget (F.pre self.now.reader) (F.post self.now.reader) }
        requires small { self.now.budget < 1000 }
        requires order { (at < first.at) × (first.at ≤ length self.now.tokens.now) }
        requires tag { IsTag tag tag_height self.now.budget }
        requires high { first.height ≡ height (raw_view first.tree) }
        requires low { first.height ≤ self.now.budget }
        ensures { Reading self.now.tokens.now at self.now.budget result (enumerators_behind (spec.reads self.now.budget) names.now.names (drop at self.now.tokens.now) (tag_view tag) (raw_view first.tree) (drop first.at self.now.tokens.now)) }
    {
        let mut scope = Typedefs::within(self.alloc, names);
        first.tree.get().declare(self.alloc, &mut scope)?;
        let Some(more) = self.more(Item::Enumerator, &scope, first.at)? else {
            return Ok(None);
        };
        self.enum_ended(at, tag, tag_height, first, more)
    }

    /// The closing brace behind all enumerators.
    fn enum_ended(
        &self,
        at: usize,
        tag: Tag,
        tag_height: u64,
        first: Read,
        more: ReadItems,
    ) -> Result<Option<Read>, AllocError>
        requires order { (at < more.at) × (more.at ≤ length self.now.tokens.now) }
        requires tag { IsTag tag tag_height self.now.budget }
        requires first_high { first.height ≡ height (raw_view first.tree) }
        requires first_low { first.height ≤ self.now.budget }
        requires more_high { more.height ≡ height (more_tree trees.Enumerators (map raw_view more.items)) }
        requires more_low { more.height ≤ self.now.budget }
        ensures { Reading self.now.tokens.now at self.now.budget result (spec.enum_end self.now.names.now.names (drop at self.now.tokens.now) (tag_view tag) (raw_view first.tree) (more_tree trees.Enumerators (map raw_view more.items)) (drop more.at self.now.tokens.now)) }
    {
        let Some(end) = list_end(self.tokens, more.at) else {
            return Ok(None);
        };
        Ok(Some(Read {
            tree: Boxed::new(
                self.alloc,
                Raw::EnumBody(tag, first.tree, more.items, place(self.tokens, at, end)),
            )?,
            height: higher(tag_height, higher(first.height, more.height)),
            at: end,
        }))
    }

    /// An enumerator, with its value or without.
    pub fn enumerator(&self, at: usize) -> Result<Option<Read>, AllocError>
        requires nests { Nests self.now.budget (F.pre self.now.reader) (F.post self.now.reader) }
        requires small { self.now.budget < 1000 }
        ensures { Reading self.now.tokens.now at (self.now.budget + 1) result (spec.enumerator (spec.reads self.now.budget) self.now.budget self.now.names.now.names (drop at self.now.tokens.now)) }
    {
        if self.budget < 1 {
            return Ok(None);
        }
        let Some(Word::Named(name)) = word(self.tokens, at) else {
            return Ok(None);
        };
        let name = Name::copied(self.alloc, name)?;
        let behind = at + 1;
        let Some(Word::Marked(Mark::Equals)) = word(self.tokens, behind) else {
            return Ok(Some(Read {
                tree: Boxed::new(
                    self.alloc,
                    Raw::Enumerator(name, place(self.tokens, at, behind)),
                )?,
                height: 2,
                at: behind,
            }));
        };
        let Some(value) = self.below(Kind::Upto(15), behind + 1)? else {
            return Ok(None);
        };
        Ok(Some(Read {
            tree: Boxed::new(
                self.alloc,
                Raw::EnumeratorValue(name, value.tree, place(self.tokens, at, value.at)),
            )?,
            height: value.height + 1,
            at: value.at,
        }))
    }
}
