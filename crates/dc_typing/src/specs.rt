// The types that specs give (C11 6.7.2, 6.7.3).
ghost use Rattle.std.specs.Prelude.{◌≡◌, IfOk, List, map, fold};
ghost use Rattle.std.specs.Option.{option_copied, option_map};
ghost use Rattle.dc_layout.specs.Types.{type_view};
ghost use Rattle.dc_scope.specs.Entities.{entity_view};
ghost use Rattle.dc_syntax.specs.View.{raw_view, specs_tree};
ghost use Rattle.dc_typing.specs.Answers.{Answers};
ghost use Rattle.dc_typing.specs.TypeNames as spec;
ghost use Rattle.dc_typing.specs.View.{known};

use crate::judge::Judge;
use crate::refusal::{Refusal, broken};
use crate::words::{Words, how_often, words_of};
use dc_layout::CType;
use dc_num::NumKind;
use dc_program::Rule;
use dc_rules::{is_function, number, qualified};
use dc_scope::{Entity, Space};
use dc_syntax::{Keyword, Raw};
use sqlite_items::Items;
use std::alloc::{AllocError, Global};

// The last token of a spec.
fn spec_site(raw: &Raw) -> u64
    ensures { result ≡ spec.spec_site (raw_view raw.now) }
{
    match raw {
        Raw::SpecWord(_, place) => place.last(),
        Raw::SpecName(_, place) => place.last(),
        Raw::StructTag(_, place) => place.last(),
        Raw::EnumTag(_, place) => place.last(),
        _ => 0,
    }
}

// The last token of specs.
fn specs_site(specs: &[Raw]) -> u64
    ensures { result ≡ spec.specs_site (map raw_view specs.now) }
{
    let mut site = 0;
    for one in specs {
        site = spec_site(one);
    }
    site
}

// The type of a typedef.
fn typedef_type(alloc: Global, site: u64, entity: Option<&Entity>) -> Result<Option<CType>, Refusal>
    ensures { Answers (option_map type_view) (spec.typedef_type site (option_map entity_view (option_copied entity.entry))) result }
{
    match entity {
        Some(Entity::Typedef(t)) => Ok(Some(t.duplicate(alloc)?)),
        _ => broken(Rule::Undeclared, site),
    }
}

// The type of a struct.
fn struct_type(site: u64, entity: Option<&Entity>) -> Result<Option<CType>, Refusal>
    ensures { Answers (option_map type_view) (spec.struct_type site (option_map entity_view (option_copied entity.entry))) result }
{
    match entity {
        Some(Entity::StructTag(s)) => Ok(Some(CType::Struct(*s))),
        _ => broken(Rule::Undeclared, site),
    }
}

// The type of an enum.
fn enum_type(site: u64, entity: Option<&Entity>) -> Result<Option<CType>, Refusal>
    ensures { Answers (option_map type_view) (spec.enum_type site (option_map entity_view (option_copied entity.entry))) result }
{
    match entity {
        Some(Entity::EnumTag) => Ok(Some(number(NumKind::S32))),
        _ => broken(Rule::Undeclared, site),
    }
}

// The one type of specs: that of the words, or the one that is named where there is no word.
fn one_type(words: &Words, named: Items<CType>) -> Option<CType>
    ensures { option_map type_view result ≡ spec.one_type words.now (map type_view named) }
{
    let mut named = named;
    match named.pop() {
        None => words.word_type(),
        Some(t) => {
            if named.is_empty() && words.is_wordless() {
                Some(t)
            } else {
                None
            }
        }
    }
}

// A type, const where it is asked for; a function isn't.
fn const_if(alloc: Global, has_const: bool, t: CType) -> Result<CType, AllocError>
    ensures { IfOk result (λ u. type_view u ≡ spec.const_if has_const (type_view t)) }
{
    if !has_const || is_function(&t) {
        Ok(t)
    } else {
        qualified(alloc, t)
    }
}

impl<'a> Judge<'a> {
    // The type that a spec names, if it names one.
    fn spec_type(&self, raw: &Raw) -> Result<Option<CType>, Refusal>
        ensures { Answers (option_map type_view) (spec.spec_type (known self.now) (raw_view raw.now)) result }
    {
        match raw {
            Raw::SpecName(name, place) => {
                typedef_type(self.alloc, place.last(), self.find(name))
            }
            Raw::StructTag(tag, place) => {
                struct_type(place.last(), self.scopes.find(Space::Tag, tag))
            }
            Raw::EnumTag(tag, place) => enum_type(place.last(), self.scopes.find(Space::Tag, tag)),
            _ => Ok(None),
        }
    }

    // All that specs name, in their order.
    fn named_types(&self, specs: &[Raw]) -> Result<Items<CType>, Refusal>
        ensures { Answers (map type_view) (spec.named_types (known self.now) (map raw_view specs.now)) result }
    {
        let mut types = Items::new(self.alloc);
        for one in specs {
            if let Some(t) = self.spec_type(one)? {
                types.push(t)?;
            }
        }
        Ok(types)
    }

    // The type that specs in their order give.
    fn base_type(&self, specs: &[Raw]) -> Result<CType, Refusal>
        ensures { Answers type_view (spec.base_type (known self.now) (map raw_view specs.now)) result }
    {
        let named = self.named_types(specs)?;
        let words = words_of(specs);
        let site = specs_site(specs);
        if !words.is_one_storage() {
            return broken(Rule::NoType, site);
        }
        let has_const = 0 < how_often(Keyword::Const, specs);
        match one_type(&words, named) {
            Some(t) => Ok(const_if(self.alloc, has_const, t)?),
            None => broken(Rule::NoType, site),
        }
    }
    /// The type that specs give.
    ///
    /// It is refused by `Undeclared` where a typedef's name or a tag isn't declared, by `NoType` where the words are no one
    /// type or there is more than one word of storage, and by `Memory` where memory is refused.
    pub fn specs_type(&self, specs: &[Raw]) -> Result<CType, Refusal>
        ensures { Answers type_view (spec.base_type (known self.now) (spec.spec_list (specs_tree (map raw_view specs.now)))) result }
    {
        self.base_type(specs)
    }
}
