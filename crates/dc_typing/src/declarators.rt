// The types that declarators give (C11 6.7.6, 6.7.7), and which of them a type-name may name.
ghost use Rattle.std.specs.Prelude.{◌≡◌, ℕ, IfOk, List, map};
ghost use Rattle.std.specs.Option.{option_map, option_copied};
ghost use Rattle.dc_layout.specs.Types.{type_view, structs_view};
ghost use Rattle.dc_syntax.specs.Trees as trees;
ghost use Rattle.dc_syntax.specs.View.{raw_view};
ghost use Rattle.dc_typing.specs.Answers.{Answers};
ghost use Rattle.dc_typing.specs.DerivedView.{derived_view};
ghost use Rattle.dc_typing.specs.TypeNames as spec;

use crate::refusal::{Refusal, broken};
use dc_layout::{CType, StructTable};
use dc_program::Rule;
use dc_rules::{is_complete, is_function, is_result, is_within_limit};
use dc_syntax::{Keyword, Raw};
use dc_text::Name;
use sqlite_items::Items;
use std::alloc::{AllocError, Global};

/// What a part of a declarator makes of a type.
#[derive(Drop)]
pub enum Derivation {
    /// A pointer to it, const or not.
    To(bool),
    /// An array of so many of it; 0 where no length is given.
    Of(u64),
    /// A function of these parameters that gives it.
    Taking(Items<CType>),
}

// The type that a part of a declarator makes.
fn derived_by(alloc: Global, part: Derivation, t: CType) -> Result<CType, AllocError>
    ensures { IfOk result (λ u. type_view u ≡ spec.derived_by (derived_view part) (type_view t)) }
{
    match part {
        Derivation::To(true) => CType::constant(alloc, CType::pointer(alloc, t)?),
        Derivation::To(false) => CType::pointer(alloc, t),
        Derivation::Of(count) => CType::array(alloc, t, count),
        Derivation::Taking(parameters) => CType::function(alloc, t, parameters),
    }
}

/// The type that a declarator makes of a type, by its parts.
pub fn derived(alloc: Global, parts: Items<Derivation>, t: CType) -> Result<CType, AllocError>
    ensures { IfOk result (λ u. type_view u ≡ spec.derived (map derived_view parts) (type_view t)) }
{
    let mut parts = parts;
    let mut t = t;
    while let Some(part) = parts.pop() {
        t = derived_by(alloc, part, t)?;
    }
    Ok(t)
}

/// Whether `const` stands among the qualifiers of a pointer.
pub fn has_const(words: &[Keyword]) -> bool
    ensures { result ≡ spec.has_const words.now }
{
    for word in words {
        if *word == Keyword::Const {
            return true;
        }
    }
    false
}

/// The length that an integer constant is, or `NoConstant` where it is none.
pub fn length_of(site: u64, value: Option<i128>) -> Result<u64, Refusal>
    ensures { Answers (λ n. n) (spec.length_of site value) result }
{
    match value {
        Some(value) if 0 < value && value < 1 << 64 => Ok(value as u64),
        _ => broken(Rule::NoConstant, site),
    }
}

/// Whether each array of a type has elements of a size (C11 6.7.6.2 p1).
pub fn has_elements(structs: &StructTable, t: &CType) -> bool
    ensures { result ≡ spec.has_elements (structs_view structs.now) (type_view t.now) }
{
    match t {
        CType::Pointer(to) => has_elements(structs, to.get()),
        CType::Array(element, _) => {
            let element = element.get();
            (is_function(element) || is_complete(structs, element))
                && has_elements(structs, element)
        }
        CType::Func(gives, _) => has_elements(structs, gives.get()),
        CType::Const(of) => has_elements(structs, of.get()),
        CType::Void | CType::Num(_) | CType::Struct(_) => true,
    }
}

// Whether a type is none of an array without a length.
fn has_length(t: &CType) -> bool
    ensures { result ≡ spec.has_length (type_view t.now) }
{
    !matches!(t, CType::Array(_, 0))
}

/// Whether each array of a type has at most 16,777,216 bytes, and its elements where it has no length.
pub fn fits(structs: &StructTable, t: &CType) -> bool
    ensures { result ≡ spec.fits (structs_view structs.now) (type_view t.now) }
{
    match t {
        CType::Pointer(to) => fits(structs, to.get()),
        CType::Array(element, _) => {
            let element = element.get();
            (is_function(element) || is_within_limit(structs, t)) && fits(structs, element)
        }
        CType::Func(gives, _) => fits(structs, gives.get()),
        CType::Const(of) => fits(structs, of.get()),
        CType::Void | CType::Num(_) | CType::Struct(_) => true,
    }
}

/// Whether functions give no array, function or struct, and no array has functions.
pub fn gives_values(t: &CType) -> bool
    ensures { result ≡ spec.gives_values (type_view t.now) }
{
    match t {
        CType::Pointer(to) => gives_values(to.get()),
        CType::Array(element, _) => !is_function(element.get()) && gives_values(element.get()),
        CType::Func(gives, _) => is_result(gives.get()) && gives_values(gives.get()),
        CType::Const(of) => gives_values(of.get()),
        CType::Void | CType::Num(_) | CType::Struct(_) => true,
    }
}

/// The type of a type-name that ends at the site: `Incomplete`, `TooLarge` and `ByValue`, in this order, where a part of it is
/// none that may be there.
pub fn whole_type(structs: &StructTable, site: u64, t: CType) -> Result<CType, Refusal>
    ensures { Answers type_view (spec.whole_type (structs_view structs.now) site (type_view t)) result }
{
    if !(has_elements(structs, &t) && has_length(&t)) {
        return broken(Rule::Incomplete, site);
    }
    if !fits(structs, &t) {
        return broken(Rule::TooLarge, site);
    }
    if !gives_values(&t) {
        return broken(Rule::ByValue, site);
    }
    Ok(t)
}

/// The name that a declarator declares. It takes no memory.
pub fn name_of(raw: &Raw) -> Option<&Name>
    ensures { option_copied result ≡ trees.name_of (raw_view raw.now) }
{
    match raw {
        Raw::DeclaredName(name, _) => Some(name),
        Raw::Wrapped(inner, _) | Raw::Unsized(inner, _) => name_of(inner.get()),
        Raw::Sized(inner, _, _) => name_of(inner.get()),
        Raw::Function(inner, _, _) => name_of(inner.get()),
        Raw::Pointer(_, inner, _) => name_of(inner.get()),
        _ => None,
    }
}

/// A parameter's type where an array and a function are pointers.
pub fn adjusted(alloc: Global, t: CType) -> Result<CType, AllocError>
    ensures { IfOk result (λ u. type_view u ≡ spec.adjusted (type_view t)) }
{
    match t {
        CType::Array(element, _) => CType::pointer(alloc, element.into_inner()),
        CType::Func(gives, parameters) => CType::pointer(alloc, CType::Func(gives, parameters)),
        other => Ok(other),
    }
}
