// What comes into force behind the parts of a unit (C11 6.2.1).
ghost use Rattle.std.specs.Prelude.{◌≡◌, map, IfOk, OnOk};
ghost use Rattle.std.specs.Option.{option_map};
ghost use Rattle.dc_syntax.specs.Names.{first_names};
ghost use Rattle.dc_syntax.specs.Trees as trees;
ghost use Rattle.dc_syntax.specs.Parts as parts;
ghost use Rattle.dc_syntax.specs.View.{raw_view, parameters_tree, specs_tree};
ghost use Rattle.dc_syntax.specs.UnitView.{declared_part, part_view};

use crate::declare::declare_specs;
use crate::keyword::Keyword;
use crate::raw::Raw;
use crate::typedefs::Typedefs;
use crate::unit::Part;
use std::alloc::{AllocError, Global};

/// The names that are there before a unit: typedefs of the headers.
pub fn first_typedefs<'a>(alloc: Global) -> Result<Typedefs<'a>, AllocError>
    ensures { IfOk result (λ t. t.names ≡ first_names) }
{
    let mut names = Typedefs::new(alloc);
    let words: [&[u8]; 11] = [
        b"uint64_t",
        b"uint32_t",
        b"uint16_t",
        b"uint8_t",
        b"int64_t",
        b"int32_t",
        b"int16_t",
        b"int8_t",
        b"ptrdiff_t",
        b"size_t",
        b"bool",
    ];
    for word in words {
        names.declare(alloc, word, true)?;
    }
    Ok(names)
}

/// `typedef`
fn is_typedef_spec(spec: &Raw) -> bool
    ensures { result ≡ trees.is_typedef_spec (raw_view spec.now) }
{
    match spec {
        Raw::SpecWord(keyword, _) => matches!(keyword, Keyword::Typedef),
        _ => false,
    }
}

/// Whether `typedef` is among the specs, so that what is declared behind them is a typedef.
pub fn is_typedef(specs: &[Raw]) -> bool
    ensures { result ≡ trees.is_typedef (specs_tree (map raw_view specs.now)) }
{
    for spec in specs {
        if is_typedef_spec(spec) {
            return true;
        }
    }
    false
}

/// A spec that begins with `struct` or `enum`.
fn is_tag(spec: &Raw) -> bool
    ensures { result ≡ trees.is_tag (raw_view spec.now) }
{
    matches!(
        spec,
        Raw::StructBody(_, _, _)
            | Raw::StructTag(_, _)
            | Raw::EnumBody(_, _, _, _)
            | Raw::EnumTag(_, _)
    )
}

/// Whether a spec that begins with `struct` or `enum` is among the specs.
pub fn has_tag(specs: &[Raw]) -> bool
    ensures { result ≡ trees.has_tag (specs_tree (map raw_view specs.now)) }
{
    for spec in specs {
        if is_tag(spec) {
            return true;
        }
    }
    false
}

impl Raw {
    /// Brings the name that a declarator declares into force, as a typedef or not.
    pub fn declare_name(
        &self,
        alloc: Global,
        is_type: bool,
        names: &mut Typedefs<'_>,
    ) -> Result<(), AllocError>
        ensures { OnOk result (names.new.names ≡ trees.naming (raw_view self.now) is_type names.old.names) }
    {
        if let Some(name) = self.declared_name() {
            names.declare(alloc, name, is_type)?;
        }
        Ok(())
    }

    /// The parameters of the function that a declarator declares: those nearest its name.
    fn own_parameters(&self) -> Option<&[Raw]>
        ensures { option_map (λ l. parameters_tree (map raw_view l.now)) result ≡ trees.own_parameters (raw_view self.now) }
    {
        match self {
            Raw::Wrapped(inner, _) | Raw::Unsized(inner, _) => inner.get().own_parameters(),
            Raw::Sized(inner, _, _) => inner.get().own_parameters(),
            Raw::Function(inner, parameters, _) => {
                inner.get().own_parameters().or(Some(parameters.as_slice()))
            }
            Raw::Pointer(_, inner, _) => inner.get().own_parameters(),
            _ => None,
        }
    }

    /// Brings the parameters into force that hold in a function's clauses and in its block.
    /// Where there is no memory, some of them may be in force.
    pub fn declare_parameters(
        &self,
        alloc: Global,
        names: &mut Typedefs<'_>,
    ) -> Result<(), AllocError>
        ensures { OnOk result (names.new.names ≡ trees.inside (raw_view self.now) names.old.names) }
    {
        if let Some(parameters) = self.own_parameters() {
            for parameter in parameters {
                parameter.declare(alloc, names)?;
            }
        }
        Ok(())
    }
}

/// Brings the names into force that stand behind a function's declarator: the enumerators in its specs, and its own.
/// Where there is no memory, some of them may be in force.
pub fn declare_function(
    alloc: Global,
    specs: &[Raw],
    declarator: &Raw,
    names: &mut Typedefs<'_>,
) -> Result<(), AllocError>
    ensures { OnOk result (names.new.names ≡ trees.naming (raw_view declarator.now) (trees.is_typedef (specs_tree (map raw_view specs.now))) (trees.declared (specs_tree (map raw_view specs.now)) names.old.names)) }
{
    declare_specs(alloc, specs, names)?;
    declarator.declare_name(alloc, is_typedef(specs), names)
}

/// Brings the names into force that hold in a function's clauses and in its block: those behind its declarator, and its parameters.
/// Where there is no memory, some of them may be in force.
pub fn declare_within_function(
    alloc: Global,
    specs: &[Raw],
    declarator: &Raw,
    names: &mut Typedefs<'_>,
) -> Result<(), AllocError>
    ensures { OnOk result (names.new.names ≡ parts.within_function (specs_tree (map raw_view specs.now)) (raw_view declarator.now) names.old.names) }
{
    declare_function(alloc, specs, declarator, names)?;
    declarator.declare_parameters(alloc, names)
}

impl Part {
    /// Brings the name that an init-decl declares into force, as a typedef or not.
    pub fn declare_as(
        &self,
        alloc: Global,
        is_type: bool,
        names: &mut Typedefs<'_>,
    ) -> Result<(), AllocError>
        ensures { OnOk result (names.new.names ≡ parts.declaring is_type (part_view self.now) names.old.names) }
    {
        match self {
            Part::Plain(declarator, _) => declarator.get().declare_name(alloc, is_type, names),
            Part::Initialized(declarator, _, _) => {
                declarator.get().declare_name(alloc, is_type, names)
            }
            _ => Ok(()),
        }
    }

    /// Brings the names into force that hold behind this: a block, a `for` and a function keep theirs to themselves.
    /// Where there is no memory, some of them may be in force.
    pub fn declare(&self, alloc: Global, names: &mut Typedefs<'_>) -> Result<(), AllocError>
        ensures { OnOk result (names.new.names ≡ parts.in_force_behind (part_view self.now) names.old.names) }
    {
        match self {
            Part::FirstDeclaration(specs, first, more, _) => {
                let specs = specs.as_slice();
                declare_specs(alloc, specs, names)?;
                let is_type = is_typedef(specs);
                first.get().declare_as(alloc, is_type, names)?;
                declare_all(alloc, more.as_slice(), is_type, names)
            }
            Part::Declaration(specs, declarators, _) => {
                let specs = specs.as_slice();
                declare_specs(alloc, specs, names)?;
                declare_all(alloc, declarators.as_slice(), is_typedef(specs), names)
            }
            Part::Definition(specs, declarator, _, _, _) => {
                declare_function(alloc, specs.as_slice(), declarator.get(), names)
            }
            Part::Prototype(specs, declarator, _, _, _) => {
                declare_function(alloc, specs.as_slice(), declarator.get(), names)
            }
            _ => Ok(()),
        }
    }
}

/// Brings the names of init-decls into force, as typedefs or not.
/// Where there is no memory, some of them may be in force.
fn declare_all(
    alloc: Global,
    declarators: &[Part],
    is_type: bool,
    names: &mut Typedefs<'_>,
) -> Result<(), AllocError>
    ensures { OnOk result (names.new.names ≡ parts.declaring is_type (declared_part (map part_view declarators.now)) names.old.names) }
{
    for declarator in declarators {
        declarator.declare_as(alloc, is_type, names)?;
    }
    Ok(())
}
