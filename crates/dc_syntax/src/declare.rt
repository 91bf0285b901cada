// What comes into force behind what was read (C11 6.2.1).
ghost use Rattle.std.specs.Prelude.{◌≡◌, map, OnOk};
ghost use Rattle.std.specs.Option.{option_map};
ghost use Rattle.dc_syntax.specs.Trees.{declared, name_of};
ghost use Rattle.dc_syntax.specs.View.{raw_view, specs_tree};

use crate::raw::Raw;
use crate::typedefs::Typedefs;
use std::alloc::{AllocError, Global};

impl Raw {
    /// The name that a declarator declares. It takes no memory.
    pub fn declared_name(&self) -> Option<&[u8]>
        ensures { option_map (λ n. n.now) result ≡ name_of (raw_view self.now) }
    {
        match self {
            Raw::DeclaredName(name, _) => Some(name.as_slice()),
            Raw::Wrapped(inner, _) | Raw::Unsized(inner, _) => inner.get().declared_name(),
            Raw::Sized(inner, _, _) => inner.get().declared_name(),
            Raw::Function(inner, _, _) => inner.get().declared_name(),
            Raw::Pointer(_, inner, _) => inner.get().declared_name(),
            _ => None,
        }
    }

    /// Brings the names into force that this declares: enumerators and parameters, those in it too.
    /// Where there is no memory, some of them may be in force.
    pub fn declare(&self, alloc: Global, names: &mut Typedefs<'_>) -> Result<(), AllocError>
        ensures { OnOk result (names.new.names ≡ declared (raw_view self.now) names.old.names) }
    {
        match self {
            Raw::StructBody(_, members, _) => {
                for member in members.as_slice() {
                    member.declare(alloc, names)?;
                }
            }
            Raw::EnumBody(_, first, more, _) => {
                first.get().declare(alloc, names)?;
                for enumerator in more.as_slice() {
                    enumerator.declare(alloc, names)?;
                }
            }
            Raw::MemberDeclaration(specs, _, _, _) => {
                for spec in specs.as_slice() {
                    spec.declare(alloc, names)?;
                }
            }
            Raw::Enumerator(name, _) => names.declare(alloc, name.as_slice(), false)?,
            Raw::EnumeratorValue(name, _, _) => names.declare(alloc, name.as_slice(), false)?,
            Raw::Parameter(_, declarator, _) => {
                if let Some(name) = declarator.get().declared_name() {
                    names.declare(alloc, name, false)?;
                }
            }
            _ => {}
        }
        Ok(())
    }
}

/// Brings the names into force that specs declare: the enumerators in them.
/// Where there is no memory, some of them may be in force.
pub fn declare_specs(
    alloc: Global,
    specs: &[Raw],
    names: &mut Typedefs<'_>,
) -> Result<(), AllocError>
    ensures { OnOk result (names.new.names ≡ declared (specs_tree (map raw_view specs.now)) names.old.names) }
{
    for spec in specs {
        spec.declare(alloc, names)?;
    }
    Ok(())
}
