// Parameters of functions in type-names (C11 6.7.6.3).
ghost use Rattle.std.specs.Prelude.{◌≡◌};
ghost use Rattle.std.specs.Option.{option_copied};
ghost use Rattle.dc_layout.specs.Types.{type_view};
ghost use Rattle.dc_typing.specs.Answers.{Enters, Takes};
ghost use Rattle.dc_typing.specs.TypeNames as spec;
ghost use Rattle.dc_typing.specs.View.{known, knowing};

use crate::declarators::{adjusted, fits, gives_values, has_elements};
use crate::judge::Judge;
use crate::lists::ParameterNames;
use crate::refusal::{Refusal, broken};
use dc_layout::CType;
use dc_program::Rule;
use dc_rules::{bare, is_complete, is_parameter};
use dc_scope::Declare;
use dc_text::{Name, is_reserved_word};
use std::alloc::Global;

// Whether a parameter's name is one that may not be declared.
fn is_reserved_name(name: Option<&Name>) -> bool
    ensures { result ≡ spec.is_reserved_name (option_copied name.entry) }
{
    match name {
        None => false,
        Some(name) => is_reserved_word(name.as_slice()),
    }
}

// A name of a parameter comes into force, if it has one. Where there is no memory, it may be in force.
fn enter(
    alloc: Global,
    names: &mut ParameterNames<'_>,
    site: u64,
    name: Option<&Name>,
    t: &CType,
) -> Result<(), Refusal>
    ensures { Enters result (spec.entered site names.old (option_copied name.entry) (type_view t.now)) names.new }
{
    let Some(name) = name else {
        return Ok(());
    };
    match names.declare(name, t.duplicate(alloc)?) {
        Ok(()) => Ok(()),
        Err(Declare::Twice) | Err(Declare::Differs) => broken(Rule::DeclaredTwice, site),
        Err(Declare::Memory(error)) => Err(Refusal::Memory(error)),
    }
}

impl<'a> Judge<'a> {
    /// A parameter of this name and type comes into force, behind its declarator. Its type is given without its own qualifier,
    /// an array and a function as pointers.
    ///
    /// It is refused by `DeclaredTwice`, `Incomplete`, `TooLarge`, `ByValue` and `ReservedName`, in this order, and by `Memory`
    /// where memory is refused.
    pub fn declared_parameter(
        &self,
        names: &mut ParameterNames<'_>,
        site: u64,
        name: Option<&Name>,
        t: CType,
    ) -> Result<CType, Refusal>
        ensures { Takes result (spec.declared_parameter (knowing (known self.now) names.old) site (option_copied name.entry) (type_view t)) names.new }
    {
        let elements = has_elements(self.structs, &t);
        let values = gives_values(&t);
        let t = adjusted(self.alloc, t)?;
        enter(self.alloc, names, site, name, &t)?;
        if !(elements && is_complete(self.structs, &t)) {
            return broken(Rule::Incomplete, site);
        }
        if !fits(self.structs, &t) {
            return broken(Rule::TooLarge, site);
        }
        if !(values && is_parameter(&t)) {
            return broken(Rule::ByValue, site);
        }
        if is_reserved_name(name) {
            return broken(Rule::ReservedName, site);
        }
        Ok(bare(&t).duplicate(self.alloc)?)
    }
}
