// The lists of parameters around in a type-name.
ghost use Rattle.std.specs.Prelude.{◌≡◌, ◌∷◌, []};
ghost use Rattle.std.specs.Option.{option_copied, option_map};
ghost use Rattle.dc_layout.specs.Types.{type_view};
ghost use Rattle.dc_scope.specs.Entities.{entity_view};
ghost use Rattle.dc_typing.specs.Known.{found_parameter};
ghost use Rattle.dc_typing.specs.Lists.{Declares, around_view};

use dc_layout::CType;
use dc_scope::{Declare, Entity, Scopes, Space};
use dc_text::Name;
use std::alloc::Global;
use std::marker::Model;

/// The names of the parameters of a list, and of those of the lists around it in a type-name. A name is found without a walk
/// through the names of a list.
#[derive(Drop)]
pub struct ParameterNames<'a> {
    around: Option<&'a ParameterNames<'a>>,
    names: Scopes,
}

impl<'a> Model for ParameterNames<'a> {
    ghost use Rattle.std.specs.Prelude.{List, length};
    ghost use Rattle.std.proofs.Common.{arith};
    ghost use Rattle.dc_scope.specs.Scopes.{Names};
    ghost use Rattle.dc_typing.specs.Lists.{code_lists, in_list};

    ghost Value = { List Names };

    ghost coded = { code_lists };

    ghost view = { λ p. in_list p.names p.around };

    ghost size = { λ p. length p };

    ghost size_decreases = { λ p k. Prim.grind arith };
}

impl<'a> ParameterNames<'a> {
    /// A list without names, within those around. It takes no memory.
    pub fn within(alloc: Global, around: Option<&'a ParameterNames<'a>>) -> ParameterNames<'a>
        ensures { result ≡ [] ∷ around_view around.entry }
    {
        ParameterNames {
            around,
            names: Scopes::new(alloc),
        }
    }

    /// What the name stands for, in the innermost list that has it.
    pub fn find(&self, name: &Name) -> Option<&Entity>
        ensures { option_map entity_view (option_copied result) ≡ found_parameter self.now name.now }
    {
        if let Some(entity) = self.names.find_inner(Space::Ordinary, name) {
            return Some(entity);
        }
        match self.around {
            None => None,
            Some(around) => around.find(name),
        }
    }

    /// One more parameter, behind those of its list. A name that the list has is refused. Where there is no memory, the list
    /// may have changed.
    pub fn declare(&mut self, name: &Name, t: CType) -> Result<(), Declare>
        ensures { Declares result self.old name.now (type_view t) self.new }
    {
        self.names
            .declare(Space::Ordinary, name, Entity::Local(0, t))
    }
}
