// What is known where a phrase stands.
ghost use Rattle.std.specs.Prelude.{◌≡◌};
ghost use Rattle.std.specs.Option.{option_copied, option_map};
ghost use Rattle.dc_scope.specs.Entities.{entity_view};
ghost use Rattle.dc_typing.specs.Known.{found_name};
ghost use Rattle.dc_typing.specs.View.{known, knowing};

use crate::lists::ParameterNames;
use dc_layout::StructTable;
use dc_scope::{Entity, Scopes, Space};
use dc_text::Name;
use std::alloc::Global;

/// A judge of phrases: the scopes and structs where they stand, and the parameters of the lists around in a type-name.
#[derive(Clone, Copy)]
pub struct Judge<'a> {
    pub alloc: Global,
    pub scopes: &'a Scopes,
    pub structs: &'a StructTable,
    pub parameters: Option<&'a ParameterNames<'a>>,
}

impl<'a> Judge<'a> {
    /// The judge within a list of parameters.
    pub fn within<'b>(&'b self, names: &'b ParameterNames<'b>) -> Judge<'b>
        ensures { known result ≡ knowing (known self.now) names.now }
    {
        Judge {
            alloc: self.alloc,
            scopes: self.scopes,
            structs: self.structs,
            parameters: Some(names),
        }
    }

    /// What a name stands for.
    pub fn find(&self, name: &Name) -> Option<&Entity>
        ensures { option_map entity_view (option_copied result) ≡ found_name (known self.now) name.now }
    {
        if let Some(parameters) = self.parameters {
            if let Some(entity) = parameters.find(name) {
                return Some(entity);
            }
        }
        self.scopes.find(Space::Ordinary, name)
    }
}
