// One scope.
ghost use Rattle.std.specs.Prelude.{◌≡◌, ◌∷◌, ◌++◌, [], None, OnErr, OnOk};
ghost use Rattle.std.specs.Map.{lookup};
ghost use Rattle.std.specs.Option.{option_copied, option_map};
ghost use Rattle.dc_scope.specs.Entities.{entity_view};
ghost use Rattle.dc_scope.specs.Scopes.{found_in, no_names, with_name_in};
ghost use Rattle.dc_text.specs.Words.{same};

use crate::entity::Entity;
use crate::key::Key;
use crate::space::Space;
use dc_text::Name;
use indexmap::IndexMap;
use std::alloc::{AllocError, Global};
use std::marker::Model;

// Names with what they stand for, in the order of their declarations.
type Table = IndexMap<Key, Entity>;

/// The names of one scope. A name is found without a walk through the others.
#[derive(Drop)]
pub struct Scope {
    ordinary: Table,
    tags: Table,
}

impl Model for Scope {
    ghost use Rattle.dc_scope.specs.Scopes.{PlainScope, names_view};
    ghost use Rattle.dc_scope.specs.Codes.{code_scope};

    ghost Value = { PlainScope };

    ghost coded = { code_scope };

    ghost view = { λ s. record { ordinary = names_view s.ordinary.entries; tags = names_view s.tags.entries } };
}

impl Scope {
    /// A scope without names. It takes no memory.
    pub fn new(alloc: Global) -> Scope
        ensures { result ≡ no_names }
    {
        Scope {
            ordinary: IndexMap::new(alloc),
            tags: IndexMap::new(alloc),
        }
    }

    /// What the name stands for in this scope.
    pub fn find(&self, space: Space, name: &Name) -> Option<&Entity>
        ensures { option_map entity_view (option_copied result) ≡ found_in self.now space name.now }
    {
        match space {
            Space::Ordinary => self.ordinary.get(name.as_slice()),
            Space::Tag => self.tags.get(name.as_slice()),
        }
    }

    /// A name that the scope doesn't have, behind the others. A refused call leaves the scope as it was.
    pub fn add(&mut self, space: Space, name: &Name, what: Entity) -> Result<(), AllocError>
        requires { found_in self.old space name.now ≡ None }
        ensures ok { OnOk result (self.new ≡ with_name_in self.old space name.now (entity_view what)) }
        ensures refused { OnErr result (self.new ≡ self.old) }
    {
        match space {
            Space::Ordinary => add_to(&mut self.ordinary, name, what),
            Space::Tag => add_to(&mut self.tags, name, what),
        }
    }
}

// A name that the table doesn't have, behind the others.
fn add_to(table: &mut Table, name: &Name, what: Entity) -> Result<(), AllocError>
    requires { lookup (same name.now) table.old.entries ≡ None }
    ensures ok { OnOk result (table.new.entries ≡ table.old.entries ++ (name.now, what) ∷ []) }
    ensures refused { OnErr result (table.new.entries ≡ table.old.entries) }
{
    let key = Key::copied(*table.allocator(), name)?;
    if table.insert(key, what).is_err() {
        return Err(AllocError);
    }
    Ok(())
}
