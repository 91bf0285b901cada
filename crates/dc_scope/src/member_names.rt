// The names of a struct's members.
ghost use Rattle.std.specs.Prelude.{◌≡◌, length, position, true, IfOk};
ghost use Rattle.dc_scope.specs.Scopes.{all_differ};
ghost use Rattle.dc_text.specs.Words.{same};

use crate::key::Key;
use dc_text::Name;
use indexmap::IndexSet;
use std::alloc::{AllocError, Global};
use std::marker::Model;

/// The names of a struct's members in their order. A name is found without a walk through all of them.
#[derive(Drop)]
pub struct MemberNames {
    names: IndexSet<Key>,
}

impl Model for MemberNames {
    ghost use Rattle.std.specs.Prelude.{List, ℕ};

    ghost Value = { List (List ℕ) };

    ghost view = { λ members. members.names.keys };
}

impl MemberNames {
    /// These names, which all differ.
    pub fn of(alloc: Global, names: Vec<Name>) -> Result<MemberNames, AllocError>
        requires { all_differ names.items ≡ true }
        ensures { IfOk result (λ members. members ≡ names.items) }
    {
        let mut members = IndexSet::new(alloc);
        for name in names {
            if members.insert(Key::of(name)).is_err() {
                return Err(AllocError);
            }
        }
        Ok(MemberNames { names: members })
    }

    /// How many names there are.
    pub fn len(&self) -> usize
        ensures { result ≡ length self.now }
    {
        self.names.len()
    }

    /// The place of the name, from 0; none where it isn't there.
    pub fn place(&self, name: &Name) -> Option<usize>
        ensures { result ≡ position (same name.now) self.now }
    {
        self.names.get_index_of(name.as_slice())
    }
}
