// The names in force, and which of them are typedefs.
ghost use Rattle.std.specs.Prelude.{◌≡◌, ◌∷◌, [], OnErr, OnOk};
ghost use Rattle.dc_syntax.specs.Names.{in_force};

use crate::entry::Entry;
use crate::key::Key;
use dc_text::Name;
use indexmap::IndexMap;
use std::alloc::{AllocError, Global};
use std::marker::Model;

/// The names in force, the innermost first: those of a scope, and behind them those of the scopes around it.
/// A name is found without a walk through the names of a scope.
#[derive(Drop)]
pub struct Typedefs<'a> {
    outer: Option<&'a Typedefs<'a>>,
    declared: Vec<Entry>,
    latest: IndexMap<Key, bool>,
}

impl<'a> Model for Typedefs<'a> {
    ghost use Rattle.dc_text.specs.Words.{same};
    ghost use Rattle.dc_syntax.specs.Scopes.{Scope, Knows, in_scope};
    ghost use Rattle.indexmap.specs.IndexMap.{get};
    ghost use Rattle.std.proofs.Common.{arith};

    ghost Value = { Scope };

    ghost view = { λ s. in_scope s.declared.items s.outer };

    ghost invariant = { λ s. Knows (get same s.latest) s.declared.items };

    ghost size = { λ s. s.depth };

    ghost size_decreases = { λ s k. Prim.grind arith };
}

impl<'a> Typedefs<'a> {
    /// No names. It takes no memory.
    pub fn new(alloc: Global) -> Typedefs<'a>
        ensures { result.names ≡ [] }
    {
        Typedefs {
            outer: None,
            declared: Vec::new(alloc),
            latest: IndexMap::new(alloc),
        }
    }

    /// A scope in which no name is declared yet. It takes no memory.
    pub fn within(alloc: Global, outer: &'a Typedefs<'a>) -> Typedefs<'a>
        ensures { result.names ≡ outer.now.names }
    {
        Typedefs {
            outer: Some(outer),
            declared: Vec::new(alloc),
            latest: IndexMap::new(alloc),
        }
    }

    /// Whether the name's innermost declaration is a typedef.
    pub fn has_type(&self, name: &[u8]) -> bool
        ensures { result ≡ in_force self.now.names name.now }
    {
        if let Some(is_type) = self.latest.get(name) {
            return *is_type;
        }
        match self.outer {
            None => false,
            Some(outer) => outer.has_type(name),
        }
    }

    /// One more name in force, a typedef or not. A refused call leaves them as they were.
    pub fn declare(&mut self, alloc: Global, name: &[u8], is_type: bool) -> Result<(), AllocError>
        ensures ok { OnOk result (self.new.names ≡ record { name = name.now; is_type = is_type } ∷ self.old.names) }
        ensures refused { OnErr result (self.new ≡ self.old) }
    {
        let key = Key::copied(alloc, name)?;
        let entry = Entry::new(Name::copied(alloc, name)?, is_type);
        self.declared.push(entry)?;
        let Ok(_) = self.latest.insert(key, is_type) else {
            self.declared.pop();
            return Err(AllocError);
        };
        Ok(())
    }
}
