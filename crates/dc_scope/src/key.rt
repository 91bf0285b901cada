// Names by which a map is searched.
ghost use Rattle.std.specs.Prelude.{◌≡◌, IfOk};

use dc_text::Name;
use indexmap::Equivalent;
use std::alloc::{AllocError, Global};
use std::hash::{Hash, Hasher};
use std::marker::Model;

/// A name in a map, which is found by its bytes.
#[derive(Debug, Drop)]
pub struct Key {
    name: Name,
}

impl Model for Key {
    ghost use Rattle.std.specs.Prelude.{List, ℕ};

    ghost Value = { List ℕ };

    ghost view = { λ key. key.name };
}

impl Key {
    /// The key of this name. It takes no memory.
    pub fn of(name: Name) -> Key
        ensures { result ≡ name }
    {
        Key { name }
    }

    /// The key of a copy of this name.
    pub fn copied(alloc: Global, name: &Name) -> Result<Key, AllocError>
        ensures { IfOk result (λ key. key ≡ name.now) }
    {
        let name = name.duplicate(alloc)?;
        Ok(Key { name })
    }
}

impl PartialEq for Key {
    ghost use Rattle.std.specs.Prelude.{nat_eq};
    ghost use Rattle.std.specs.Cmp.Lexicographic.{pointwise};
    ghost use Rattle.std.proofs.lemmas.Cmp.{nat_list_eq_equiv};
    ghost use Rattle.std.specs.Cmp as Cmp;

    ghost eq = { pointwise nat_eq };

    ghost laws = { Cmp.partial_equiv_from_equiv nat_list_eq_equiv };

    fn eq(&self, other: &Key) -> bool {
        self.name.as_slice() == other.name.as_slice()
    }
}

impl Eq for Key {
    ghost use Rattle.std.proofs.lemmas.Cmp.{nat_list_eq_equiv};

    ghost laws = { nat_list_eq_equiv };
}

impl Hash for Key {
    ghost use Rattle.std.specs.Hash as fed;
    ghost use Rattle.std.specs.Cmp.Rules.{hashing};
    ghost use Rattle.std.proofs.Common.{rules};

    ghost hash_input = { fed.slice fed.u8 };

    ghost respects_eq = { Prim.search (hashing, rules) };

    fn hash<H: Hasher>(&self, state: &mut H) {
        self.name.as_slice().hash(state);
    }
}

impl Equivalent<Key> for &[u8] {
    ghost use Rattle.std.specs.Prelude.{nat_eq};
    ghost use Rattle.std.specs.Cmp.Lexicographic.{pointwise};
    ghost use Rattle.std.proofs.lemmas.Cmp.{nat_list_eq_equiv};
    ghost use Rattle.std.specs.Cmp.Rules.{hashing};
    ghost use Rattle.std.proofs.Common.{rules};

    ghost equivalent = { λ q. pointwise nat_eq q.now };

    ghost respects_hash = { Prim.search (hashing, rules) };

    ghost respects_eq = { λ q. nat_list_eq_equiv.congr q.now };

    fn equivalent(&self, key: &Key) -> bool {
        *self == key.name.as_slice()
    }
}
