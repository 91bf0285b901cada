// Names whose bytes stand elsewhere.
ghost use Rattle.std.specs.Prelude.{◌≡◌};

use std::hash::{Hash, Hasher};
use std::marker::Model;

/// A name, as its bytes elsewhere.
#[derive(Debug, Drop)]
pub struct NameRef<'a> {
    bytes: &'a [u8],
}

impl<'a> Model for NameRef<'a> {
    ghost use Rattle.std.specs.Prelude.{List, ℕ};

    ghost Value = { List ℕ };

    ghost view = { λ name. name.bytes.now };
}

impl<'a> NameRef<'a> {
    /// The name of these bytes. It takes no memory.
    pub fn of(bytes: &'a [u8]) -> NameRef<'a>
        ensures { result ≡ bytes.now }
    {
        NameRef { bytes }
    }
}

impl<'a> PartialEq for NameRef<'a> {
    ghost use Rattle.std.specs.Prelude.{nat_eq};
    ghost use Rattle.std.specs.Cmp.Lexicographic.{pointwise};
    ghost use Rattle.std.proofs.lemmas.Cmp.{nat_list_eq_equiv};
    ghost use Rattle.std.specs.Cmp as Cmp;

    ghost eq = { pointwise nat_eq };

    ghost laws = { Cmp.partial_equiv_from_equiv nat_list_eq_equiv };

    fn eq(&self, other: &NameRef<'a>) -> bool {
        self.bytes == other.bytes
    }
}

impl<'a> Eq for NameRef<'a> {
    ghost use Rattle.std.proofs.lemmas.Cmp.{nat_list_eq_equiv};

    ghost laws = { nat_list_eq_equiv };
}

impl<'a> Hash for NameRef<'a> {
    ghost use Rattle.std.specs.Hash as fed;
    ghost use Rattle.std.specs.Cmp.Rules.{hashing};
    ghost use Rattle.std.proofs.Common.{rules};

    ghost hash_input = { fed.slice fed.u8 };

    ghost respects_eq = { Prim.search (hashing, rules) };

    fn hash<H: Hasher>(&self, state: &mut H) {
        self.bytes.hash(state);
    }
}
