// Lists of names that differ.
ghost use Rattle.std.specs.Prelude.{◌≡◌, ◌++◌, [], ◌∷◌, length, OnErr, OnOk, false};
ghost use Rattle.std.specs.List.{list_any, position};
ghost use Rattle.dc_text.specs.Words.{same};

use crate::name_ref::NameRef;
use indexmap::IndexSet;
use std::alloc::{AllocError, Global};
use std::marker::Model;

/// Names in their order, no two of them the same.
#[derive(Drop)]
pub struct Names<'a> {
    names: IndexSet<NameRef<'a>>,
}

impl<'a> Model for Names<'a> {
    ghost use Rattle.std.specs.Prelude.{List, ℕ};

    ghost Value = { List (List ℕ) };

    ghost view = { λ names. names.names.keys };
}

impl<'a> Names<'a> {
    /// No names. It takes no memory.
    pub fn new(alloc: Global) -> Names<'a>
        ensures { result ≡ [] }
    {
        Names {
            names: IndexSet::new(alloc),
        }
    }

    /// How many names there are.
    pub fn len(&self) -> usize
        ensures { result ≡ length self.now }
    {
        self.names.len()
    }

    /// Whether the name is among these.
    pub fn has(&self, name: &[u8]) -> bool
        ensures { result ≡ list_any (same name.now) self.now }
    {
        self.names.contains(&NameRef::of(name))
    }

    /// One more name behind the others, which it isn't among. A refused call leaves them as they were.
    pub fn push(&mut self, name: &'a [u8]) -> Result<(), AllocError>
        requires { list_any (same name.now) self.old ≡ false }
        ensures ok { OnOk result (self.new ≡ self.old ++ name.now ∷ []) }
        ensures refused { OnErr result (self.new ≡ self.old) }
    {
        if self.names.insert(NameRef::of(name)).is_err() {
            return Err(AllocError);
        }
        Ok(())
    }

    /// The number of the name, counted from 0 in their order.
    pub fn find(&self, name: &[u8]) -> Option<usize>
        ensures { result ≡ position (same name.now) self.now }
    {
        self.names.get_index_of(&NameRef::of(name))
    }
}

#[cfg(test)]
mod tests {
    use super::*;
    use std::test::Fail;

    #[test]
    fn names_are_found(rt: HostRuntime) -> Result<(), Fail> {
        let mut names = Names::new(rt.alloc());
        names.push(b"a")?;
        assert!(rt; !names.has(b"ab"));
        assert_eq!(rt; names.find(b"a"), Some(0));
        assert_eq!(rt; names.find(b""), None);
        assert_eq!(rt; names.len(), 1);
        Ok(())
    }
}
