// Where names stand in a list.
ghost use Rattle.std.specs.Prelude.{◌≡◌, [], OnOk, List, ℕ};
ghost use Rattle.std.specs.Map.{lookup};
ghost use Rattle.dc_text.specs.Words.{same};
ghost use Rattle.dc_machine.specs.Index.{added};

use dc_names::NameRef;
use indexmap::IndexMap;
use std::alloc::{AllocError, Global};
use std::marker::Model;

/// Names with the place of each, found without a walk over all of them.
#[derive(Drop)]
pub struct Index<'a> {
    places: IndexMap<NameRef<'a>, usize>,
}

impl<'a> Model for Index<'a> {
    ghost use Rattle.std.specs.Prelude.{List, ℕ};

    ghost Value = { List (List ℕ × ℕ) };

    ghost view = { λ index. index.places.entries };
}

impl<'a> Index<'a> {
    /// An index of no names. It takes no memory.
    pub fn new(alloc: Global) -> Index<'a>
        ensures { result ≡ [] }
    {
        Index {
            places: IndexMap::new(alloc),
        }
    }

    /// The place of a name, where there is one.
    pub fn find(&self, name: &[u8]) -> Option<usize>
        ensures { result ≡ lookup (same name.now) self.now }
    {
        match self.places.get(&NameRef::of(name)) {
            None => None,
            Some(place) => Some(*place),
        }
    }

    /// Adds a name with its place, where the name has none yet.
    pub fn add(&mut self, name: &'a [u8], place: usize) -> Result<(), AllocError>
        ensures { OnOk result (self.new ≡ added name.now place (lookup (same name.now) self.old) self.old) }
    {
        if self.find(name).is_some() {
            return Ok(());
        }
        if self.places.insert(NameRef::of(name), place).is_err() {
            return Err(AllocError);
        }
        Ok(())
    }
}
