// A name or a word.
ghost use Rattle.std.specs.Prelude.{◌≡◌, IfOk};
ghost use Rattle.dc_text.specs.Words.{same};

use std::alloc::{AllocError, Global};
use std::marker::Model;

/// A name or a word, seen as its bytes, of which there may be any.
#[derive(Debug, Drop)]
pub struct Name {
    bytes: Vec<u8>,
}

impl Model for Name {
    ghost use Rattle.std.specs.Prelude.{List, ℕ};

    ghost Value = { List ℕ };

    ghost view = { λ name. name.bytes.items };
}

impl Name {
    /// A name of these bytes.
    pub fn of(bytes: Vec<u8>) -> Name
        ensures { result ≡ bytes.items }
    {
        Name { bytes }
    }

    /// A name of a copy of these bytes.
    pub fn copied(alloc: Global, bytes: &[u8]) -> Result<Name, AllocError>
        ensures { IfOk result (λ name. name ≡ bytes.now) }
    {
        let bytes = Vec::from_slice(alloc, bytes)?;
        Ok(Name { bytes })
    }

    /// The bytes.
    pub fn as_slice(&self) -> &[u8]
        ensures { result.now ≡ self.now }
    {
        self.bytes.as_slice()
    }

    /// A name with the same bytes.
    pub fn duplicate(&self, alloc: Global) -> Result<Name, AllocError>
        ensures { IfOk result (λ name. name ≡ self.now) }
    {
        Name::copied(alloc, self.bytes.as_slice())
    }

    /// Whether these are the name's bytes.
    pub fn is(&self, bytes: &[u8]) -> bool
        ensures { result ≡ same self.now bytes.now }
    {
        self.bytes.as_slice() == bytes
    }
}
