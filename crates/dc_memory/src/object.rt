// Objects.
ghost use Rattle.std.specs.Prelude.{◌≡◌, Some};
ghost use Rattle.dc_memory.specs.Objects.{killed as a_killed, seen as seen_of};
ghost use Rattle.dc_memory.specs.Places.{holds_range};

use crate::bytes::Bytes;
use std::alloc::Global;

/// What an object is: a function, a variable of static storage, what was allocated, or a variable of a block
/// (C11 6.2.4).
#[derive(Clone, Copy, Debug, PartialEq, Eq)]
pub enum ObjKind {
    Function,
    Static,
    Heap,
    Stack,
}

/// An object with its bytes. A dead one keeps its kind and has no bytes, and a function has none either.
#[derive(Drop)]
pub struct Object {
    pub kind: ObjKind,
    pub live: bool,
    pub(crate) bytes: Bytes,
}

impl Object {
    // Whether the object is live and has the range.
    pub(crate) fn holds(&self, from: u64, len: u64) -> bool
        ensures { result ≡ holds_range (Some self.now) from len }
    {
        let size = self.bytes.len() as u64;
        self.live && from <= size && len <= size - from
    }

    // The kind, whether it is live, and how many bytes it has.
    pub(crate) fn seen(&self) -> (ObjKind, bool, u64)
        ensures { result ≡ seen_of self.now }
    {
        (self.kind, self.live, self.bytes.len() as u64)
    }

    // Makes it dead and lets go of its bytes.
    pub(crate) fn kill(&mut self, alloc: Global)
        ensures { self.new ≡ a_killed self.old }
    {
        self.live = false;
        self.bytes = Bytes::empty(alloc);
    }
}
