// Objects that are drawn before they stand in a memory.
ghost use Rattle.std.specs.Prelude.{◌≡◌, false};
ghost use Rattle.dc_memory.specs.Objects.{function_kind};
ghost use Rattle.dc_world.specs.View.{kind_view};

use dc_memory::ObjKind;

/// What an object may be that is drawn: all but a function.
#[derive(Clone, Copy, Debug, PartialEq, Eq)]
pub enum Storage {
    Static,
    Heap,
    Stack,
}

/// An object that was drawn: a dead one, or a live one with its bytes.
#[derive(Debug, Drop)]
pub enum Fresh {
    Dead(Storage),
    Live(Storage, Vec<u8>),
}

impl Storage {
    // The kind in a memory.
    pub(crate) fn kind(self) -> ObjKind
        ensures value { result ≡ kind_view self }
        ensures plain { function_kind result ≡ false }
    {
        match self {
            Storage::Static => ObjKind::Static,
            Storage::Heap => ObjKind::Heap,
            Storage::Stack => ObjKind::Stack,
        }
    }
}
