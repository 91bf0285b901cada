// The kinds of values that memory holds.
ghost use Rattle.std.specs.Prelude.{◌≡◌, ◌<◌, ◌≤◌};
ghost use Rattle.dc_memory.specs.Kinds.{size_of};

/// A kind of value by its width in bits: signed in two's complement (S), unsigned (U), `_Bool`, which takes a byte and is
/// 0 or 1, or a pointer's number, of 64 bits (C11 6.2.5, 6.2.6.2).
#[derive(Clone, Copy, Debug, PartialEq, Eq)]
pub enum MemKind {
    Bool,
    S8,
    U8,
    S16,
    U16,
    S32,
    U32,
    S64,
    U64,
    Ptr,
}

impl MemKind {
    // The size in bytes.
    pub(crate) fn size(self) -> u64
        ensures value { result ≡ size_of self }
        ensures some { 0 < result }
        ensures few { result ≤ 8 }
    {
        match self {
            MemKind::Bool | MemKind::S8 | MemKind::U8 => 1,
            MemKind::S16 | MemKind::U16 => 2,
            MemKind::S32 | MemKind::U32 => 4,
            MemKind::S64 | MemKind::U64 | MemKind::Ptr => 8,
        }
    }
}
