// The kinds of numbers, and how many bytes they have.
ghost use Rattle.std.specs.Prelude.{◌≡◌};
ghost use Rattle.dc_layout.specs.Types.{bytes_of};

/// A kind of number by its width in bits: signed (S), unsigned (U), `_Bool`, or a pointer's number (C11 6.2.5).
#[derive(Clone, Copy, Debug, PartialEq, Eq)]
pub enum LayKind {
    Bool,
    S8,
    U8,
    S16,
    U16,
    S32,
    U32,
    S64,
    U64,
    Ptr,
}

impl LayKind {
    /// The size in bytes, 1 to 8, which is also the alignment.
    pub(crate) fn bytes(self) -> u64
        ensures { result ≡ bytes_of self }
    {
        match self {
            LayKind::Bool | LayKind::S8 | LayKind::U8 => 1,
            LayKind::S16 | LayKind::U16 => 2,
            LayKind::S32 | LayKind::U32 => 4,
            LayKind::S64 | LayKind::U64 | LayKind::Ptr => 8,
        }
    }
}
