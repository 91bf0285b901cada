// The kinds of numbers.
ghost use Rattle.std.specs.Prelude.{◌≡◌, ◌<◌, ◌≤◌, ◌^◌, ◌-◌, pos};
ghost use Rattle.dc_num.specs.Kinds.{bits_of, is_signed, is_pointer, is_value, low_of, high_of};

/// A kind of number by its width in bits: signed in two's complement (S), unsigned (U), `_Bool`, which is unsigned of one
/// bit, or a pointer's number, of 64 bits (C11 6.2.5).
#[derive(Clone, Copy, Debug, PartialEq, Eq)]
pub enum NumKind {
    Bool,
    S8,
    U8,
    S16,
    U16,
    S32,
    U32,
    S64,
    U64,
    Ptr,
}

impl NumKind {
    /// The width in bits, 1 to 64.
    pub fn bits(self) -> u32
        ensures value { result ≡ bits_of self }
        ensures some { 0 < result }
        ensures few { result ≤ 64 }
    {
        match self {
            NumKind::Bool => 1,
            NumKind::S8 | NumKind::U8 => 8,
            NumKind::S16 | NumKind::U16 => 16,
            NumKind::S32 | NumKind::U32 => 32,
            NumKind::S64 | NumKind::U64 | NumKind::Ptr => 64,
        }
    }

    /// Whether the kind has negative values.
    pub fn is_signed(self) -> bool
        ensures { result ≡ is_signed self }
    {
        matches!(
            self,
            NumKind::S8 | NumKind::S16 | NumKind::S32 | NumKind::S64
        )
    }

    /// Whether the kind is a pointer's.
    pub fn is_pointer(self) -> bool
        ensures { result ≡ is_pointer self }
    {
        matches!(self, NumKind::Ptr)
    }

    /// The number of all values of the kind.
    pub fn modulus(self) -> i128
        ensures { result ≡ pos (2 ^ bits_of self) }
    {
        match self {
            NumKind::Bool => 2,
            NumKind::S8 | NumKind::U8 => 1 << 8,
            NumKind::S16 | NumKind::U16 => 1 << 16,
            NumKind::S32 | NumKind::U32 => 1 << 32,
            NumKind::S64 | NumKind::U64 | NumKind::Ptr => 1 << 64,
        }
    }

    /// The bits that are all set.
    pub fn mask(self) -> u64
        ensures { result ≡ 2 ^ bits_of self - 1 }
    {
        match self {
            NumKind::Bool => 1,
            NumKind::S8 | NumKind::U8 => u8::MAX as u64,
            NumKind::S16 | NumKind::U16 => u16::MAX as u64,
            NumKind::S32 | NumKind::U32 => u32::MAX as u64,
            NumKind::S64 | NumKind::U64 | NumKind::Ptr => u64::MAX,
        }
    }

    /// The least value of the kind.
    pub fn low(self) -> i128
        ensures { result ≡ low_of self }
    {
        match self {
            NumKind::S8 => i8::MIN as i128,
            NumKind::S16 => i16::MIN as i128,
            NumKind::S32 => i32::MIN as i128,
            NumKind::S64 => i64::MIN as i128,
            _ => 0,
        }
    }

    /// The greatest value of the kind.
    pub fn high(self) -> i128
        ensures { result ≡ high_of self }
    {
        match self {
            NumKind::Bool => 1,
            NumKind::S8 => i8::MAX as i128,
            NumKind::U8 => u8::MAX as i128,
            NumKind::S16 => i16::MAX as i128,
            NumKind::U16 => u16::MAX as i128,
            NumKind::S32 => i32::MAX as i128,
            NumKind::U32 => u32::MAX as i128,
            NumKind::S64 => i64::MAX as i128,
            NumKind::U64 | NumKind::Ptr => u64::MAX as i128,
        }
    }

    /// Whether the number is a value of the kind.
    pub fn is_value(self, z: i128) -> bool
        ensures { result ≡ is_value self z }
    {
        self.low() <= z && z <= self.high()
    }
}
