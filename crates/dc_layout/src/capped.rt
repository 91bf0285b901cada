// Sizes and alignments as they are computed and kept.
ghost use Rattle.std.specs.Prelude.{◌≡◌, ◌<◌, ◌≤◌, IfSome};
ghost use Rattle.dc_layout.specs.Layout.{scalar};
ghost use Rattle.dc_layout.specs.Kept.{capped, capped_array, capped_with, capped_whole, IsSmall};

/// The most bytes of a type.
pub const LIMIT: u64 = 16_777_216;

/// A size and an alignment in bytes. Every size above the limit is the one number above it, so that nothing overflows.
#[derive(Clone, Copy)]
pub struct Capped {
    pub size: u64,
    pub align: u64,
}

impl Capped {
    /// Before the first member of a struct: no bytes, at any place.
    pub const NOTHING: Capped = Capped { size: 0, align: 1 };

    /// A number of 1 to 8 bytes.
    pub fn scalar(bytes: u64) -> Capped
        requires some { 0 < bytes }
        requires few { bytes ≤ 8 }
        ensures value { result ≡ capped (scalar bytes) }
        ensures small { IsSmall result }
    {
        Capped {
            size: bytes,
            align: bytes,
        }
    }

    /// An array of so many elements; none where there are 0, which stands for an array without a length.
    pub fn repeated(self, count: u64) -> Option<Capped>
        requires { IsSmall self }
        ensures value { result ≡ capped_array self count }
        ensures small { IfSome result IsSmall }
    {
        if count == 0 {
            return None;
        }
        Some(Capped {
            size: count.saturating_mul(self.size).min(LIMIT + 1),
            align: self.align,
        })
    }

    /// Members that end at this size and have this largest alignment, with one more behind them.
    pub fn with(self, member: Capped) -> Capped
        requires before { IsSmall self }
        requires behind { IsSmall member }
        ensures value { result ≡ capped_with self member }
        ensures small { IsSmall result }
    {
        let begin = self.size.next_multiple_of(member.align);
        Capped {
            size: (begin + member.size).min(LIMIT + 1),
            align: self.align.max(member.align),
        }
    }

    /// The struct of members that end at this size and have this largest alignment.
    pub fn rounded(self) -> Capped
        requires { IsSmall self }
        ensures value { result ≡ capped_whole self }
        ensures small { IsSmall result }
    {
        Capped {
            size: self.size.next_multiple_of(self.align).min(LIMIT + 1),
            align: self.align,
        }
    }
}
