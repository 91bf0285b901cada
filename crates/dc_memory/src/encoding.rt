// Values as bits, and bits as bytes (C11 6.2.6.1, 6.3.1.2, 6.3.1.3).
ghost use Rattle.std.specs.Prelude.{◌≡◌, ◌<◌, ◌≤◌, ◌^◌, length, pos, nat_lt, ◌+◌, ◌-ℤ◌, if◌then◌else◌};
ghost use Rattle.dc_memory.specs.Kinds.{IsValue, size_of};
ghost use Rattle.dc_memory.specs.Conversions.{bits, converted};
ghost use Rattle.dc_memory.specs.Encoding.{bytes_of, number_of as number_in};

use crate::kind::MemKind;

// The bits of the value that a number is converted to.
#[tactic(auto, unfolding(crate::specs::Conversions::bits, crate::specs::Conversions::converted))]
pub(crate) fn value_bits(kind: MemKind, z: i128) -> u64
    ensures { result ≡ bits kind (converted kind z) }
{
    match kind {
        MemKind::Bool => (z != 0) as u64,
        MemKind::S8 | MemKind::U8 => z.rem_euclid(1 << 8) as u64,
        MemKind::S16 | MemKind::U16 => z.rem_euclid(1 << 16) as u64,
        MemKind::S32 | MemKind::U32 => z.rem_euclid(1 << 32) as u64,
        MemKind::S64 | MemKind::U64 | MemKind::Ptr => z.rem_euclid(1 << 64) as u64,
    }
}

// Bits as a number in two's complement, of which half of all values are negative.
fn signed(bits: u64, half: u64) -> i128
    ensures { result ≡ (if nat_lt bits half then pos bits else pos bits -ℤ pos (half + half)) }
{
    if bits < half {
        bits as i128
    } else {
        bits as i128 - half as i128 - half as i128
    }
}

// The value of the kind that so many bits spell.
#[tactic(auto, unfolding(crate::specs::Conversions::bits, crate::specs::Conversions::converted))]
pub(crate) fn bits_value(kind: MemKind, bits: u64) -> i128
    requires { bits < 256 ^ size_of kind }
    ensures value { result ≡ converted kind (pos bits) }
    ensures valued { IsValue kind result }
{
    match kind {
        MemKind::Bool => (bits != 0) as i128,
        MemKind::S8 => signed(bits, 1 << 7),
        MemKind::S16 => signed(bits, 1 << 15),
        MemKind::S32 => signed(bits, 1 << 31),
        MemKind::S64 => signed(bits, 1 << 63),
        MemKind::U8 | MemKind::U16 | MemKind::U32 | MemKind::U64 | MemKind::Ptr => bits as i128,
    }
}

// The number that at most eight bytes spell, the lowest first.
pub(crate) fn number_of(bytes: &[u8]) -> u64
    requires { length bytes.now ≤ 8 }
    ensures value { result ≡ number_in bytes.now }
    ensures below { result < 256 ^ length bytes.now }
{
    let mut padded = [0; 8];
    padded[..bytes.len()].copy_from_slice(bytes);
    u64::from_le_bytes(padded)
}

// The bytes of a number, the lowest first.
pub(crate) fn all_bytes(number: u64) -> [u8; 8]
    ensures { result ≡ bytes_of 8 number }
{
    number.to_le_bytes()
}
