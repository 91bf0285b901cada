// Conversions of numbers (C11 6.3.1).
ghost use Rattle.std.specs.Prelude.{◌≡◌, ◌≤◌, ◌-◌, ◌^◌, false};
ghost use Rattle.dc_num.specs.Kinds.{IsValue, bits_of, is_pointer};
ghost use Rattle.dc_num.specs.Conversions.{promoted, common_of, bits as bits_in, value_of_bits, truth as truth_of, converted};

use crate::kind::NumKind;

/// The kind after integer promotion (C11 6.3.1.1): int where it is narrower, else the kind itself.
pub fn promote(a: NumKind) -> NumKind
    requires number { is_pointer a ≡ false }
    ensures { result ≡ promoted a }
{
    match a {
        NumKind::Bool | NumKind::S8 | NumKind::U8 | NumKind::S16 | NumKind::U16 => NumKind::S32,
        wide => wide,
    }
}

/// The common kind of two operands by the usual arithmetic conversions (C11 6.3.1.8).
pub fn common(a: NumKind, b: NumKind) -> NumKind
    requires left { is_pointer a ≡ false }
    requires right { is_pointer b ≡ false }
    ensures { result ≡ common_of a b }
{
    match (promote(a), promote(b)) {
        (NumKind::U64, _) | (_, NumKind::U64) => NumKind::U64,
        (NumKind::S64, _) | (_, NumKind::S64) => NumKind::S64,
        (NumKind::U32, _) | (_, NumKind::U32) => NumKind::U32,
        _ => NumKind::S32,
    }
}

/// The bits that the number has as a value of the kind.
#[tactic(auto, unfolding(crate::specs::Conversions::bits))]
pub fn bits(kind: NumKind, z: i128) -> u64
    ensures value { result ≡ bits_in kind z }
    ensures few { result ≤ 2 ^ bits_of kind - 1 }
{
    z.rem_euclid(kind.modulus()) as u64
}

/// The value of the kind that the bits spell.
pub fn value(kind: NumKind, bits: u64) -> i128
    ensures { result ≡ value_of_bits kind bits }
{
    let value = bits as i128;
    if kind.is_signed() && kind.high() < value {
        value - kind.modulus()
    } else {
        value
    }
}

/// The int that a comparison gives.
pub fn truth(holds: bool) -> i128
    ensures { result ≡ truth_of holds }
{
    if holds { 1 } else { 0 }
}

/// Any number as a value of the kind (C11 6.3.1.2, 6.3.1.3): to `_Bool` 0 where it is 0, else 1; to another kind the value
/// that is congruent to it modulo 2 to the width.
#[tactic(auto, unfolding(crate::specs::Conversions::converted))]
pub fn convert(to: NumKind, v: i128) -> i128
    ensures value { result ≡ converted to v }
    ensures valued { IsValue to result }
{
    match to {
        NumKind::Bool => truth(v != 0),
        kind => value(kind, bits(kind, v)),
    }
}
