// What operators make of values of a kind (C11 6.5.3.3, 6.5.5 to 6.5.12).
ghost use Rattle.std.specs.Prelude.{◌≡◌, ◌<◌, ◌≤◌, ◌*◌, ◌^◌, pos, true, false, ◌*ℤ◌};
ghost use Rattle.std.specs.Int.{int_div_euclid};
ghost use Rattle.dc_num.specs.Kinds.{IsValue, is_pointer, is_signed, bits_of};
ghost use Rattle.dc_num.specs.Operators.{settled, quotient as quotient_of, remainder as remainder_of, shifted_left, shifted_right, binary_of, unary_of, IsRight, is_operand_kind};

use crate::conversions::{bits, truth, value};
use crate::kind::NumKind;
use crate::operators::{BinOp, UnOp};

// An unsigned result wraps around, and a signed one that doesn't fit has no value.
fn settle(kind: NumKind, z: i128) -> Option<i128>
    ensures { result ≡ settled kind z }
{
    if kind.is_signed() {
        if kind.is_value(z) { Some(z) } else { None }
    } else {
        Some(z.rem_euclid(kind.modulus()))
    }
}

// A product; an unsigned one may need twice the width.
fn product(kind: NumKind, a: i128, b: i128) -> Option<i128>
    requires left { IsValue kind a }
    requires right { IsValue kind b }
    ensures { result ≡ settled kind (a *ℤ b) }
{
    if kind.is_signed() {
        settle(kind, a * b)
    } else {
        let product = a as u128 * b as u128;
        Some((product % kind.modulus() as u128) as i128)
    }
}

// A quotient, truncated toward zero.
fn quotient(kind: NumKind, a: i128, b: i128) -> Option<i128>
    requires left { IsValue kind a }
    requires right { IsValue kind b }
    ensures { result ≡ quotient_of kind a b }
{
    if b == 0 { None } else { settle(kind, a / b) }
}

// A remainder, where the quotient has a value.
fn remainder(kind: NumKind, a: i128, b: i128) -> Option<i128>
    requires left { IsValue kind a }
    requires right { IsValue kind b }
    ensures { result ≡ remainder_of kind a b }
{
    if b == 0 {
        return None;
    }
    if quotient(kind, a, b).is_none() {
        return None;
    }
    Some(a % b)
}

// The number, moved to the left.
fn moved(a: u64, count: u32) -> i128
    requires { count < 64 }
    ensures { result ≡ pos (a * 2 ^ count) }
{
    ((a as u128) << count) as i128
}

// The number, moved to the right: its quotient by a power of two, rounded down.
fn lowered(a: i128, count: u32) -> i128
    requires { count < 64 }
    ensures { result ≡ int_div_euclid a (pos (2 ^ count)) }
{
    a >> count
}

fn shift_left(kind: NumKind, a: i128, count: i128) -> Option<i128>
    requires left { IsValue kind a }
    ensures { result ≡ shifted_left kind a count }
{
    if a < 0 || count < 0 || kind.bits() as i128 <= count {
        return None;
    }
    settle(kind, moved(a as u64, count as u32))
}

fn shift_right(kind: NumKind, a: i128, count: i128) -> Option<i128>
    requires left { IsValue kind a }
    ensures { result ≡ shifted_right kind a count }
{
    if count < 0 || kind.bits() as i128 <= count {
        return None;
    }
    Some(lowered(a, count as u32))
}

/// What an operator makes of two values of a kind, a narrow one not promoted; none exactly where C leaves the value
/// undefined (C11 6.5.5 to 6.5.12): a signed result that doesn't fit, a divisor of 0 or a quotient that doesn't fit, a
/// shift's count that is negative or not below the width, a negative number or a signed result that doesn't fit in a
/// shift to the left. The count of a shift is any number. Pointers are tested for equality alone.
#[tactic(auto, unfolding(crate::specs::Operators::binary_of))]
pub fn binary(op: BinOp, kind: NumKind, a: i128, b: i128) -> Option<i128>
    requires left { IsValue kind a }
    requires right { IsRight op kind b }
    requires operands { is_operand_kind op kind ≡ true }
    ensures { result ≡ binary_of op kind a b }
{
    match op {
        BinOp::Add => settle(kind, a + b),
        BinOp::Sub => settle(kind, a - b),
        BinOp::Mul => product(kind, a, b),
        BinOp::Div => quotient(kind, a, b),
        BinOp::Rem => remainder(kind, a, b),
        BinOp::Shl => shift_left(kind, a, b),
        BinOp::Shr => shift_right(kind, a, b),
        BinOp::And => Some(value(kind, bits(kind, a) & bits(kind, b))),
        BinOp::Or => Some(value(kind, bits(kind, a) | bits(kind, b))),
        BinOp::Xor => Some(value(kind, bits(kind, a) ^ bits(kind, b))),
        BinOp::Lt => Some(truth(a < b)),
        BinOp::Le => Some(truth(a <= b)),
        BinOp::Gt => Some(truth(a > b)),
        BinOp::Ge => Some(truth(a >= b)),
        BinOp::Eq => Some(truth(a == b)),
        BinOp::Ne => Some(truth(a != b)),
    }
}

/// What an operator makes of one value of a kind, a narrow one not promoted; none exactly where the negative of a signed
/// value doesn't fit (C11 6.5.3.3).
#[tactic(auto, unfolding(crate::specs::Operators::unary_of))]
pub fn unary(op: UnOp, kind: NumKind, a: i128) -> Option<i128>
    requires operand { IsValue kind a }
    requires number { is_pointer kind ≡ false }
    ensures { result ≡ unary_of op kind a }
{
    match op {
        UnOp::Neg => settle(kind, -a),
        UnOp::Not => Some(value(kind, kind.mask() - bits(kind, a))),
    }
}
