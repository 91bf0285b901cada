// What operators make of numbers.
ghost use Rattle.std.specs.Prelude.{◌≡◌, false};
ghost use Rattle.dc_core.specs.Contract.{holds as value_holds};
ghost use Rattle.dc_num.specs.Conversions.{converted};
ghost use Rattle.dc_num.specs.Kinds.{is_pointer};
ghost use Rattle.dc_num.specs.Operators.{IsRight, binary_of, unary_of};
ghost use Rattle.dc_num.specs.declared.kind.NumKind.TheVariants.{Ptr};
ghost use Rattle.dc_goto.specs.Values.{as_length, as_pointer, right_operand, operated, is_true as is_true_number, decides as decides_first};

use crate::pointers::compare;
use dc_core::{BinOp, LazyOp, NumKind, UnOp};
use dc_memory::Store;
use dc_num::{binary, bits, convert, unary};

// A number as a pointer.
pub(crate) fn pointer(z: i128) -> u64
    ensures { result ≡ as_pointer z }
{
    bits(NumKind::Ptr, z)
}

// A number as a length.
pub(crate) fn length(z: i128) -> u64
    ensures { result ≡ as_length z }
{
    bits(NumKind::U64, z)
}

// The operand on the right: the count of a shift as it is, any other one converted to the operator's kind.
fn right(op: BinOp, kind: NumKind, b: i128) -> i128
    ensures value { result ≡ right_operand op kind b }
    ensures fits { IsRight op kind result }
{
    match op {
        BinOp::Shl | BinOp::Shr => b,
        _ => convert(kind, b),
    }
}

// What an operator makes of two numbers, which are converted to its kind, but for the count of a shift. Pointers are
// compared.
pub(crate) fn operate(memory: &Store, op: BinOp, kind: NumKind, a: i128, b: i128) -> Option<i128>
    ensures { result ≡ operated op kind memory.now a b }
{
    if kind.is_pointer() {
        compare(memory, op, pointer(a), pointer(b))
    } else {
        binary(op, kind, convert(kind, a), right(op, kind, b))
    }
}

// Minus or the complement of a number as a pointer's, which has 64 bits.
fn negate_pointer(op: UnOp, z: i128) -> Option<i128>
    ensures { result ≡ unary_of op Ptr (converted Ptr z) }
{
    unary(op, NumKind::U64, convert(NumKind::U64, z))
}

// Minus or the complement of a number that is converted to the kind.
pub(crate) fn negate(op: UnOp, kind: NumKind, z: i128) -> Option<i128>
    ensures { result ≡ unary_of op kind (converted kind z) }
{
    match kind {
        NumKind::Ptr => negate_pointer(op, z),
        kind => unary(op, kind, convert(kind, z)),
    }
}

/// Whether a number counts as true.
pub fn is_true(z: i128) -> bool
    ensures { result ≡ is_true_number z }
{
    z != 0
}

/// Whether the value holds: there is one, and it isn't 0.
pub fn holds(value: Option<i128>) -> bool
    ensures { result ≡ value_holds value }
{
    match value {
        None => false,
        Some(z) => z != 0,
    }
}

// Whether the first operand of a lazy operator decides it.
pub(crate) fn decides(op: LazyOp, first: bool) -> bool
    ensures { result ≡ decides_first op first }
{
    match op {
        LazyOp::Both => !first,
        LazyOp::Either => first,
    }
}
