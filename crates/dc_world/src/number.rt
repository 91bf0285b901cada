// How many bytes values take, and what operators make of values of any kind.
ghost use Rattle.std.specs.Prelude.{◌≡◌, ◌≤◌};
ghost use Rattle.dc_num.specs.Kinds.{IsValue};
ghost use Rattle.dc_num.specs.Operators.{IsRight, is_equality as is_equality_operator};
ghost use Rattle.dc_core.specs.Number.{computed};
ghost use Rattle.dc_memory.specs.Kinds.{size_of};
ghost use Rattle.dc_program.specs.Kinds.{mem_kind};

use dc_core::{BinOp, NumKind};
use dc_num::binary;

/// How many bytes a value of the kind takes.
pub fn size(kind: NumKind) -> u64
    ensures value { result ≡ size_of (mem_kind kind) }
    ensures few { result ≤ 8 }
{
    match kind {
        NumKind::Bool | NumKind::S8 | NumKind::U8 => 1,
        NumKind::S16 | NumKind::U16 => 2,
        NumKind::S32 | NumKind::U32 => 4,
        NumKind::S64 | NumKind::U64 | NumKind::Ptr => 8,
    }
}

// Whether the operator tests for equality.
fn is_equality(op: BinOp) -> bool
    ensures { result ≡ is_equality_operator op }
{
    matches!(op, BinOp::Eq | BinOp::Ne)
}

/// What an operator makes of two values of a kind; the count of a shift is any number. There is none where C leaves the
/// value undefined (C11 6.5.5 to 6.5.12), nor of pointers, unless they are tested for equality.
#[tactic(auto, unfolding(dc_core::specs::Number::computed))]
pub fn compute(op: BinOp, kind: NumKind, a: i128, b: i128) -> Option<i128>
    requires left { IsValue kind a }
    requires right { IsRight op kind b }
    ensures { result ≡ computed op kind a b }
{
    if kind.is_pointer() && !is_equality(op) {
        None
    } else {
        binary(op, kind, a, b)
    }
}
