// The types that operators with two operands give (C11 6.5.5 to 6.5.12).
ghost use Rattle.std.specs.Prelude.{◌≡◌};
ghost use Rattle.dc_layout.specs.Types.{type_view, structs_view};
ghost use Rattle.dc_program.specs.Typing.{relation_type as relation_of, equality_type as equality_of, binary_type as binary_of};
ghost use Rattle.dc_rules.specs.Judged.{Answers};
ghost use Rattle.dc_rules.specs.Seen.{seen};

use crate::judged::{Refused, answered, keeps};
use crate::numbers::{balanced_type, shift_type};
use crate::pointers::{are_comparable, difference_type, sum_type};
use crate::types::{is_number, is_pointer, number};
use dc_program::{BinOp, CType, NumKind, Rule, StructTable};
use std::alloc::Global;

// The type of a comparison by `<`, `<=`, `>` or `>=` (C11 6.5.8).
fn relation_type(t: &CType, u: &CType) -> Result<CType, Rule>
    ensures { seen result ≡ relation_of (type_view t.now) (type_view u.now) }
{
    let holds = is_number(t) && is_number(u) || are_comparable(t, u);
    keeps(Rule::Incomparable, holds, number(NumKind::S32))
}

// The type of a comparison by `==` or `!=` (C11 6.5.9).
fn equality_type(t: &CType, t_is_null: bool, u: &CType, u_is_null: bool) -> Result<CType, Rule>
    ensures { seen result ≡ equality_of (type_view t.now) t_is_null (type_view u.now) u_is_null }
{
    let holds = is_number(t) && is_number(u)
        || are_comparable(t, u)
        || is_pointer(t) && u_is_null
        || t_is_null && is_pointer(u);
    keeps(Rule::Incomparable, holds, number(NumKind::S32))
}

/// The type that an operator gives with two operands (C11 6.5.5 to 6.5.12), of each of which it is said whether it is a null
/// pointer constant, which counts beside `==` and `!=` alone.
///
/// It is refused by `IntegerNeeded`, `NoSum`, `Incomplete` or `Incomparable` exactly where the types break that rule, and by
/// `Memory` where memory is refused.
pub fn binary_type(
    alloc: Global,
    structs: &StructTable,
    op: BinOp,
    t: &CType,
    t_is_null: bool,
    u: &CType,
    u_is_null: bool,
) -> Result<CType, Refused>
    ensures { Answers result (binary_of (structs_view structs.now) op (type_view t.now) t_is_null (type_view u.now) u_is_null) }
{
    match op {
        BinOp::Add => sum_type(alloc, structs, t, u),
        BinOp::Sub => difference_type(alloc, structs, t, u),
        BinOp::Mul | BinOp::Div | BinOp::Rem => answered(balanced_type(t, u)),
        BinOp::And | BinOp::Or | BinOp::Xor => answered(balanced_type(t, u)),
        BinOp::Shl | BinOp::Shr => answered(shift_type(t, u)),
        BinOp::Lt | BinOp::Le | BinOp::Gt | BinOp::Ge => answered(relation_type(t, u)),
        BinOp::Eq | BinOp::Ne => answered(equality_type(t, t_is_null, u, u_is_null)),
    }
}
