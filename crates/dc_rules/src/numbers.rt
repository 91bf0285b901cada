// The types that operators on numbers give (C11 6.5.3.3, 6.5.5, 6.5.7, 6.5.10 to 6.5.14).
ghost use Rattle.std.specs.Prelude.{◌≡◌};
ghost use Rattle.dc_layout.specs.Types.{type_view};
ghost use Rattle.dc_program.specs.Typing.{balanced_type as balanced_of, shift_type as shift_of, truth_type as truth_of, unary_type as unary_of};
ghost use Rattle.dc_rules.specs.Seen.{seen};

use crate::arithmetic::{common_kind, promoted};
use crate::judged::keeps;
use crate::types::{is_scalar, number, number_kind};
use dc_program::{CType, NumKind, Rule, UnaryOp};

/// The common type of two integer operands (C11 6.3.1.8), or `IntegerNeeded`. It takes no memory.
pub fn balanced_type(t: &CType, u: &CType) -> Result<CType, Rule>
    ensures { seen result ≡ balanced_of (type_view t.now) (type_view u.now) }
{
    match (number_kind(t), number_kind(u)) {
        (Some(k), Some(l)) => Ok(number(common_kind(k, l))),
        _ => Err(Rule::IntegerNeeded),
    }
}

/// The type of a shift (C11 6.5.7), which is the promoted one of the first operand, or `IntegerNeeded`. It takes no memory.
pub fn shift_type(t: &CType, u: &CType) -> Result<CType, Rule>
    ensures { seen result ≡ shift_of (type_view t.now) (type_view u.now) }
{
    match (number_kind(t), number_kind(u)) {
        (Some(k), Some(_)) => Ok(number(promoted(k))),
        _ => Err(Rule::IntegerNeeded),
    }
}

/// The type of an operand's test against 0 (C11 6.5.3.3, 6.5.13 to 6.5.15), which is int, or `TruthNeeded` exactly where the
/// operand is no number and no pointer. It takes no memory.
pub fn truth_type(t: &CType) -> Result<CType, Rule>
    ensures { seen result ≡ truth_of (type_view t.now) }
{
    keeps(Rule::TruthNeeded, is_scalar(t), number(NumKind::S32))
}

/// The type that an operator gives with one operand (C11 6.5.3.3): the promoted one, or `IntegerNeeded`; of `!` as of a test.
/// It takes no memory.
pub fn unary_type(op: UnaryOp, t: &CType) -> Result<CType, Rule>
    ensures { seen result ≡ unary_of op (type_view t.now) }
{
    match op {
        UnaryOp::Not => truth_type(t),
        UnaryOp::Plus | UnaryOp::Negate | UnaryOp::Complement => match number_kind(t) {
            Some(kind) => Ok(number(promoted(kind))),
            None => Err(Rule::IntegerNeeded),
        },
    }
}
