// Which values go where: assignments, casts and the arms of a conditional (C11 6.5.4, 6.5.15, 6.5.16.1).
ghost use Rattle.std.specs.Prelude.{◌≡◌, IfOk};
ghost use Rattle.dc_layout.specs.Types.{type_view};
ghost use Rattle.dc_program.specs.Types.{pointee as pointee_of};
ghost use Rattle.dc_program.specs.Typing.{are_equal_structs as equal_structs, is_assignable as assignable, is_cast as castable, joined as joined_of, arm_targets as arms_of, arms_type as arms_type_of};
ghost use Rattle.dc_rules.specs.Judged.{Answers};

use crate::judged::{Refused, answered};
use crate::numbers::balanced_type;
use crate::pointers::{alike_targets, are_comparable};
use crate::types::{
    bare, is_const, is_number, is_object_pointer, is_pointer_type, is_void, pointee, qualified_if,
    struct_of,
};
use dc_program::{CType, Rule};
use std::alloc::{AllocError, Global};

// Whether two types are the same struct, qualified or not.
fn are_equal_structs(t: &CType, u: &CType) -> bool
    ensures { result ≡ equal_structs (type_view t.now) (type_view u.now) }
{
    match (struct_of(t), struct_of(u)) {
        (Some(s), Some(r)) => s == r,
        _ => false,
    }
}

/// Whether a value of the second type can be assigned to the first (C11 6.5.16.1), where it is said whether the value is a null
/// pointer constant: two numbers, the same struct, pointers that can be compared, or such a constant to a pointer. Whether the
/// first is an lvalue that may be changed isn't asked.
pub fn is_assignable(t: &CType, u: &CType, u_is_null: bool) -> bool
    ensures { result ≡ assignable (type_view t.now) (type_view u.now) u_is_null }
{
    is_number(t) && is_number(u)
        || are_equal_structs(t, u)
        || is_pointer_type(t) && (are_comparable(t, u) || u_is_null)
}

/// Whether a value of the second type can be cast to the first (C11 6.5.4), where it is said whether the value is an integer
/// constant of 0: two numbers, pointers to objects, pointers with equal targets up to qualifiers, or 0 to a pointer. A cast to
/// `void` isn't asked for here.
pub fn is_cast(t: &CType, u: &CType, u_is_zero: bool) -> bool
    ensures { result ≡ castable (type_view t.now) (type_view u.now) u_is_zero }
{
    is_number(t) && is_number(u)
        || is_pointer_type(t)
            && (is_object_pointer(t) && is_object_pointer(u) || u_is_zero || alike_targets(t, u))
}

// The first of two targets, with the qualifiers of both.
fn joined(alloc: Global, t: &CType, u: &CType) -> Result<CType, AllocError>
    ensures { IfOk result (λ r. type_view r ≡ joined_of (type_view t.now) (type_view u.now)) }
{
    qualified_if(alloc, is_const(u), t)
}

// The type of two arms that are pointers.
fn arm_targets(alloc: Global, t: &CType, u: &CType) -> Result<CType, Refused>
    ensures { Answers result (arms_of (pointee_of (type_view t.now)) (pointee_of (type_view u.now))) }
{
    match (pointee(t), pointee(u)) {
        (Some(to), Some(other)) => {
            let target = if is_void(bare(other)) {
                joined(alloc, other, to)?
            } else {
                joined(alloc, to, other)?
            };
            Ok(CType::pointer(alloc, target)?)
        }
        _ => Err(Refused::Rule(Rule::ArmsDiffer)),
    }
}

/// The type of a conditional whose arms have these types (C11 6.5.15): the common one of numbers, the struct, or a pointer with
/// the qualifiers of both targets, to `void` where one points there.
///
/// It is refused by `ArmsDiffer` exactly where the types are none of these, and by `Memory` where memory is refused.
pub fn arms_type(alloc: Global, t: &CType, u: &CType) -> Result<CType, Refused>
    ensures { Answers result (arms_type_of (type_view t.now) (type_view u.now)) }
{
    if is_number(t) && is_number(u) {
        answered(balanced_type(t, u))
    } else if are_equal_structs(t, u) {
        Ok(bare(t).duplicate(alloc)?)
    } else if are_comparable(t, u) {
        arm_targets(alloc, t, u)
    } else {
        Err(Refused::Rule(Rule::ArmsDiffer))
    }
}
