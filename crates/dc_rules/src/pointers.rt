// Sums, differences and comparisons of pointers (C11 6.5.6, 6.5.8, 6.5.9).
ghost use Rattle.std.specs.Prelude.{◌≡◌};
ghost use Rattle.dc_layout.specs.Types.{type_view, structs_view};
ghost use Rattle.dc_program.specs.Typing.{moved_type as moved_of, sum_type as sum_of, distance_targets, difference_type as difference_of, alike_targets as targets_alike, are_comparable as comparable};
ghost use Rattle.dc_program.specs.Types.{pointee as pointee_of};
ghost use Rattle.dc_rules.specs.Judged.{Answers};
ghost use Rattle.dc_rules.specs.Seen.{seen};

use crate::equality::alike;
use crate::judged::{Refused, answered, keeps};
use crate::numbers::balanced_type;
use crate::types::{
    decayed, is_complete, is_number, is_object_pointer, is_void_pointer, number, pointee,
};
use dc_program::{CType, NumKind, Rule, StructTable};
use std::alloc::Global;

// The type of a pointer that is moved, or the rule where the operand is no pointer.
fn moved_type(alloc: Global, structs: &StructTable, t: &CType, rule: Rule) -> Result<CType, Refused>
    ensures { Answers result (moved_of (structs_view structs.now) (type_view t.now) rule) }
{
    match pointee(t) {
        None => Err(Refused::Rule(rule)),
        Some(to) if is_complete(structs, to) => Ok(decayed(alloc, t)?),
        Some(_) => Err(Refused::Rule(Rule::Incomplete)),
    }
}

/// The type of a sum (C11 6.5.6), of numbers or of a pointer and an integer, in either order. It is refused by `NoSum` where
/// the operands are neither, by `Incomplete` where the pointer's target has no size, and by `Memory` where memory is refused.
pub fn sum_type(
    alloc: Global,
    structs: &StructTable,
    t: &CType,
    u: &CType,
) -> Result<CType, Refused>
    ensures { Answers result (sum_of (structs_view structs.now) (type_view t.now) (type_view u.now)) }
{
    match (is_number(t), is_number(u)) {
        (true, true) => answered(balanced_type(t, u)),
        (false, true) => moved_type(alloc, structs, t, Rule::NoSum),
        (true, false) => moved_type(alloc, structs, u, Rule::NoSum),
        (false, false) => Err(Refused::Rule(Rule::NoSum)),
    }
}

// The type of the distance of two pointers.
fn distance_type(structs: &StructTable, t: &CType, u: &CType) -> Result<CType, Rule>
    ensures { seen result ≡ distance_targets (structs_view structs.now) (pointee_of (type_view t.now)) (pointee_of (type_view u.now)) }
{
    match (pointee(t), pointee(u)) {
        (Some(to), Some(other)) if alike(to, other) => keeps(
            Rule::Incomplete,
            is_complete(structs, to),
            number(NumKind::S64),
        ),
        _ => Err(Rule::NoSum),
    }
}

/// The type of a difference (C11 6.5.6), of numbers, of a pointer and an integer, or of two pointers to types that are equal up
/// to qualifiers. It is refused as a sum is.
pub fn difference_type(
    alloc: Global,
    structs: &StructTable,
    t: &CType,
    u: &CType,
) -> Result<CType, Refused>
    ensures { Answers result (difference_of (structs_view structs.now) (type_view t.now) (type_view u.now)) }
{
    match (is_number(t), is_number(u)) {
        (true, true) => answered(balanced_type(t, u)),
        (false, true) => moved_type(alloc, structs, t, Rule::NoSum),
        (_, false) => answered(distance_type(structs, t, u)),
    }
}

/// Whether the values of two types are pointers whose targets are equal up to qualifiers.
pub fn alike_targets(t: &CType, u: &CType) -> bool
    ensures { result ≡ targets_alike (pointee_of (type_view t.now)) (pointee_of (type_view u.now)) }
{
    match (pointee(t), pointee(u)) {
        (Some(to), Some(other)) => alike(to, other),
        _ => false,
    }
}

/// Whether the values of two types are pointers that can be compared: with equal targets up to qualifiers, or one to an object
/// and one to `void`.
pub fn are_comparable(t: &CType, u: &CType) -> bool
    ensures { result ≡ comparable (type_view t.now) (type_view u.now) }
{
    alike_targets(t, u)
        || is_object_pointer(t) && is_void_pointer(u)
        || is_void_pointer(t) && is_object_pointer(u)
}
