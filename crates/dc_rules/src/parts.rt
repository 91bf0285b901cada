// The types of what is reached through others: elements, targets, members, calls and sizes (C11 6.5.2, 6.5.3).
ghost use Rattle.std.specs.Prelude.{◌≡◌, MatchResult, option_copied};
ghost use Rattle.dc_layout.specs.Types.{type_view, structs_view};
ghost use Rattle.dc_program.specs.Types.{pointee as pointee_of};
ghost use Rattle.dc_program.specs.Typing.{element as element_of, index_type as index_of, deref_type as target_of, member_in as member_of, member_type as member_type_of, through_type as through_of, called_type as called_of, sizeof_type as size_of, result_of as gives, parameters_of as takes};
ghost use Rattle.dc_rules.specs.Judged.{Answers};
ghost use Rattle.dc_rules.specs.Seen.{part_view, seen, types_view};

use crate::judged::{Refused, keeps};
use crate::types::{
    is_complete, is_const, is_function, is_number, number, pointee, qualified_if, struct_of,
};
use dc_program::{CType, NumKind, Rule, StructTable};
use sqlite_items::at;
use std::alloc::Global;

// The type of an element that a pointer leads to.
fn element(alloc: Global, structs: &StructTable, t: &CType) -> Result<CType, Refused>
    ensures { Answers result (element_of (structs_view structs.now) (pointee_of (type_view t.now))) }
{
    match pointee(t) {
        None => Err(Refused::Rule(Rule::NoIndex)),
        Some(to) if is_complete(structs, to) => Ok(to.duplicate(alloc)?),
        Some(_) => Err(Refused::Rule(Rule::Incomplete)),
    }
}

/// The type of an element (C11 6.5.2.1): one operand is a number and the other a pointer, in either order.
///
/// It is refused by `NoIndex` exactly where the operands are none, by `Incomplete` where the elements have no size, and by
/// `Memory` where memory is refused.
pub fn index_type(
    alloc: Global,
    structs: &StructTable,
    t: &CType,
    u: &CType,
) -> Result<CType, Refused>
    ensures { Answers result (index_of (structs_view structs.now) (type_view t.now) (type_view u.now)) }
{
    if is_number(u) {
        element(alloc, structs, t)
    } else if is_number(t) {
        element(alloc, structs, u)
    } else {
        Err(Refused::Rule(Rule::NoIndex))
    }
}

/// The type of what a pointer points to (C11 6.5.3.2): a function, or something of a size.
///
/// It is refused by `NoPointer` exactly where the operand is no pointer to these, and by `Memory` where memory is refused.
pub fn deref_type(alloc: Global, structs: &StructTable, t: &CType) -> Result<CType, Refused>
    ensures { Answers result (target_of (structs_view structs.now) (type_view t.now)) }
{
    match pointee(t) {
        Some(to) if is_function(to) || is_complete(structs, to) => Ok(to.duplicate(alloc)?),
        _ => Err(Refused::Rule(Rule::NoPointer)),
    }
}

// The declared type of member `k` of the struct that a type is.
fn member_in<'a>(structs: &'a StructTable, t: &CType, k: u32) -> Option<&'a CType>
    ensures { part_view (option_copied result) ≡ member_of (structs_view structs.now) (type_view t.now) k }
{
    let members = structs.members(struct_of(t)?)?;
    at(members, k as usize)
}

/// The type of member `k`, from 0, of the struct that a type is; it is const where the struct is (C11 6.5.2.3).
///
/// It is refused by `NoMember` exactly where the type is no struct with such a member, and by `Memory` where memory is refused.
pub fn member_type(
    alloc: Global,
    structs: &StructTable,
    t: &CType,
    k: u32,
) -> Result<CType, Refused>
    ensures { Answers result (member_type_of (structs_view structs.now) (type_view t.now) k) }
{
    match member_in(structs, t, k) {
        None => Err(Refused::Rule(Rule::NoMember)),
        Some(member) => Ok(qualified_if(alloc, is_const(t), member)?),
    }
}

/// The type of member `k`, from 0, of the struct that a pointer points to. It is refused as `member_type` is, and by `NoMember`
/// where the operand is no pointer.
pub fn through_type(
    alloc: Global,
    structs: &StructTable,
    t: &CType,
    k: u32,
) -> Result<CType, Refused>
    ensures { Answers result (through_of (structs_view structs.now) (type_view t.now) k) }
{
    match pointee(t) {
        None => Err(Refused::Rule(Rule::NoMember)),
        Some(to) => member_type(alloc, structs, to, k),
    }
}

/// The type of the function that is called (C11 6.5.2.2), or `NoCall` exactly where the operand is no function and no pointer
/// to one. It takes no memory.
pub fn called_type(t: &CType) -> Result<&CType, Rule>
    ensures { MatchResult result
        (λ function. called_of (type_view t.now) ≡ Ok (type_view function.now))
        (λ rule. called_of (type_view t.now) ≡ Err rule) }
{
    match pointee(t) {
        Some(function) if is_function(function) => Ok(function),
        _ => Err(Rule::NoCall),
    }
}

/// What a call of a function of the type gives.
pub fn result_of(t: &CType) -> &CType
    ensures { type_view result.now ≡ gives (type_view t.now) }
{
    match t {
        CType::Func(gives, _) => gives.get(),
        _ => t,
    }
}

/// What a function of the type takes, in order.
pub fn parameters_of(t: &CType) -> &[CType]
    ensures { types_view result.now ≡ takes (type_view t.now) }
{
    match t {
        CType::Func(_, parameters) => parameters.as_slice(),
        _ => &[],
    }
}

/// The type of a size (C11 6.5.3.4), which is unsigned with 64 bits, or `NoSize` exactly where the type has none. It takes no
/// memory.
pub fn sizeof_type(structs: &StructTable, t: &CType) -> Result<CType, Rule>
    ensures { seen result ≡ size_of (structs_view structs.now) (type_view t.now) }
{
    keeps(Rule::NoSize, is_complete(structs, t), number(NumKind::U64))
}
