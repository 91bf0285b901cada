// Words on types (C11 6.2.5, 6.3.2.1, 6.7.3).
ghost use Rattle.std.specs.Prelude.{◌≡◌, IfOk, option_copied};
ghost use Rattle.dc_layout.specs.Types.{type_view, structs_view};
ghost use Rattle.dc_program.specs.Types.{number as number_of, bare as bare_of, is_const as has_const, qualified as qualified_of, qualified_if as qualified_if_of, decayed as decayed_of, value_kind as value_kind_of, number_kind as number_kind_of, is_number as has_numbers, pointee as pointee_of, is_pointer as has_pointers, is_pointer_type as is_of_pointers, is_scalar as has_scalars, is_function as is_of_functions, is_void as is_of_void, is_object_pointer as has_object_pointers, is_void_pointer as has_void_pointers, struct_of as struct_number_of, is_complete as has_size, is_sized as has_size_within, is_within_limit as has_parts_within};
ghost use Rattle.dc_rules.specs.Seen.{part_view};

use dc_layout::{Layout, size_of};
use dc_program::{CType, NumKind, StructTable, lay_kind, num_kind};
use std::alloc::{AllocError, Global};

/// The type of numbers of a kind. It takes no memory.
pub fn number(kind: NumKind) -> CType
    ensures { type_view result ≡ number_of kind }
{
    CType::Num(lay_kind(kind))
}

/// The type without its own qualifier.
pub fn bare(t: &CType) -> &CType
    ensures { type_view result.now ≡ bare_of (type_view t.now) }
{
    match t {
        CType::Const(of) => bare(of.get()),
        _ => t,
    }
}

/// Whether the type is const-qualified itself.
pub fn is_const(t: &CType) -> bool
    ensures { result ≡ has_const (type_view t.now) }
{
    matches!(t, CType::Const(_))
}

/// The kind of the values of a type, where they are numbers.
pub fn number_kind(t: &CType) -> Option<NumKind>
    ensures { result ≡ number_kind_of (type_view t.now) }
{
    match bare(t) {
        CType::Num(kind) => Some(num_kind(*kind)),
        _ => None,
    }
}

/// The kind of the values of a type, where they are numbers or pointers; an array and a function give a pointer.
pub fn value_kind(t: &CType) -> Option<NumKind>
    ensures { result ≡ value_kind_of (type_view t.now) }
{
    match t {
        CType::Const(of) => value_kind(of.get()),
        CType::Num(kind) => Some(num_kind(*kind)),
        CType::Pointer(_) | CType::Array(..) | CType::Func(..) => Some(NumKind::Ptr),
        CType::Void | CType::Struct(_) => None,
    }
}

/// What the values of a type point to, where they are pointers: of an array its element, of a function itself.
pub fn pointee(t: &CType) -> Option<&CType>
    ensures { part_view (option_copied result) ≡ pointee_of (type_view t.now) }
{
    match t {
        CType::Const(of) => pointee(of.get()),
        CType::Pointer(to) => Some(to.get()),
        CType::Array(element, _) => Some(element.get()),
        CType::Func(..) => Some(t),
        CType::Void | CType::Num(_) | CType::Struct(_) => None,
    }
}

/// Whether the values of a type are numbers.
pub fn is_number(t: &CType) -> bool
    ensures { result ≡ has_numbers (type_view t.now) }
{
    number_kind(t).is_some()
}

/// Whether the values of a type are pointers; those of an array and of a function are.
pub fn is_pointer(t: &CType) -> bool
    ensures { result ≡ has_pointers (type_view t.now) }
{
    pointee(t).is_some()
}

/// Whether the type is itself one of pointers, and no array or function that becomes a pointer.
pub fn is_pointer_type(t: &CType) -> bool
    ensures { result ≡ is_of_pointers (type_view t.now) }
{
    matches!(bare(t), CType::Pointer(_))
}

/// Whether the values of a type are numbers or pointers (C11 6.2.5 p21).
pub fn is_scalar(t: &CType) -> bool
    ensures { result ≡ has_scalars (type_view t.now) }
{
    value_kind(t).is_some()
}

/// Whether the type is one of functions.
pub fn is_function(t: &CType) -> bool
    ensures { result ≡ is_of_functions (type_view t.now) }
{
    matches!(t, CType::Func(..))
}

/// Whether the type is `void`, without a qualifier.
pub fn is_void(t: &CType) -> bool
    ensures { result ≡ is_of_void (type_view t.now) }
{
    matches!(t, CType::Void)
}

/// Whether the values of a type are pointers to objects, which may be of a type without a size.
pub fn is_object_pointer(t: &CType) -> bool
    ensures { result ≡ has_object_pointers (type_view t.now) }
{
    match pointee(t) {
        None => false,
        Some(to) => !is_function(to),
    }
}

/// Whether the values of a type are pointers to `void`, qualified or not.
pub fn is_void_pointer(t: &CType) -> bool
    ensures { result ≡ has_void_pointers (type_view t.now) }
{
    match pointee(t) {
        None => false,
        Some(to) => is_void(bare(to)),
    }
}

/// The number of the struct that a type is, qualified or not.
pub fn struct_of(t: &CType) -> Option<u32>
    ensures { result ≡ struct_number_of (type_view t.now) }
{
    match bare(t) {
        CType::Struct(number) => Some(*number),
        _ => None,
    }
}

/// Whether a type has a size, however large (C11 6.2.5 p1).
#[tactic(auto, using(crate::proofs::Complete::completes))]
pub fn is_complete(structs: &StructTable, t: &CType) -> bool
    ensures { result ≡ has_size (structs_view structs.now) (type_view t.now) }
{
    match size_of(structs, t) {
        Err(Layout::Incomplete) => false,
        Ok(_) | Err(Layout::TooLarge) => true,
    }
}

/// Whether a type has a size of at most 16,777,216 bytes.
pub fn is_sized(structs: &StructTable, t: &CType) -> bool
    ensures { result ≡ has_size_within (structs_view structs.now) (type_view t.now) }
{
    size_of(structs, t).is_ok()
}

/// Whether a type has a size of at most 16,777,216 bytes; of an array without a length, whether its elements have one.
pub fn is_within_limit(structs: &StructTable, t: &CType) -> bool
    ensures { result ≡ has_parts_within (structs_view structs.now) (type_view t.now) }
{
    match t {
        CType::Array(element, 0) => is_sized(structs, element.get()),
        _ => is_sized(structs, t),
    }
}

/// The type of what an lvalue or a function of a type gives as a value (C11 6.3.2.1): without its qualifier, a pointer to
/// the element of an array, a pointer to a function. It is on memory of its own.
pub fn decayed(alloc: Global, t: &CType) -> Result<CType, AllocError>
    ensures { IfOk result (λ r. type_view r ≡ decayed_of (type_view t.now)) }
{
    match t {
        CType::Const(of) => decayed(alloc, of.get()),
        CType::Array(element, _) => CType::pointer(alloc, element.get().duplicate(alloc)?),
        CType::Func(..) => CType::pointer(alloc, t.duplicate(alloc)?),
        CType::Void | CType::Num(_) | CType::Pointer(_) | CType::Struct(_) => t.duplicate(alloc),
    }
}

/// The type with a qualifier; of an array, its elements have it (C11 6.7.3 p9).
pub fn qualified(alloc: Global, t: CType) -> Result<CType, AllocError>
    ensures { IfOk result (λ r. type_view r ≡ qualified_of (type_view t)) }
{
    match t {
        CType::Array(element, count) => {
            let element = qualified(alloc, element.into_inner())?;
            CType::array(alloc, element, count)
        }
        CType::Const(of) => Ok(CType::Const(of)),
        other => CType::constant(alloc, other),
    }
}

/// A copy of the type, with a qualifier where it is asked for.
pub fn qualified_if(alloc: Global, constant: bool, t: &CType) -> Result<CType, AllocError>
    ensures { IfOk result (λ r. type_view r ≡ qualified_if_of constant (type_view t.now)) }
{
    let copy = t.duplicate(alloc)?;
    if constant {
        qualified(alloc, copy)
    } else {
        Ok(copy)
    }
}
