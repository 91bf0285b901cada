// Types that a program may have (C11 6.7.2 to 6.7.6).
ghost use Rattle.std.specs.Prelude.{◌≡◌};
ghost use Rattle.dc_layout.specs.Types.{type_view, structs_view};
ghost use Rattle.dc_program.specs.WellFormed.{is_number_kind as is_of_numbers, is_qualifiable as may_be_qualified, is_result as may_be_given, is_parameter as may_be_taken, is_type as is_formed, are_parameters as may_all_be_taken};
ghost use Rattle.dc_rules.specs.Seen.{types_view};

use crate::types::is_within_limit;
use dc_layout::LayKind;
use dc_program::{CType, StructTable};

// Whether the kind is one of C's numbers, and not that of the numbers of pointers.
fn is_number_kind(kind: LayKind) -> bool
    ensures { result ≡ is_of_numbers kind }
{
    !matches!(kind, LayKind::Ptr)
}

// Whether a qualifier may stand at the type: at no array, no function and no qualified type.
fn is_qualifiable(t: &CType) -> bool
    ensures { result ≡ may_be_qualified (type_view t.now) }
{
    !matches!(t, CType::Array(..) | CType::Func(..) | CType::Const(_))
}

/// Whether a function may give the type: no array, no function and no struct (C11 6.7.6.3 p1).
pub fn is_result(t: &CType) -> bool
    ensures { result ≡ may_be_given (type_view t.now) }
{
    match t {
        CType::Array(..) | CType::Func(..) | CType::Struct(_) => false,
        CType::Const(of) => is_result(of.get()),
        CType::Void | CType::Num(_) | CType::Pointer(_) => true,
    }
}

/// Whether a function may take the type: one that may be given, and isn't void (C11 6.7.6.3 p4).
pub fn is_parameter(t: &CType) -> bool
    ensures { result ≡ may_be_taken (type_view t.now) }
{
    match t {
        CType::Void => false,
        CType::Const(of) => is_parameter(of.get()),
        _ => is_result(t),
    }
}

/// Whether a program may have the type (C11 6.7.2 to 6.7.6): its structs are in the table, its arrays and their elements have
/// sizes of at most 16,777,216 bytes, but that an array need have no length, its functions give and take no arrays, functions and structs, and its qualifiers stand at no
/// array, no function and no qualified type. The numbers of pointers are no type of C.
#[cycle(formed)]
pub fn is_type(structs: &StructTable, t: &CType) -> bool
    ensures { result ≡ is_formed (structs_view structs.now) (type_view t.now) }
{
    match t {
        CType::Void => true,
        CType::Num(kind) => is_number_kind(*kind),
        CType::Pointer(to) => is_type(structs, to.get()),
        CType::Array(element, _) => {
            is_type(structs, element.get()) && is_within_limit(structs, t)
        }
        CType::Struct(number) => (*number as usize) < structs.count(),
        CType::Func(gives, parameters) => {
            is_type(structs, gives.get())
                && is_result(gives.get())
                && are_parameters(structs, parameters.as_slice())
        }
        CType::Const(of) => is_type(structs, of.get()) && is_qualifiable(of.get()),
    }
}

// Whether a function may take types like these.
#[cycle(formed)]
fn are_parameters(structs: &StructTable, types: &[CType]) -> bool
    ensures { result ≡ may_all_be_taken (structs_view structs.now) (types_view types.now) }
{
    for one in types {
        if !is_type(structs, one) || !is_parameter(one) {
            return false;
        }
    }
    true
}
