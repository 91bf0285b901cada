// When types are equal (C11 6.2.7, 6.7.3).
ghost use Rattle.std.specs.Prelude.{◌≡◌, false};
ghost use Rattle.dc_layout.specs.Types.{type_view};
ghost use Rattle.dc_program.specs.Types.{same as are_same, all_same as are_all_same, alike as are_alike, all_stripped, is_const};
ghost use Rattle.dc_rules.specs.Seen.{types_view};

use crate::types::bare;
use dc_program::CType;

/// Whether two types are equal, with their qualifiers.
#[cycle(same)]
pub fn same(t: &CType, u: &CType) -> bool
    ensures { result ≡ are_same (type_view t.now) (type_view u.now) }
{
    match (t, u) {
        (CType::Void, CType::Void) => true,
        (CType::Num(kind), CType::Num(other)) => kind == other,
        (CType::Pointer(to), CType::Pointer(other)) => same(to.get(), other.get()),
        (CType::Array(element, count), CType::Array(other, length)) => {
            same(element.get(), other.get()) && count == length
        }
        (CType::Struct(number), CType::Struct(other)) => number == other,
        (CType::Func(gives, parameters), CType::Func(other, others)) => {
            same(gives.get(), other.get()) && all_same(parameters.as_slice(), others.as_slice())
        }
        (CType::Const(of), CType::Const(other)) => same(of.get(), other.get()),
        _ => false,
    }
}

// Whether types are equal, in their order.
#[cycle(same)]
fn all_same(types: &[CType], others: &[CType]) -> bool
    ensures { result ≡ are_all_same (types_view types.now) (types_view others.now) }
{
    if types.len() != others.len() {
        return false;
    }
    for (i, one) in types.iter().enumerate() {
        if !same(one, &others[i]) {
            return false;
        }
    }
    true
}

/// Whether two types are equal up to qualifiers at every depth.
#[cycle(alike)]
pub fn alike(t: &CType, u: &CType) -> bool
    ensures { result ≡ are_alike (type_view t.now) (type_view u.now) }
{
    alike_bare(t, bare(u))
}

// The same for a second type that has no qualifier itself.
#[cycle(alike)]
fn alike_bare(t: &CType, u: &CType) -> bool
    requires { is_const (type_view u.now) ≡ false }
    ensures { result ≡ are_alike (type_view t.now) (type_view u.now) }
{
    match (t, u) {
        (CType::Const(of), _) => alike_bare(of.get(), u),
        (CType::Void, CType::Void) => true,
        (CType::Num(kind), CType::Num(other)) => kind == other,
        (CType::Pointer(to), CType::Pointer(other)) => alike(to.get(), other.get()),
        (CType::Array(element, count), CType::Array(other, length)) => {
            alike(element.get(), other.get()) && count == length
        }
        (CType::Struct(number), CType::Struct(other)) => number == other,
        (CType::Func(gives, parameters), CType::Func(other, others)) => {
            alike(gives.get(), other.get()) && all_alike(parameters.as_slice(), others.as_slice())
        }
        _ => false,
    }
}

// Whether types are equal up to qualifiers, in their order.
#[cycle(alike)]
fn all_alike(types: &[CType], others: &[CType]) -> bool
    ensures { result ≡ are_all_same (all_stripped (types_view types.now)) (all_stripped (types_view others.now)) }
{
    if types.len() != others.len() {
        return false;
    }
    for (i, one) in types.iter().enumerate() {
        if !alike(one, &others[i]) {
            return false;
        }
    }
    true
}
