// Whether types are the same.
ghost use Rattle.std.specs.Prelude.{◌≡◌, map};
ghost use Rattle.dc_layout.specs.Types.{type_view, types};
ghost use Rattle.dc_scope.specs.SameTypes.{same_type, same_parameters, unqualified};

use dc_layout::CType;

/// Whether the types are the same, with their qualifiers; a parameter's own qualifier is passed over (C11 6.7.6.3).
#[cycle(same_type)]
pub fn same_type(left: &CType, right: &CType) -> bool
    ensures { result ≡ same_type (type_view left.now) (type_view right.now) }
{
    match left {
        CType::Void => matches!(right, CType::Void),
        CType::Num(kind) => match right {
            CType::Num(other) => kind == other,
            _ => false,
        },
        CType::Pointer(to) => match right {
            CType::Pointer(other) => same_type(to.get(), other.get()),
            _ => false,
        },
        CType::Array(element, count) => match right {
            CType::Array(other, others) => count == others && same_type(element.get(), other.get()),
            _ => false,
        },
        CType::Struct(number) => match right {
            CType::Struct(other) => number == other,
            _ => false,
        },
        CType::Func(gives, parameters) => match right {
            CType::Func(other, others) => {
                same_type(gives.get(), other.get())
                    && same_parameters(parameters.as_slice(), others.as_slice())
            }
            _ => false,
        },
        CType::Const(of) => match right {
            CType::Const(other) => same_type(of.get(), other.get()),
            _ => false,
        },
    }
}

// Whether the parameters are as many, and each of the same type as the other but for its own qualifier.
#[cycle(same_type)]
fn same_parameters(left: &[CType], right: &[CType]) -> bool
    ensures { result ≡ same_parameters (types (map type_view left.now)) (types (map type_view right.now)) }
{
    if left.len() != right.len() {
        return false;
    }
    for (place, one) in left.iter().enumerate() {
        if !same_parameter(one, &right[place]) {
            return false;
        }
    }
    true
}

// Whether the parameters are of the same type, but for their own qualifiers.
#[cycle(same_type)]
fn same_parameter(left: &CType, right: &CType) -> bool
    ensures { result ≡ same_type (unqualified (type_view left.now)) (unqualified (type_view right.now)) }
{
    let other = unqualified(right);
    match left {
        CType::Const(of) => same_type(of.get(), other),
        _ => same_type(left, other),
    }
}

// The type without its outermost qualifier.
fn unqualified(ty: &CType) -> &CType
    ensures { type_view result.now ≡ unqualified (type_view ty.now) }
{
    match ty {
        CType::Const(of) => of.get(),
        _ => ty,
    }
}
