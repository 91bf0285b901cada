// Integer constant expressions (C11 6.6 p6) and null pointer constants (C11 6.3.2.3 p3).
ghost use Rattle.std.specs.Prelude.{◌≡◌};
ghost use Rattle.dc_layout.specs.Types.{type_view, structs_view};
ghost use Rattle.dc_layout.specs.Layout.{size_answer};
ghost use Rattle.dc_program.specs.Constants.{changed_in as changed_of, computed_in as computed_of, converted_in as converted_of, size_in as size_of_answer, is_decided as decides, decided as decided_of, constant as constant_of, is_made_of_constants as made_of_constants, integer_constant as integer_of, is_constant_zero as is_zero_constant, is_null_literal as is_literal_null, is_null as is_null_constant};
ghost use Rattle.dc_program.specs.View.{expr_view};

use crate::arithmetic::{changed, computed, truth};
use crate::types::{is_number, is_void_pointer, number_kind};
use dc_layout::size_of;
use dc_num::convert;
use dc_program::{BinOp, CType, Expr, Form, LogicalOp, NumKind, StructTable, UnaryOp};

// What an operator makes of an operand that has a kind.
fn changed_in(op: UnaryOp, kind: Option<NumKind>, v: i128) -> Option<i128>
    ensures { result ≡ changed_of op kind v }
{
    match kind {
        None => None,
        Some(kind) => changed(op, kind, v),
    }
}

// What an operator makes of two operands that have kinds.
fn computed_in(op: BinOp, k: Option<NumKind>, l: Option<NumKind>, v: i128, w: i128) -> Option<i128>
    ensures { result ≡ computed_of op k l v w }
{
    match (k, l) {
        (Some(k), Some(l)) => computed(op, k, l, v, w),
        _ => None,
    }
}

// A number of the kind.
fn converted_in(kind: Option<NumKind>, v: i128) -> Option<i128>
    ensures { result ≡ converted_of kind v }
{
    match kind {
        None => None,
        Some(kind) => Some(convert(kind, v)),
    }
}

// The size of a type, where it has one within the limit.
fn size_in(structs: &StructTable, t: &CType) -> Option<i128>
    ensures { result ≡ size_of_answer (size_answer (structs_view structs.now) (type_view t.now)) }
{
    match size_of(structs, t) {
        Ok(bytes) => Some(bytes as i128),
        Err(_) => None,
    }
}

// Whether the first operand decides.
fn is_decided(op: LogicalOp, v: i128) -> bool
    ensures { result ≡ decides op v }
{
    match op {
        LogicalOp::And | LogicalOp::Implies => v == 0,
        LogicalOp::Or => v != 0,
    }
}

// The result where the first operand decides.
fn decided(op: LogicalOp) -> i128
    ensures { result ≡ decided_of op }
{
    match op {
        LogicalOp::And => 0,
        LogicalOp::Or | LogicalOp::Implies => 1,
    }
}

// The value of an expression that is made of constants; an operand that isn't needed isn't asked for.
fn constant(structs: &StructTable, e: &Expr) -> Option<i128>
    ensures { result ≡ constant_of (structs_view structs.now) (expr_view e.now) }
{
    match e.form.get() {
        Form::Literal(value) => match number_kind(&e.ty) {
            None => None,
            Some(_) => Some(*value),
        },
        Form::Unary(op, a) => {
            let v = constant(structs, a)?;
            changed_in(*op, number_kind(&a.ty), v)
        }
        Form::SizeofExpression(a) => size_in(structs, &a.ty),
        Form::SizeofType(t) => size_in(structs, t),
        Form::Cast(a) => {
            let v = constant(structs, a)?;
            converted_in(number_kind(&e.ty), v)
        }
        Form::Binary(op, a, b) => {
            let v = constant(structs, a)?;
            let w = constant(structs, b)?;
            computed_in(*op, number_kind(&a.ty), number_kind(&b.ty), v, w)
        }
        Form::Logical(op, a, b) => {
            let v = constant(structs, a)?;
            if is_decided(*op, v) {
                return Some(decided(*op));
            }
            let w = constant(structs, b)?;
            Some(truth(w != 0))
        }
        Form::Conditional(a, b, c) => {
            let v = constant(structs, a)?;
            let w = if v == 0 {
                constant(structs, c)?
            } else {
                constant(structs, b)?
            };
            converted_in(number_kind(&e.ty), w)
        }
        _ => None,
    }
}

// Whether the expression is made of integer constants and sizes alone, also where an operand isn't needed.
fn is_made_of_constants(e: &Expr) -> bool
    ensures { result ≡ made_of_constants (expr_view e.now) }
{
    if !is_number(&e.ty) {
        return false;
    }
    match e.form.get() {
        Form::Literal(_) | Form::SizeofExpression(_) | Form::SizeofType(_) => true,
        Form::Unary(_, a) | Form::Cast(a) => is_made_of_constants(a),
        Form::Binary(_, a, b) => is_made_of_constants(a) && is_made_of_constants(b),
        Form::Logical(_, a, b) => is_made_of_constants(a) && is_made_of_constants(b),
        Form::Conditional(a, b, c) => {
            is_made_of_constants(a) && is_made_of_constants(b) && is_made_of_constants(c)
        }
        _ => false,
    }
}

/// The value of an integer constant expression (C11 6.6 p6); none where the expression is none, and where C leaves the value
/// undefined: a divisor of 0, a signed result that doesn't fit, a shift by a count that isn't below the width, the size of a
/// type without one. An operand that `&&`, `||`, `==>` or `?:` doesn't need may be undefined, but has to be made of constants
/// as well. It takes no memory.
pub fn integer_constant(structs: &StructTable, e: &Expr) -> Option<i128>
    ensures { result ≡ integer_of (structs_view structs.now) (expr_view e.now) }
{
    if is_made_of_constants(e) {
        constant(structs, e)
    } else {
        None
    }
}

/// Whether the expression is an integer constant expression of value 0.
pub fn is_constant_zero(structs: &StructTable, e: &Expr) -> bool
    ensures { result ≡ is_zero_constant (structs_view structs.now) (expr_view e.now) }
{
    match integer_constant(structs, e) {
        None => false,
        Some(v) => v == 0,
    }
}

// Whether the expression is `NULL`: the literal 0 whose type is a pointer to void.
fn is_null_literal(e: &Expr) -> bool
    ensures { result ≡ is_literal_null (expr_view e.now) }
{
    match e.form.get() {
        Form::Literal(value) => is_void_pointer(&e.ty) && *value == 0,
        _ => false,
    }
}

/// Whether the expression is a null pointer constant (C11 6.3.2.3 p3): an integer constant expression of value 0, or `NULL`.
pub fn is_null(structs: &StructTable, e: &Expr) -> bool
    ensures { result ≡ is_null_constant (structs_view structs.now) (expr_view e.now) }
{
    is_constant_zero(structs, e) || is_null_literal(e)
}
