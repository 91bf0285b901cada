// Which expressions name objects, and which values go where (C11 6.3.2.1, 6.5.16).
ghost use Rattle.std.specs.Prelude.{◌≡◌};
ghost use Rattle.dc_layout.specs.Types.{type_view, structs_view};
ghost use Rattle.dc_program.specs.Stands as spec;
ghost use Rattle.dc_program.specs.View.{expr_view};

use dc_layout::{CType, StructTable};
use dc_program::{Expr, Form};
use dc_rules::{is_assignable, is_const, is_function, is_null};

/// Whether an expression names an object.
pub fn is_lvalue(e: &Expr) -> bool
    ensures { result ≡ spec.is_lvalue (expr_view e.now) }
{
    if is_function(&e.ty) {
        return false;
    }
    match e.form.get() {
        Form::Static(_) | Form::Local(_) | Form::Index(..) | Form::Deref(_) => true,
        Form::Through(..) => true,
        Form::Member(a, _) => is_lvalue(a),
        _ => false,
    }
}

/// Whether an expression names an object that may be assigned to: no const one and no array.
pub fn is_modifiable(e: &Expr) -> bool
    ensures { result ≡ spec.is_modifiable (expr_view e.now) }
{
    is_lvalue(e) && !is_const(&e.ty) && !matches!(e.ty, CType::Array(..))
}

/// Whether the value of an expression can be assigned to the type.
pub fn takes(structs: &StructTable, t: &CType, e: &Expr) -> bool
    ensures { result ≡ spec.takes (structs_view structs.now) (type_view t.now) (expr_view e.now) }
{
    is_assignable(t, &e.ty, is_null(structs, e))
}
