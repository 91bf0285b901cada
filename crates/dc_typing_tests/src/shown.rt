// Typed expressions as text.
use dc_program::{Expr, Form, Location};
use dc_rules_tests::made::spell;
use std::alloc::{AllocError, Global};

// The word of a form.
fn word_of(form: &Form) -> &'static [u8] {
    match form {
        Form::Literal(_) => b"literal",
        Form::Function(_) => b"function",
        Form::Local(_) => b"local",
        Form::Index(..) => b"index",
        Form::Call(..) => b"call",
        Form::Malloc(..) => b"malloc",
        Form::Calloc(..) => b"calloc",
        Form::Free(..) => b"free",
        Form::Memset(..) => b"memset",
        Form::Memcpy(..) => b"memcpy",
        Form::Memmove(..) => b"memmove",
        Form::Assert(..) => b"assert",
        Form::Member(..) => b"member",
        Form::Through(..) => b"through",
        Form::After(..) => b"after",
        Form::Before(..) => b"before",
        Form::AddressOf(_) => b"address",
        Form::Deref(_) => b"deref",
        Form::Unary(..) => b"unary",
        Form::SizeofExpression(_) => b"sizeof",
        Form::SizeofType(_) => b"sizeof-type",
        Form::Cast(_) => b"cast",
        Form::Binary(..) => b"binary",
        Form::Logical(..) => b"logical",
        Form::Conditional(..) => b"conditional",
        Form::Assign(..) => b"assign",
        Form::AssignBy(..) => b"assign-by",
        _ => b"other",
    }
}

// The site of a form.
fn site_of(form: &Form) -> Option<Location> {
    match form {
        Form::Call(_, _, l) => Some(*l),
        Form::Malloc(_, l) | Form::Free(_, l) | Form::Assert(_, l) => Some(*l),
        Form::Calloc(_, _, l) => Some(*l),
        Form::Memset(_, _, _, l) | Form::Memcpy(_, _, _, l) | Form::Memmove(_, _, _, l) => Some(*l),
        Form::After(_, _, l) | Form::Before(_, _, l) => Some(*l),
        Form::Assign(_, _, l) | Form::AssignBy(_, _, _, l) => Some(*l),
        _ => None,
    }
}

/// Writes a number behind a sign.
pub fn put_number(
    alloc: Global,
    out: &mut Vec<u8>,
    sign: u8,
    number: u64,
) -> Result<(), AllocError> {
    out.push(sign)?;
    out.extend_from_slice(number.to_string(alloc)?.as_bytes())
}

// Writes the value of a literal.
fn put_value(alloc: Global, out: &mut Vec<u8>, form: &Form) -> Result<(), AllocError> {
    if let Form::Literal(value) = form {
        out.push(b'=')?;
        out.extend_from_slice(value.to_string(alloc)?.as_bytes())?;
    }
    Ok(())
}

// Writes the number and the line of a site.
fn put_site(alloc: Global, out: &mut Vec<u8>, form: &Form) -> Result<(), AllocError> {
    if let Some(location) = site_of(form) {
        put_number(alloc, out, b' ', location.number)?;
        put_number(alloc, out, b':', location.line)?;
    }
    Ok(())
}

/// Writes the form of an expression, its type, the value of a literal, and its site.
pub fn put_expr(alloc: Global, out: &mut Vec<u8>, e: &Expr) -> Result<(), AllocError> {
    let form = e.form.get();
    out.extend_from_slice(word_of(form))?;
    out.push(b' ')?;
    spell(out, &e.ty)?;
    put_value(alloc, out, form)?;
    put_site(alloc, out, form)
}
