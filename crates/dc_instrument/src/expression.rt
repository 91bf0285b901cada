// The terms of expressions and of places.
ghost use Rattle.std.specs.Prelude.{◌≡◌, IfOk};
ghost use Rattle.dc_core.specs.First.{no_value};
ghost use Rattle.dc_core.specs.Term.{Binary};
ghost use Rattle.dc_core.specs.View.{expr_view, target_view, term_view};
ghost use Rattle.dc_num.specs.declared.kind.NumKind.TheVariants.{S32};
ghost use Rattle.dc_instrument.specs.Lowering.{variable_term, parameter_term, result_term, term_of, parameter_place_term, place_term, int_len};

use crate::code::sum;
use crate::places::Places;
use dc_core::{BinOp, NumKind, Term};
use dc_program::{Expr, Form, Range, Target};
use sqlite_items::Boxed;
use std::alloc::{AllocError, Global};

// The place of a variable.
fn variable(k: u64) -> Result<Term, AllocError>
    ensures { IfOk result (λ t. term_view t ≡ variable_term k) }
{
    Ok(Term::Object(sum(k, 2)?))
}

// The value of a parameter.
fn parameter(alloc: Global, at: Places, k: u64) -> Result<Term, AllocError>
    ensures { IfOk result (λ t. term_view t ≡ parameter_term at k) }
{
    match at {
        Places::Body(first) => {
            let place = Term::Register(sum(first, k)?);
            Ok(Term::Load(NumKind::S32, Boxed::new(alloc, place)?))
        }
        Places::Clauses(_) => Ok(Term::Register(k)),
    }
}

// The value of the result.
fn result_value(at: Places) -> Term
    ensures { term_view result ≡ result_term at }
{
    match at {
        Places::Body(_) => Term::Constant(NumKind::S32, 0),
        Places::Clauses(register) => Term::Register(register),
    }
}

// An operator on two ints.
fn binary(alloc: Global, op: BinOp, left: Term, right: Term) -> Result<Term, AllocError>
    ensures { IfOk result (λ t. term_view t ≡ Binary op S32 (term_view left) (term_view right)) }
{
    let left = Boxed::new(alloc, left)?;
    let right = Boxed::new(alloc, right)?;
    Ok(Term::Binary(op, NumKind::S32, left, right))
}

/// What has no value.
pub fn nothing(alloc: Global, at: Places) -> Result<Term, AllocError>
    ensures { IfOk result (λ t. term_view t ≡ term_of at no_value) }
{
    let zero = Term::Constant(NumKind::S32, 0);
    binary(alloc, BinOp::Div, zero, Term::Constant(NumKind::S32, 0))
}

/// The value of an expression.
pub fn term(alloc: Global, at: Places, e: &Expr) -> Result<Term, AllocError>
    ensures { IfOk result (λ t. term_view t ≡ term_of at (expr_view e.now)) }
{
    match e.form.get() {
        Form::Literal(z) => Ok(Term::Constant(NumKind::S32, *z)),
        Form::Static(k) => {
            let place = variable(*k as u64)?;
            Ok(Term::Load(NumKind::S32, Boxed::new(alloc, place)?))
        }
        Form::Local(k) => parameter(alloc, at, *k as u64),
        Form::Argument(k) => parameter(alloc, at, *k as u64),
        Form::ReturnValue => Ok(result_value(at)),
        Form::Binary(op, a, b) => {
            let left = term(alloc, at, a)?;
            let right = term(alloc, at, b)?;
            binary(alloc, *op, left, right)
        }
        _ => nothing(alloc, at),
    }
}

// The place of a parameter.
fn parameter_place(at: Places, k: u64) -> Result<Term, AllocError>
    ensures { IfOk result (λ t. term_view t ≡ parameter_place_term at k) }
{
    match at {
        Places::Body(first) => Ok(Term::Register(sum(first, k)?)),
        Places::Clauses(_) => Ok(Term::Constant(NumKind::U64, 0)),
    }
}

/// The place of a variable or parameter; what has no place has the null pointer's.
pub fn place(at: Places, e: &Expr) -> Result<Term, AllocError>
    ensures { IfOk result (λ t. term_view t ≡ place_term at (expr_view e.now)) }
{
    match e.form.get() {
        Form::Static(k) => variable(*k as u64),
        Form::Local(k) => parameter_place(at, *k as u64),
        Form::Argument(k) => parameter_place(at, *k as u64),
        _ => Ok(Term::Constant(NumKind::U64, 0)),
    }
}

/// The place of a target.
pub fn target(at: Places, target: &Target) -> Result<Term, AllocError>
    ensures { IfOk result (λ t. term_view t ≡ place_term at (target_view target.now)) }
{
    match &target.range {
        Range::Lvalue(e) => place(at, e),
        _ => Ok(Term::Constant(NumKind::U64, 0)),
    }
}

/// The length of an int.
pub fn int_length() -> Term
    ensures { term_view result ≡ int_len }
{
    Term::Constant(NumKind::U64, 4)
}
