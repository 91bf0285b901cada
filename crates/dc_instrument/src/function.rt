// The code of a function's own body.
ghost use Rattle.std.specs.Prelude.{◌≡◌, [], ◌∷◌, ◌++◌, map, IfOk, OnOk, Some};
ghost use Rattle.dc_core.specs.Program as plain;
ghost use Rattle.dc_core.specs.Term.{Register};
ghost use Rattle.dc_core.specs.View.{act_view, expr_view, function_view, stmt_view, term_view};
ghost use Rattle.dc_goto.specs.Program.{Return, Set};
ghost use Rattle.dc_goto.specs.View.{body_view, instr_view};
ghost use Rattle.dc_instrument.specs.Lowering.{function_body, last_instr, parameters_code, statements_code};

use crate::assertion::assigns_name;
use crate::code::{put, sum};
use crate::expression::{int_length, nothing, place, term};
use crate::places::Places;
use dc_core::{Name, NumKind, Term, body, gives_int, params};
use dc_goto::{Body, Bytes, Instr};
use dc_program::{Expr, Form, Function, Stmt, StmtForm};
use sqlite_items::Items;
use std::alloc::{AllocError, Global};

// The parameters become objects, named by the registers from `first` on.
fn put_parameters(out: &mut Items<Instr>, first: u64, n: u64) -> Result<(), AllocError>
    ensures { OnOk result (map instr_view out.new ≡ map instr_view out.old ++ parameters_code first 0 n) }
{
    for i in 0..n {
        let object = sum(first, i)?;
        put(out, Instr::Local(object, 4, Bytes::Zero))?;
        let argument = Term::Register(i);
        put(
            out,
            Instr::Init(NumKind::S32, Term::Register(object), argument),
        )?;
    }
    Ok(())
}

// The assignment at a site: the value into the register, the test of the write, the write.
fn put_assign(
    alloc: Global,
    out: &mut Items<Instr>,
    name: &Name,
    first: u64,
    register: u64,
    site: u64,
    to: &Expr,
    value: &Expr,
) -> Result<(), AllocError>
    ensures { OnOk result (map instr_view out.new ≡ map instr_view out.old ++ statements_code name.now first register (plain.Assign site (expr_view to.now) (expr_view value.now) ∷ [])) }
{
    let at = Places::Body(first);
    let value = term(alloc, at, value)?;
    put(out, Instr::Set(register, value))?;
    let assertion = assigns_name(alloc, name, site)?;
    let target = place(at, to)?;
    put(out, Instr::Covers(assertion, target, int_length()))?;
    let target = place(at, to)?;
    let held = Term::Register(register);
    put(out, Instr::Store(NumKind::S32, target, held))?;
    Ok(())
}

// A return of a value, by way of the register.
fn put_return(out: &mut Items<Instr>, register: u64, value: Term) -> Result<(), AllocError>
    ensures { OnOk result (map instr_view out.new ≡ map instr_view out.old ++ Set register (term_view value) ∷ Return (Some (Register register)) ∷ []) }
{
    put(out, Instr::Set(register, value))?;
    put(out, Instr::Return(Some(Term::Register(register))))?;
    Ok(())
}

// An expression that is a statement, with the register for its value.
fn put_act(
    alloc: Global,
    out: &mut Items<Instr>,
    name: &Name,
    first: u64,
    register: u64,
    e: &Expr,
) -> Result<(), AllocError>
    ensures { OnOk result (map instr_view out.new ≡ map instr_view out.old ++ statements_code name.now first register (act_view e.now ∷ [])) }
{
    match e.form.get() {
        Form::Assign(to, value, location) => {
            let site = location.number;
            put_assign(alloc, out, name, first, register, site, to, value)?;
            Ok(())
        }
        _ => {
            let value = nothing(alloc, Places::Body(first))?;
            put_return(out, register, value)?;
            Ok(())
        }
    }
}

// A statement, with the register for its value. One that is not of the first form has no value to return.
fn put_statement(
    alloc: Global,
    out: &mut Items<Instr>,
    name: &Name,
    first: u64,
    register: u64,
    s: &Stmt,
) -> Result<(), AllocError>
    ensures { OnOk result (map instr_view out.new ≡ map instr_view out.old ++ statements_code name.now first register (stmt_view s.now ∷ [])) }
{
    match s.form.get() {
        StmtForm::Expression(e) => {
            put_act(alloc, out, name, first, register, e)?;
            Ok(())
        }
        StmtForm::ReturnWith(value) => {
            let value = term(alloc, Places::Body(first), value)?;
            put_return(out, register, value)?;
            Ok(())
        }
        _ => {
            let value = nothing(alloc, Places::Body(first))?;
            put_return(out, register, value)?;
            Ok(())
        }
    }
}

// Statements one after another, each with a new register.
fn put_statements(
    alloc: Global,
    out: &mut Items<Instr>,
    name: &Name,
    first: u64,
    register: u64,
    body: &[Stmt],
) -> Result<(), AllocError>
    ensures { OnOk result (map instr_view out.new ≡ map instr_view out.old ++ statements_code name.now first register (map stmt_view body.now)) }
{
    let mut next = register;
    for s in body {
        put_statement(alloc, out, name, first, next, s)?;
        next = sum(next, 1)?;
    }
    Ok(())
}

// The last instruction of a body.
fn last(gives_int: bool) -> Instr
    ensures { instr_view result ≡ last_instr gives_int }
{
    if gives_int {
        Instr::Trap
    } else {
        Instr::Return(None)
    }
}

/// The body of a function.
pub fn function_body(alloc: Global, f: &Function) -> Result<Body, AllocError>
    ensures { IfOk result (λ b. body_view b ≡ function_body (function_view f.now)) }
{
    let params = params(f);
    let statements = body(f);
    let first = sum(params, params)?;
    let mut code = Items::new(alloc);
    put_parameters(&mut code, params, params)?;
    put_statements(alloc, &mut code, &f.name, params, first, statements)?;
    put(&mut code, last(gives_int(f)))?;
    let regs = sum(first, statements.len() as u64)?;
    let name = f.name.duplicate(alloc)?;
    Ok(Body {
        name,
        params,
        regs,
        code,
    })
}
