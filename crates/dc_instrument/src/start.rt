// The code of the start: draws, the requires, the set with its ranges, the call, the ensures.
ghost use Rattle.std.specs.Prelude.{◌≡◌, [], ◌∷◌, ◌++◌, map, IfOk, OnOk};
ghost use Rattle.std.specs.Option.{option_map};
ghost use Rattle.dc_core.specs.View.{clause_view, function_view, target_view, term_view};
ghost use Rattle.dc_goto.specs.View.{body_view, instr_view};
ghost use Rattle.dc_instrument.specs.Lowering.{argument_terms, call_code, checks_code, draws_code, group_code, ranges_code, require_code, result_register, result_value, start_body, start_code, start_regs};

use crate::assertion::postcondition_name;
use crate::code::{put, sum};
use crate::expression::{int_length, target, term};
use crate::places::Places;
use dc_core::{Name, NumKind, Term, assigned, ensured, gives_int, params, required};
use dc_goto::{Body, Instr};
use dc_program::{Clause, Function, Target};
use sqlite_items::Items;
use std::alloc::{AllocError, Global};

// The arguments are drawn, into the registers from 0 on.
fn put_draws(out: &mut Items<Instr>, n: u64) -> Result<(), AllocError>
    ensures { OnOk result (map instr_view out.new ≡ map instr_view out.old ++ draws_code 0 n) }
{
    for i in 0..n {
        put(out, Instr::Draw(i, NumKind::S32))?;
    }
    Ok(())
}

// The arguments of the call.
fn arguments(alloc: Global, n: u64) -> Result<Items<Term>, AllocError>
    ensures { IfOk result (λ terms. map term_view terms ≡ argument_terms 0 n) }
{
    let mut terms = Items::new(alloc);
    for i in 0..n {
        terms.push(Term::Register(i))?;
    }
    Ok(terms)
}

// Conditions that must hold.
fn put_conditions(
    alloc: Global,
    out: &mut Items<Instr>,
    at: Places,
    conditions: &[Clause],
) -> Result<(), AllocError>
    ensures { OnOk result (map instr_view out.new ≡ map instr_view out.old ++ require_code at (map clause_view conditions.now)) }
{
    for clause in conditions {
        put(out, Instr::Require(term(alloc, at, &clause.condition)?))?;
    }
    Ok(())
}

// The requires, as a group of tests.
fn put_requires(
    alloc: Global,
    out: &mut Items<Instr>,
    at: Places,
    conditions: &[Clause],
) -> Result<(), AllocError>
    ensures { OnOk result (map instr_view out.new ≡ map instr_view out.old ++ group_code (require_code at (map clause_view conditions.now))) }
{
    if conditions.is_empty() {
        return Ok(());
    }
    put(out, Instr::Seen)?;
    put_conditions(alloc, out, at, conditions)?;
    Ok(())
}

// The ranges of the targets, with their numbers from 1 on.
fn put_ranges(out: &mut Items<Instr>, at: Places, targets: &[Target]) -> Result<(), AllocError>
    ensures { OnOk result (map instr_view out.new ≡ map instr_view out.old ++ ranges_code at 1 (map target_view targets.now)) }
{
    let mut number = 1;
    for one in targets {
        let always = Term::Constant(NumKind::S32, 1);
        put(
            out,
            Instr::Range(number, always, target(at, one)?, int_length()),
        )?;
        number = sum(number, 1)?;
    }
    Ok(())
}

// Tests of clauses, with their numbers from 1 on.
fn put_tests(
    alloc: Global,
    out: &mut Items<Instr>,
    name: &Name,
    at: Places,
    clauses: &[Clause],
) -> Result<(), AllocError>
    ensures { OnOk result (map instr_view out.new ≡ map instr_view out.old ++ checks_code name.now at 1 (map clause_view clauses.now)) }
{
    let mut number = 1;
    for clause in clauses {
        let assertion = postcondition_name(alloc, name, number)?;
        put(
            out,
            Instr::Check(assertion, term(alloc, at, &clause.condition)?),
        )?;
        number = sum(number, 1)?;
    }
    Ok(())
}

// The ensures, as a group of tests.
fn put_checks(
    alloc: Global,
    out: &mut Items<Instr>,
    name: &Name,
    at: Places,
    clauses: &[Clause],
) -> Result<(), AllocError>
    ensures { OnOk result (map instr_view out.new ≡ map instr_view out.old ++ group_code (checks_code name.now at 1 (map clause_view clauses.now))) }
{
    if clauses.is_empty() {
        return Ok(());
    }
    put(out, Instr::Seen)?;
    put_tests(alloc, out, name, at, clauses)?;
    Ok(())
}

// The register for the call's result.
fn call_register(f: &Function) -> Option<u64>
    ensures { result ≡ result_register (function_view f.now) }
{
    if gives_int(f) { Some(params(f)) } else { None }
}

// What the start returns.
fn returned(f: &Function) -> Option<Term>
    ensures { option_map term_view result ≡ result_value (function_view f.now) }
{
    if gives_int(f) {
        Some(Term::Register(params(f)))
    } else {
        None
    }
}

// The call of the function.
fn put_call(alloc: Global, out: &mut Items<Instr>, f: &Function) -> Result<(), AllocError>
    ensures { OnOk result (map instr_view out.new ≡ map instr_view out.old ++ call_code (function_view f.now)) }
{
    let name = f.name.duplicate(alloc)?;
    let call = Instr::Call(call_register(f), name, arguments(alloc, params(f))?);
    put(out, call)?;
    Ok(())
}

// The start's code.
fn start_code(alloc: Global, f: &Function) -> Result<Items<Instr>, AllocError>
    ensures { IfOk result (λ code. map instr_view code ≡ start_code (function_view f.now)) }
{
    let at = Places::Clauses(params(f));
    let mut code = Items::new(alloc);
    put(&mut code, Instr::Statics)?;
    put(&mut code, Instr::OutsideObjects)?;
    put_draws(&mut code, params(f))?;
    put_requires(alloc, &mut code, at, required(f))?;
    put(&mut code, Instr::Push)?;
    put_ranges(&mut code, at, assigned(f))?;
    put_call(alloc, &mut code, f)?;
    put_checks(alloc, &mut code, &f.name, at, ensured(f))?;
    put(&mut code, Instr::Pop)?;
    put(&mut code, Instr::Return(returned(f)))?;
    Ok(code)
}

// How many registers the start has.
fn registers(f: &Function) -> Result<u64, AllocError>
    ensures { IfOk result (λ n. n ≡ start_regs (function_view f.now)) }
{
    if gives_int(f) {
        sum(params(f), 1)
    } else {
        Ok(params(f))
    }
}

/// The start of a program, for its function.
pub fn start_body(alloc: Global, f: &Function) -> Result<Body, AllocError>
    ensures { IfOk result (λ b. body_view b ≡ start_body (function_view f.now)) }
{
    let code = start_code(alloc, f)?;
    let name = Name::copied(alloc, b".start")?;
    let regs = registers(f)?;
    Ok(Body {
        name,
        params: 0,
        regs,
        code,
    })
}
