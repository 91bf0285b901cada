// Instructions on where the run goes on as text.
ghost use Rattle.std.specs.Prelude.{◌≡◌, ◌++◌, ◌∷◌, OnOk, map};
ghost use Rattle.std.specs.Option.{option_map};
ghost use Rattle.dc_core.specs.View.{term_view};
ghost use Rattle.dc_goto.specs.Text.{instr_line, register_word, signature_word};
ghost use Rattle.dc_goto.specs.Program.{Goto, IfNot, Call, CallThrough, Return};

use crate::decimal::put_decimal;
use crate::terms::{put_spaced_term, put_terms};
use crate::words::{put_kinds, put_result, put_spaced, put_spaced_decimal};
use dc_core::{NumKind, Term};
use std::alloc::{AllocError, Global};

// A register that may be left away, behind a space.
fn put_register(alloc: Global, out: &mut Vec<u8>, register: &Option<u64>) -> Result<(), AllocError>
    ensures { OnOk result (out.new.items ≡ out.old.items ++ 32 ∷ register_word register.now) }
{
    match register {
        None => {
            out.extend_from_slice(b" -")?;
            Ok(())
        }
        Some(r) => {
            out.push(b' ')?;
            put_decimal(alloc, out, *r)?;
            Ok(())
        }
    }
}

// The signature of a call through a pointer, behind a space.
fn put_signature(
    out: &mut Vec<u8>,
    result_kind: &Option<NumKind>,
    params: &[NumKind],
) -> Result<(), AllocError>
    ensures { OnOk result (out.new.items ≡ out.old.items ++ 32 ∷ signature_word result_kind.now params.now) }
{
    out.extend_from_slice(b" (sig")?;
    put_result(out, result_kind)?;
    put_kinds(out, params)?;
    out.push(b')')?;
    Ok(())
}

/// Adds the line of a jump.
pub fn put_goto(alloc: Global, out: &mut Vec<u8>, place: u64) -> Result<(), AllocError>
    ensures { OnOk result (out.new.items ≡ out.old.items ++ instr_line (Goto place)) }
{
    out.extend_from_slice(b"goto")?;
    put_spaced_decimal(alloc, out, place)?;
    Ok(())
}

/// Adds the line of a jump where the value is 0.
pub fn put_if_not(
    alloc: Global,
    out: &mut Vec<u8>,
    test: &Term,
    place: u64,
) -> Result<(), AllocError>
    ensures { OnOk result (out.new.items ≡ out.old.items ++ instr_line (IfNot (term_view test.now) place)) }
{
    out.extend_from_slice(b"ifnot")?;
    put_spaced_term(alloc, out, test)?;
    put_spaced_decimal(alloc, out, place)?;
    Ok(())
}

/// Adds the line of a call.
pub fn put_call(
    alloc: Global,
    out: &mut Vec<u8>,
    register: &Option<u64>,
    name: &[u8],
    arguments: &[Term],
) -> Result<(), AllocError>
    ensures { OnOk result (out.new.items ≡ out.old.items ++ instr_line (Call register.now name.now (map term_view arguments.now))) }
{
    out.extend_from_slice(b"call")?;
    put_register(alloc, out, register)?;
    put_spaced(out, name)?;
    put_terms(alloc, out, arguments)?;
    Ok(())
}

/// Adds the line of a call through a pointer.
pub fn put_call_through(
    alloc: Global,
    out: &mut Vec<u8>,
    register: &Option<u64>,
    pointer: &Term,
    result_kind: &Option<NumKind>,
    params: &[NumKind],
    arguments: &[Term],
) -> Result<(), AllocError>
    ensures { OnOk result (out.new.items ≡ out.old.items ++ instr_line (CallThrough register.now (term_view pointer.now) result_kind.now params.now (map term_view arguments.now))) }
{
    out.extend_from_slice(b"callp")?;
    put_register(alloc, out, register)?;
    put_spaced_term(alloc, out, pointer)?;
    put_signature(out, result_kind, params)?;
    put_terms(alloc, out, arguments)?;
    Ok(())
}

/// Adds the line by which the caller goes on.
pub fn put_return(alloc: Global, out: &mut Vec<u8>, value: &Option<Term>) -> Result<(), AllocError>
    ensures { OnOk result (out.new.items ≡ out.old.items ++ instr_line (Return (option_map term_view value.now))) }
{
    out.extend_from_slice(b"return")?;
    if let Some(value) = value {
        put_spaced_term(alloc, out, value)?;
    }
    Ok(())
}
