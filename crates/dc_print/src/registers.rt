// Instructions on registers as text.
ghost use Rattle.std.specs.Prelude.{◌≡◌, ◌++◌, OnOk};
ghost use Rattle.dc_core.specs.View.{term_view};
ghost use Rattle.dc_goto.specs.Text.{instr_line};
ghost use Rattle.dc_goto.specs.Program.{Set, Keep, Draw};

use crate::terms::put_spaced_term;
use crate::words::{put_spaced_decimal, put_spaced_kind};
use dc_core::{NumKind, Term};
use std::alloc::{AllocError, Global};

/// Adds the line of a value put into a register.
pub fn put_set(
    alloc: Global,
    out: &mut Vec<u8>,
    register: u64,
    value: &Term,
) -> Result<(), AllocError>
    ensures { OnOk result (out.new.items ≡ out.old.items ++ instr_line (Set register (term_view value.now))) }
{
    out.extend_from_slice(b"set")?;
    put_spaced_decimal(alloc, out, register)?;
    put_spaced_term(alloc, out, value)?;
    Ok(())
}

/// Adds the line of a value, or none, kept in a register.
pub fn put_keep(
    alloc: Global,
    out: &mut Vec<u8>,
    register: u64,
    value: &Term,
) -> Result<(), AllocError>
    ensures { OnOk result (out.new.items ≡ out.old.items ++ instr_line (Keep register (term_view value.now))) }
{
    out.extend_from_slice(b"keep")?;
    put_spaced_decimal(alloc, out, register)?;
    put_spaced_term(alloc, out, value)?;
    Ok(())
}

/// Adds the line of a value of a kind drawn into a register.
pub fn put_draw(
    alloc: Global,
    out: &mut Vec<u8>,
    register: u64,
    kind: NumKind,
) -> Result<(), AllocError>
    ensures { OnOk result (out.new.items ≡ out.old.items ++ instr_line (Draw register kind)) }
{
    out.extend_from_slice(b"draw")?;
    put_spaced_decimal(alloc, out, register)?;
    put_spaced_kind(out, kind)?;
    Ok(())
}
