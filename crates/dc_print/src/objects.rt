// Instructions on objects as text.
ghost use Rattle.std.specs.Prelude.{◌≡◌, ◌++◌, OnOk};
ghost use Rattle.dc_core.specs.View.{term_view};
ghost use Rattle.dc_goto.specs.Text.{instr_line};
ghost use Rattle.dc_goto.specs.Program.{Local, Kill, Alloc, Free};

use crate::terms::put_spaced_term;
use crate::words::{put_bytes, put_spaced_decimal};
use dc_core::Term;
use dc_goto::Bytes;
use std::alloc::{AllocError, Global};

/// Adds the line of a stack object.
pub fn put_local(
    alloc: Global,
    out: &mut Vec<u8>,
    register: u64,
    size: u64,
    bytes: Bytes,
) -> Result<(), AllocError>
    ensures { OnOk result (out.new.items ≡ out.old.items ++ instr_line (Local register size bytes)) }
{
    out.extend_from_slice(b"local")?;
    put_spaced_decimal(alloc, out, register)?;
    put_spaced_decimal(alloc, out, size)?;
    out.push(b' ')?;
    put_bytes(out, bytes)?;
    Ok(())
}

/// Adds the line by which the locals beyond the first so many die.
pub fn put_kill(alloc: Global, out: &mut Vec<u8>, locals: u64) -> Result<(), AllocError>
    ensures { OnOk result (out.new.items ≡ out.old.items ++ instr_line (Kill locals)) }
{
    out.extend_from_slice(b"kill")?;
    put_spaced_decimal(alloc, out, locals)?;
    Ok(())
}

/// Adds the line of a heap object.
pub fn put_alloc(
    alloc: Global,
    out: &mut Vec<u8>,
    register: u64,
    count: &Term,
    size: &Term,
    bytes: Bytes,
) -> Result<(), AllocError>
    ensures { OnOk result (out.new.items ≡ out.old.items ++ instr_line (Alloc register (term_view count.now) (term_view size.now) bytes)) }
{
    out.extend_from_slice(b"alloc")?;
    put_spaced_decimal(alloc, out, register)?;
    put_spaced_term(alloc, out, count)?;
    put_spaced_term(alloc, out, size)?;
    out.push(b' ')?;
    put_bytes(out, bytes)?;
    Ok(())
}

/// Adds the line by which a heap object dies.
pub fn put_free(alloc: Global, out: &mut Vec<u8>, pointer: &Term) -> Result<(), AllocError>
    ensures { OnOk result (out.new.items ≡ out.old.items ++ instr_line (Free (term_view pointer.now))) }
{
    out.extend_from_slice(b"free")?;
    put_spaced_term(alloc, out, pointer)?;
    Ok(())
}
