// Instructions on the bytes of objects as text.
ghost use Rattle.std.specs.Prelude.{◌≡◌, ◌++◌, OnOk};
ghost use Rattle.dc_core.specs.View.{term_view};
ghost use Rattle.dc_goto.specs.Text.{instr_line};
ghost use Rattle.dc_goto.specs.Program.{Store, Init, Copy, Fill, Probe};

use crate::terms::put_spaced_term;
use crate::words::{put_sharing, put_spaced_kind};
use dc_core::{NumKind, Term};
use dc_goto::Sharing;
use std::alloc::{AllocError, Global};

/// Adds the line of a value written at an address.
pub fn put_store(
    alloc: Global,
    out: &mut Vec<u8>,
    kind: NumKind,
    address: &Term,
    value: &Term,
) -> Result<(), AllocError>
    ensures { OnOk result (out.new.items ≡ out.old.items ++ instr_line (Store kind (term_view address.now) (term_view value.now))) }
{
    out.extend_from_slice(b"store")?;
    put_spaced_kind(out, kind)?;
    put_spaced_term(alloc, out, address)?;
    put_spaced_term(alloc, out, value)?;
    Ok(())
}

/// Adds the line of a value written at an address for the first time.
pub fn put_init(
    alloc: Global,
    out: &mut Vec<u8>,
    kind: NumKind,
    address: &Term,
    value: &Term,
) -> Result<(), AllocError>
    ensures { OnOk result (out.new.items ≡ out.old.items ++ instr_line (Init kind (term_view address.now) (term_view value.now))) }
{
    out.extend_from_slice(b"init")?;
    put_spaced_kind(out, kind)?;
    put_spaced_term(alloc, out, address)?;
    put_spaced_term(alloc, out, value)?;
    Ok(())
}

/// Adds the line of bytes copied from one address to another.
pub fn put_copy(
    alloc: Global,
    out: &mut Vec<u8>,
    to: &Term,
    from: &Term,
    len: &Term,
) -> Result<(), AllocError>
    ensures { OnOk result (out.new.items ≡ out.old.items ++ instr_line (Copy (term_view to.now) (term_view from.now) (term_view len.now))) }
{
    out.extend_from_slice(b"copy")?;
    put_spaced_term(alloc, out, to)?;
    put_spaced_term(alloc, out, from)?;
    put_spaced_term(alloc, out, len)?;
    Ok(())
}

/// Adds the line of a byte written at an address, so often.
pub fn put_fill(
    alloc: Global,
    out: &mut Vec<u8>,
    to: &Term,
    byte: &Term,
    len: &Term,
) -> Result<(), AllocError>
    ensures { OnOk result (out.new.items ≡ out.old.items ++ instr_line (Fill (term_view to.now) (term_view byte.now) (term_view len.now))) }
{
    out.extend_from_slice(b"fill")?;
    put_spaced_term(alloc, out, to)?;
    put_spaced_term(alloc, out, byte)?;
    put_spaced_term(alloc, out, len)?;
    Ok(())
}

/// Adds the line of a test whether bytes can be copied between two addresses.
pub fn put_probe(
    alloc: Global,
    out: &mut Vec<u8>,
    sharing: Sharing,
    one: &Term,
    other: &Term,
    len: &Term,
) -> Result<(), AllocError>
    ensures { OnOk result (out.new.items ≡ out.old.items ++ instr_line (Probe sharing (term_view one.now) (term_view other.now) (term_view len.now))) }
{
    out.extend_from_slice(b"probe")?;
    out.push(b' ')?;
    put_sharing(out, sharing)?;
    put_spaced_term(alloc, out, one)?;
    put_spaced_term(alloc, out, other)?;
    put_spaced_term(alloc, out, len)?;
    Ok(())
}
