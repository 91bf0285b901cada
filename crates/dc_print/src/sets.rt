// Instructions on write sets as text.
ghost use Rattle.std.specs.Prelude.{◌≡◌, ◌++◌, OnOk};
ghost use Rattle.dc_core.specs.View.{term_view};
ghost use Rattle.dc_goto.specs.Text.{instr_line};
ghost use Rattle.dc_goto.specs.Program.{Range, Target, Covers, MayFree, Inside};

use crate::terms::put_spaced_term;
use crate::words::{put_spaced, put_spaced_decimal};
use dc_core::Term;
use std::alloc::{AllocError, Global};

/// Adds the line of a range of the innermost set.
pub fn put_range(
    alloc: Global,
    out: &mut Vec<u8>,
    tag: u64,
    condition: &Term,
    address: &Term,
    len: &Term,
) -> Result<(), AllocError>
    ensures { OnOk result (out.new.items ≡ out.old.items ++ instr_line (Range tag (term_view condition.now) (term_view address.now) (term_view len.now))) }
{
    out.extend_from_slice(b"range")?;
    put_spaced_decimal(alloc, out, tag)?;
    put_spaced_term(alloc, out, condition)?;
    put_spaced_term(alloc, out, address)?;
    put_spaced_term(alloc, out, len)?;
    Ok(())
}

/// Adds the line of an object of the innermost set that may be freed.
pub fn put_target(
    alloc: Global,
    out: &mut Vec<u8>,
    tag: u64,
    condition: &Term,
    pointer: &Term,
) -> Result<(), AllocError>
    ensures { OnOk result (out.new.items ≡ out.old.items ++ instr_line (Target tag (term_view condition.now) (term_view pointer.now))) }
{
    out.extend_from_slice(b"target")?;
    put_spaced_decimal(alloc, out, tag)?;
    put_spaced_term(alloc, out, condition)?;
    put_spaced_term(alloc, out, pointer)?;
    Ok(())
}

/// Adds the line of a test that the write of a length at an address is allowed.
pub fn put_covers(
    alloc: Global,
    out: &mut Vec<u8>,
    name: &[u8],
    address: &Term,
    len: &Term,
) -> Result<(), AllocError>
    ensures { OnOk result (out.new.items ≡ out.old.items ++ instr_line (Covers name.now (term_view address.now) (term_view len.now))) }
{
    out.extend_from_slice(b"covers")?;
    put_spaced(out, name)?;
    put_spaced_term(alloc, out, address)?;
    put_spaced_term(alloc, out, len)?;
    Ok(())
}

/// Adds the line of a test that the free of a pointer is allowed.
pub fn put_may_free(
    alloc: Global,
    out: &mut Vec<u8>,
    name: &[u8],
    pointer: &Term,
) -> Result<(), AllocError>
    ensures { OnOk result (out.new.items ≡ out.old.items ++ instr_line (MayFree name.now (term_view pointer.now))) }
{
    out.extend_from_slice(b"mayfree")?;
    put_spaced(out, name)?;
    put_spaced_term(alloc, out, pointer)?;
    Ok(())
}

/// Adds the line of a test that what has a tag in the innermost set is inside the next.
pub fn put_inside(alloc: Global, out: &mut Vec<u8>, name: &[u8], tag: u64) -> Result<(), AllocError>
    ensures { OnOk result (out.new.items ≡ out.old.items ++ instr_line (Inside name.now tag)) }
{
    out.extend_from_slice(b"inside")?;
    put_spaced(out, name)?;
    put_spaced_decimal(alloc, out, tag)?;
    Ok(())
}
