// Instructions that test as text.
ghost use Rattle.std.specs.Prelude.{◌≡◌, ◌++◌, OnOk};
ghost use Rattle.dc_core.specs.View.{term_view};
ghost use Rattle.dc_goto.specs.Text.{instr_line};
ghost use Rattle.dc_goto.specs.Program.{Assert, Check, Assume, Require};

use crate::terms::put_spaced_term;
use crate::words::put_spaced;
use dc_core::Term;
use std::alloc::{AllocError, Global};

/// Adds the line of a test with a value, without which the name fails.
pub fn put_assert(
    alloc: Global,
    out: &mut Vec<u8>,
    name: &[u8],
    test: &Term,
) -> Result<(), AllocError>
    ensures { OnOk result (out.new.items ≡ out.old.items ++ instr_line (Assert name.now (term_view test.now))) }
{
    out.extend_from_slice(b"assert")?;
    put_spaced(out, name)?;
    put_spaced_term(alloc, out, test)?;
    Ok(())
}

/// Adds the line of a test without which the name fails.
pub fn put_check(
    alloc: Global,
    out: &mut Vec<u8>,
    name: &[u8],
    test: &Term,
) -> Result<(), AllocError>
    ensures { OnOk result (out.new.items ≡ out.old.items ++ instr_line (Check name.now (term_view test.now))) }
{
    out.extend_from_slice(b"check")?;
    put_spaced(out, name)?;
    put_spaced_term(alloc, out, test)?;
    Ok(())
}

/// Adds the line of a test with a value, without which the run is blocked.
pub fn put_assume(alloc: Global, out: &mut Vec<u8>, test: &Term) -> Result<(), AllocError>
    ensures { OnOk result (out.new.items ≡ out.old.items ++ instr_line (Assume (term_view test.now))) }
{
    out.extend_from_slice(b"assume")?;
    put_spaced_term(alloc, out, test)?;
    Ok(())
}

/// Adds the line of a test without which the run is blocked.
pub fn put_require(alloc: Global, out: &mut Vec<u8>, test: &Term) -> Result<(), AllocError>
    ensures { OnOk result (out.new.items ≡ out.old.items ++ instr_line (Require (term_view test.now))) }
{
    out.extend_from_slice(b"require")?;
    put_spaced_term(alloc, out, test)?;
    Ok(())
}
