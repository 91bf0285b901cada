// Numbers as text.
ghost use Rattle.std.specs.Prelude.{◌≡◌, ◌++◌, OnOk};
ghost use Rattle.std.specs.Fmt.{decimal};
ghost use Rattle.dc_goto.specs.Text.{number_word};

use std::alloc::{AllocError, Global};

/// Adds the digits of a number.
pub fn put_decimal(alloc: Global, out: &mut Vec<u8>, n: u64) -> Result<(), AllocError>
    ensures { OnOk result (out.new.items ≡ out.old.items ++ decimal n) }
{
    let digits = n.to_string(alloc)?;
    out.extend_from_slice(digits.as_bytes())
}

/// Adds the digits of a number, behind a `-` where it is negative.
pub fn put_number(alloc: Global, out: &mut Vec<u8>, n: i128) -> Result<(), AllocError>
    ensures { OnOk result (out.new.items ≡ out.old.items ++ number_word n) }
{
    let text = n.to_string(alloc)?;
    out.extend_from_slice(text.as_bytes())
}
