// Lines of text.
ghost use Rattle.std.specs.Prelude.{◌≡◌, ◌++◌, [], ◌∷◌, IfOk, OnOk};
ghost use Rattle.std.specs.Fmt.{decimal};
ghost use Rattle.dc_goto.specs.Text.{line_bytes};

use dc_print::Lines;
use sqlite_items::Items;
use std::alloc::{AllocError, Global};

/// One more line, from its bytes without the newline.
pub fn put_line(lines: &mut Lines, line: Vec<u8>) -> Result<(), AllocError>
    ensures ok { OnOk result (lines.new ≡ lines.old ++ line_bytes line.items ∷ []) }
{
    let mut line = line;
    line.push(b'\n')?;
    lines.push(Items::from_vec(line))
}

/// Adds a number in decimal.
pub fn put_number(out: &mut Vec<u8>, n: u128) -> Result<(), AllocError>
    ensures ok { OnOk result (out.new.items ≡ out.old.items ++ decimal n) }
{
    let text = n.to_string(*out.allocator())?;
    out.extend_from_slice(text.as_bytes())
}

/// A line of these bytes and its newline.
pub fn fixed_line(alloc: Global, bytes: &[u8]) -> Result<Items<u8>, AllocError>
    ensures { IfOk result (λ line. line ≡ bytes.now ++ 10 ∷ []) }
{
    let mut line = Vec::from_slice(alloc, bytes)?;
    line.push(b'\n')?;
    Ok(Items::from_vec(line))
}

/// A line of these bytes, a number and its newline.
pub fn numbered_line(alloc: Global, bytes: &[u8], n: u64) -> Result<Items<u8>, AllocError>
    ensures { IfOk result (λ line. line ≡ bytes.now ++ decimal n ++ 10 ∷ []) }
{
    let mut line = Vec::from_slice(alloc, bytes)?;
    put_number(&mut line, n as u128)?;
    line.push(b'\n')?;
    Ok(Items::from_vec(line))
}
