// One reading behind another.
ghost use Rattle.std.specs.Prelude.{◌≡◌, IfOk, IsErrOf, IsOk, Ok};
ghost use Rattle.dc_scan.specs.declared.form.Form.TheVariants.{NoForm};

use crate::form::Form;

/// What was read, where what had to follow it was there.
pub fn followed<T: Drop>(read: T, end: Result<(), Form>) -> Result<T, Form>
    ensures found { IfOk result (λ value. (value ≡ read) × IsOk end) }
    ensures none { IsErrOf result NoForm → IsErrOf end NoForm }
{
    end?;
    Ok(read)
}

/// What was read, and what was read behind it, where that was there.
pub fn both<A: Drop, B: Drop>(first: A, second: Result<B, Form>) -> Result<(A, B), Form>
    ensures found { IfOk result (λ read. (read.0 ≡ first) × (second ≡ Ok read.1)) }
    ensures none { IsErrOf result NoForm → IsErrOf second NoForm }
{
    Ok((first, second?))
}
