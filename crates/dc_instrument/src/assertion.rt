// The names of assertions.
ghost use Rattle.std.specs.Prelude.{◌≡◌, ◌++◌, IfOk};
ghost use Rattle.std.specs.Fmt.{decimal};
ghost use Rattle.dc_core.specs.Assertion.{assigns_name, postcondition_name};

use dc_core::Name;
use std::alloc::{AllocError, Global};

// The name with a text behind it.
fn extended(alloc: Global, name: &Name, text: &[u8]) -> Result<Name, AllocError>
    ensures { IfOk result (λ longer. longer ≡ name.now ++ text.now) }
{
    let mut bytes = Vec::from_slice(alloc, name.as_slice())?;
    bytes.extend_from_slice(text)?;
    Ok(Name::of(bytes))
}

/// The name of the assertion that a function's write at a site is allowed.
pub fn assigns_name(alloc: Global, function: &Name, site: u64) -> Result<Name, AllocError>
    ensures { IfOk result (λ name. name ≡ assigns_name function.now site) }
{
    let text = format!(in alloc; ".assigns.{site}")?;
    extended(alloc, function, text.as_bytes())
}

/// The name of the assertion that a clause of a function's ensures holds.
pub fn postcondition_name(alloc: Global, function: &Name, clause: u64) -> Result<Name, AllocError>
    ensures { IfOk result (λ name. name ≡ postcondition_name function.now clause) }
{
    let text = format!(in alloc; ".postcondition.{clause}")?;
    extended(alloc, function, text.as_bytes())
}
