// What is read of a unit, and lists of it.
ghost use Rattle.std.specs.Prelude.{◌≡◌, ◌∷◌, IfOk, OnOk};
ghost use Rattle.dc_read_unit.specs.PartTaking.{IsPushedPart};

use dc_read_expr::higher;
use dc_syntax::Part;
use sqlite_items::{Boxed, Items};
use std::alloc::{AllocError, Global};

/// What was read, its height, and the place behind it.
#[derive(Drop)]
pub struct ReadPart {
    pub part: Boxed<Part>,
    pub height: u64,
    pub at: usize,
}

/// What was read of a list, its height, and the place behind it.
#[derive(Drop)]
pub struct ReadParts {
    pub parts: Items<Part>,
    pub height: u64,
    pub at: usize,
}

/// A first part before the others.
pub fn joined(
    alloc: Global,
    first: Boxed<Part>,
    more: Items<Part>,
) -> Result<Items<Part>, AllocError>
    ensures { IfOk result (λ all. all ≡ first ∷ more) }
{
    let mut all = Items::new(alloc);
    all.push(first.into_inner())?;
    all.append(more)?;
    Ok(all)
}

/// One more part in a list.
pub fn push_part(part: ReadPart, list: &mut ReadParts) -> Result<(), AllocError>
    ensures { OnOk result (IsPushedPart part list.old list.new) }
{
    list.parts.push(part.part.into_inner())?;
    list.height = higher(list.height, part.height);
    list.at = part.at;
    Ok(())
}
