// What can be copied, and copies of lists.
ghost use Rattle.std.specs.Prelude.{◌≡◌, IfOk};

use dc_layout::CType;
use dc_text::Name;
use sqlite_items::Items;
use std::alloc::{AllocError, Global};

/// A value that can be copied.
pub trait Duplicate: Drop {
    /// A copy that is equal, on memory of its own. Where there is no memory, nothing is left of it.
    fn duplicate(&self, alloc: Global) -> Result<Self, AllocError>
    where
        Self: Sized,
        ensures { IfOk result (λ copy. copy ≡ self.now) };
}

/// Copies of all of a list, in their order.
pub fn duplicates<T: Duplicate>(alloc: Global, all: &Items<T>) -> Result<Items<T>, AllocError>
    ensures { IfOk result (λ copy. copy ≡ all.now) }
{
    let mut copy = Items::new(alloc);
    for one in all.as_slice() {
        copy.push(one.duplicate(alloc)?)?;
    }
    Ok(copy)
}

/// A copy of what is there.
pub fn optional<T: Duplicate>(alloc: Global, one: &Option<T>) -> Result<Option<T>, AllocError>
    ensures { IfOk result (λ copy. copy ≡ one.now) }
{
    match one {
        None => Ok(None),
        Some(one) => Ok(Some(one.duplicate(alloc)?)),
    }
}

impl Duplicate for CType {
    fn duplicate(&self, alloc: Global) -> Result<CType, AllocError> {
        self.duplicate(alloc)
    }
}

impl Duplicate for Name {
    fn duplicate(&self, alloc: Global) -> Result<Name, AllocError> {
        self.duplicate(alloc)
    }
}
