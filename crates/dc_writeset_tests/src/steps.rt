// Calls of sets in a row, each with what is wanted of it.
use dc_writeset::WriteSets;
use std::alloc::{AllocError, Global};

/// The greatest number of 64 bits.
pub const MAX: u64 = 18446744073709551615;

/// A call, and what is wanted of it.
#[derive(Clone, Copy)]
pub enum Step {
    /// A set with this mark is opened.
    Push(u64),
    /// The innermost set is closed.
    Pop,
    /// The innermost set has one more range: its tag, object, first byte and length.
    Range(u64, u64, u64, u64),
    /// The innermost set has one more object that may be freed: its tag and number.
    Free(u64, u64),
    /// An object is freed.
    Freed(u64),
    /// Whether bytes of an object may be written: its number, the first byte and the length.
    Covers(u64, u64, u64, bool),
    /// Whether an object may be freed.
    MayFree(u64, bool),
    /// Whether what has the tag is allowed by the next set.
    Below(u64, bool),
    /// Whether an object was freed.
    WasFreed(u64, bool),
    /// The innermost mark.
    Mark(Option<u64>),
    /// A range of the innermost set, by its place.
    RangeAt(usize, Option<(u64, u64, u64)>),
    /// An object that the innermost set names to be freed, by its place.
    FreeAt(usize, Option<u64>),
}

// Adds a range, and says whether there is a set.
fn range(
    sets: &mut WriteSets,
    tag: u64,
    object: u64,
    from: u64,
    len: u64,
) -> Result<bool, AllocError> {
    if sets.mark().is_none() {
        return Ok(false);
    }
    sets.add_range(tag, object, from, len)?;
    Ok(true)
}

// Adds an object that may be freed, and says whether there is a set.
fn free(sets: &mut WriteSets, tag: u64, object: u64) -> Result<bool, AllocError> {
    if sets.mark().is_none() {
        return Ok(false);
    }
    sets.add_free(tag, object)?;
    Ok(true)
}

// Whether the call comes to what is wanted of it.
fn comes(sets: &mut WriteSets, step: Step) -> Result<bool, AllocError> {
    match step {
        Step::Push(mark) => {
            sets.push(mark)?;
            Ok(true)
        }
        Step::Pop => {
            sets.pop();
            Ok(true)
        }
        Step::Range(tag, object, from, len) => range(sets, tag, object, from, len),
        Step::Free(tag, object) => free(sets, tag, object),
        Step::Freed(object) => {
            sets.note_freed(object)?;
            Ok(true)
        }
        Step::Covers(object, from, len, wanted) => Ok(sets.covers(object, from, len) == wanted),
        Step::MayFree(object, wanted) => Ok(sets.may_free(object) == wanted),
        Step::Below(tag, wanted) => Ok(sets.inside_below(tag) == wanted),
        Step::WasFreed(object, wanted) => Ok(sets.was_freed(object) == wanted),
        Step::Mark(wanted) => Ok(sets.mark() == wanted),
        Step::RangeAt(k, wanted) => Ok(sets.range_at(k) == wanted),
        Step::FreeAt(k, wanted) => Ok(sets.free_at(k) == wanted),
    }
}

/// The index of the first step that doesn't come to what is wanted of it, where no set is open at first; none where all
/// do.
pub fn first_wrong(alloc: Global, steps: &[Step]) -> Result<Option<usize>, AllocError> {
    let mut sets = WriteSets::new(alloc);
    for (index, step) in steps.iter().enumerate() {
        if !comes(&mut sets, *step)? {
            return Ok(Some(index));
        }
    }
    Ok(None)
}
