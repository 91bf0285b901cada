// Sets one within the other.
use crate::steps::Step::{
    Below, Covers, Free, FreeAt, Freed, Mark, MayFree, Pop, Push, Range, RangeAt, WasFreed,
};
use crate::steps::first_wrong;
use dc_writeset::WriteSets;
use std::alloc::{AllocError, Global};
use std::test::Fail;

#[test]
fn without_a_set_nothing_is_allowed(rt: HostRuntime) -> Result<(), Fail> {
    let steps = [
        Mark(None),
        Covers(1, 0, 0, false),
        MayFree(1, false),
        Below(0, true),
        WasFreed(1, false),
        RangeAt(0, None),
        FreeAt(0, None),
        Pop,
        Mark(None),
        Freed(1),
        WasFreed(1, false),
        Pop,
        Covers(1, 0, 0, false),
    ];
    assert_eq!(rt; first_wrong(rt.alloc(), &steps)?, None);
    Ok(())
}

#[test]
fn the_innermost_set_alone_counts(rt: HostRuntime) -> Result<(), Fail> {
    let steps = [
        Push(4),
        Range(1, 2, 0, 8),
        Free(1, 2),
        Push(6),
        Mark(Some(6)),
        Covers(2, 0, 8, false),
        MayFree(2, false),
        Covers(5, 0, 1, false),
        MayFree(5, false),
        Covers(7, 0, 1, true),
        Range(1, 3, 0, 1),
        Covers(3, 0, 1, true),
        Pop,
        Mark(Some(4)),
        Covers(2, 0, 8, true),
        MayFree(2, true),
        Covers(3, 0, 1, false),
        Covers(5, 0, 1, true),
        Pop,
        Mark(None),
        Covers(2, 0, 8, false),
        Covers(5, 0, 1, false),
    ];
    assert_eq!(rt; first_wrong(rt.alloc(), &steps)?, None);
    Ok(())
}

// Whether so many sets are opened and closed again, each with its own mark and range.
fn opened_and_closed(alloc: Global, count: u64) -> Result<bool, AllocError> {
    let mut sets = WriteSets::new(alloc);
    for number in 0..count {
        sets.push(number)?;
        if sets.mark().is_some() {
            sets.add_range(0, 0, number, 1)?;
        }
    }
    for left in 0..count {
        let number = count - left - 1;
        if sets.mark() != Some(number) || !sets.covers(0, number, 1) || sets.covers(0, left, 2) {
            return Ok(false);
        }
        sets.pop();
    }
    Ok(sets.mark().is_none())
}

#[test]
fn a_thousand_sets(rt: HostRuntime) -> Result<(), Fail> {
    assert!(rt; opened_and_closed(rt.alloc(), 1000)?);
    Ok(())
}
