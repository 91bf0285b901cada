// Objects that were freed.
use crate::steps::Step::{Free, Freed, MayFree, Pop, Push, WasFreed};
use crate::steps::{MAX, first_wrong};
use std::test::Fail;

#[test]
fn before_and_since_the_start(rt: HostRuntime) -> Result<(), Fail> {
    let steps = [
        Freed(1),
        Push(9),
        WasFreed(1, false),
        WasFreed(2, false),
        Freed(2),
        WasFreed(1, false),
        WasFreed(2, true),
        Freed(1),
        WasFreed(1, true),
        Freed(2),
        WasFreed(2, true),
        WasFreed(3, false),
    ];
    assert_eq!(rt; first_wrong(rt.alloc(), &steps)?, None);
    Ok(())
}

#[test]
fn at_the_mark(rt: HostRuntime) -> Result<(), Fail> {
    let steps = [
        Push(9),
        Freed(9),
        Freed(10),
        Freed(0),
        Freed(MAX),
        WasFreed(9, true),
        WasFreed(10, false),
        WasFreed(0, true),
        WasFreed(MAX, false),
        Push(MAX),
        Freed(MAX),
        WasFreed(MAX, true),
        WasFreed(9, false),
    ];
    assert_eq!(rt; first_wrong(rt.alloc(), &steps)?, None);
    Ok(())
}

#[test]
fn the_list_stays_when_a_set_ends(rt: HostRuntime) -> Result<(), Fail> {
    let steps = [
        Freed(1),
        Push(9),
        Freed(2),
        Push(12),
        WasFreed(2, false),
        Freed(3),
        Freed(11),
        WasFreed(3, true),
        WasFreed(11, true),
        Pop,
        WasFreed(1, false),
        WasFreed(2, true),
        WasFreed(3, true),
        WasFreed(11, false),
        Pop,
        WasFreed(2, false),
        Push(9),
        WasFreed(2, false),
        WasFreed(3, false),
        Freed(4),
        WasFreed(4, true),
    ];
    assert_eq!(rt; first_wrong(rt.alloc(), &steps)?, None);
    Ok(())
}

// What may be freed and what was freed are two things.
#[test]
fn what_may_be_freed_was_not(rt: HostRuntime) -> Result<(), Fail> {
    let steps = [
        Push(9),
        Free(1, 5),
        WasFreed(5, false),
        Freed(6),
        MayFree(6, false),
        Freed(5),
        WasFreed(5, true),
        MayFree(5, true),
    ];
    assert_eq!(rt; first_wrong(rt.alloc(), &steps)?, None);
    Ok(())
}
