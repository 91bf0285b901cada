// What the next set allows of the innermost one.
use crate::steps::Step::{Below, Free, Pop, Push, Range};
use crate::steps::{MAX, first_wrong};
use std::test::Fail;

#[test]
fn what_nothing_has_is_allowed(rt: HostRuntime) -> Result<(), Fail> {
    let steps = [
        Push(9),
        Below(1, true),
        Push(9),
        Below(1, true),
        Range(2, 5, 0, 4),
        Free(3, 5),
        Below(1, true),
        Below(2, false),
        Below(3, false),
    ];
    assert_eq!(rt; first_wrong(rt.alloc(), &steps)?, None);
    Ok(())
}

#[test]
fn without_a_next_set_nothing_is(rt: HostRuntime) -> Result<(), Fail> {
    let steps = [
        Push(9),
        Range(2, 5, 0, 4),
        Range(4, 10, 0, 4),
        Free(3, 5),
        Free(5, 10),
        Below(1, true),
        Below(2, false),
        Below(3, false),
        Below(4, false),
        Below(5, false),
    ];
    assert_eq!(rt; first_wrong(rt.alloc(), &steps)?, None);
    Ok(())
}

#[test]
fn ranges(rt: HostRuntime) -> Result<(), Fail> {
    let steps = [
        Push(9),
        Range(7, 5, 0, 4),
        Range(7, 5, 4, 4),
        Push(12),
        Range(1, 5, 0, 4),
        Range(1, 5, 5, 2),
        Range(2, 5, 2, 4),
        Range(3, 5, 0, 4),
        Range(3, 6, 0, 4),
        Range(4, 6, 0, 4),
        Range(4, 5, 0, 4),
        Range(5, 9, 0, 1),
        Range(6, 10, 0, MAX),
        Range(7, 5, 0, 4),
        Range(8, 5, 8, 0),
        Range(9, 5, 9, 0),
        Below(1, true),
        Below(2, false),
        Below(3, false),
        Below(4, false),
        Below(5, false),
        Below(6, true),
        Below(7, true),
        Below(8, true),
        Below(9, false),
        Below(0, true),
        Pop,
        Below(7, false),
        Below(1, true),
    ];
    assert_eq!(rt; first_wrong(rt.alloc(), &steps)?, None);
    Ok(())
}

#[test]
fn objects_that_may_be_freed(rt: HostRuntime) -> Result<(), Fail> {
    let steps = [
        Push(9),
        Range(1, 5, 0, MAX),
        Free(1, 6),
        Push(12),
        Free(1, 6),
        Free(2, 5),
        Free(3, 6),
        Free(3, 5),
        Free(4, 9),
        Free(5, 10),
        Range(6, 5, 0, 4),
        Free(6, 5),
        Range(7, 6, 0, 4),
        Free(7, 6),
        Range(8, 5, 1, 2),
        Free(8, 6),
        Below(1, true),
        Below(2, false),
        Below(3, false),
        Below(4, false),
        Below(5, true),
        Below(6, false),
        Below(7, false),
        Below(8, true),
    ];
    assert_eq!(rt; first_wrong(rt.alloc(), &steps)?, None);
    Ok(())
}

// The sets around the next one don't count.
#[test]
fn the_next_set_alone_counts(rt: HostRuntime) -> Result<(), Fail> {
    let steps = [
        Push(9),
        Range(1, 5, 0, 4),
        Free(1, 5),
        Push(9),
        Push(9),
        Range(1, 5, 0, 4),
        Free(2, 5),
        Below(1, false),
        Below(2, false),
        Pop,
        Pop,
        Push(9),
        Range(1, 5, 0, 4),
        Free(2, 5),
        Below(1, true),
        Below(2, true),
    ];
    assert_eq!(rt; first_wrong(rt.alloc(), &steps)?, None);
    Ok(())
}
