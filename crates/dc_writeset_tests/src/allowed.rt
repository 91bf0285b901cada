// What the innermost set allows.
use crate::steps::Step::{Covers, Free, MayFree, Push, Range};
use crate::steps::{MAX, first_wrong};
use std::test::Fail;

#[test]
fn an_object_above_the_mark_is_new(rt: HostRuntime) -> Result<(), Fail> {
    let steps = [
        Push(3),
        Covers(3, 0, 1, false),
        Covers(4, 0, 1, true),
        Covers(4, MAX, MAX, true),
        MayFree(3, false),
        MayFree(4, true),
        Push(0),
        Covers(0, 0, 0, false),
        Covers(1, 0, 0, true),
        MayFree(0, false),
        MayFree(1, true),
        Push(MAX),
        Covers(MAX, 0, 1, false),
        MayFree(MAX, false),
    ];
    assert_eq!(rt; first_wrong(rt.alloc(), &steps)?, None);
    Ok(())
}

#[test]
fn a_range_has_all_the_bytes(rt: HostRuntime) -> Result<(), Fail> {
    let steps = [
        Push(9),
        Range(1, 5, 10, 4),
        Covers(5, 10, 4, true),
        Covers(5, 11, 2, true),
        Covers(5, 13, 1, true),
        Covers(5, 9, 1, false),
        Covers(5, 9, 5, false),
        Covers(5, 14, 1, false),
        Covers(5, 10, 5, false),
        Covers(5, 13, 2, false),
        Covers(4, 10, 4, false),
        Covers(6, 10, 4, false),
        MayFree(5, false),
    ];
    assert_eq!(rt; first_wrong(rt.alloc(), &steps)?, None);
    Ok(())
}

// Bytes of which there are none are at a place all the same.
#[test]
fn no_bytes_are_within_a_range_or_at_its_ends(rt: HostRuntime) -> Result<(), Fail> {
    let steps = [
        Push(9),
        Covers(5, 10, 0, false),
        Range(1, 5, 10, 4),
        Range(1, 6, 7, 0),
        Covers(5, 9, 0, false),
        Covers(5, 10, 0, true),
        Covers(5, 12, 0, true),
        Covers(5, 14, 0, true),
        Covers(5, 15, 0, false),
        Covers(6, 7, 0, true),
        Covers(6, 7, 1, false),
    ];
    assert_eq!(rt; first_wrong(rt.alloc(), &steps)?, None);
    Ok(())
}

#[test]
fn two_ranges_never_allow_a_write_together(rt: HostRuntime) -> Result<(), Fail> {
    let steps = [
        Push(9),
        Range(1, 5, 0, 4),
        Range(1, 5, 4, 4),
        Range(2, 5, 2, 4),
        Covers(5, 0, 4, true),
        Covers(5, 4, 4, true),
        Covers(5, 2, 4, true),
        Covers(5, 3, 2, true),
        Covers(5, 0, 8, false),
        Covers(5, 0, 6, false),
        Covers(5, 1, 4, false),
        Covers(5, 5, 2, true),
    ];
    assert_eq!(rt; first_wrong(rt.alloc(), &steps)?, None);
    Ok(())
}

#[test]
fn an_object_is_freed_by_its_name(rt: HostRuntime) -> Result<(), Fail> {
    let steps = [
        Push(9),
        Free(1, 5),
        Free(2, 7),
        MayFree(5, true),
        MayFree(7, true),
        MayFree(6, false),
        MayFree(1, false),
        MayFree(9, false),
        Covers(5, 0, 1, false),
        Covers(5, 0, 0, false),
    ];
    assert_eq!(rt; first_wrong(rt.alloc(), &steps)?, None);
    Ok(())
}

// Ends are whole numbers, and never go around.
#[test]
fn ends_beyond_64_bits(rt: HostRuntime) -> Result<(), Fail> {
    let steps = [
        Push(MAX),
        Range(MAX, MAX, MAX, MAX),
        Range(0, 7, MAX, 1),
        Range(0, 8, 1, MAX),
        Range(0, 9, 0, MAX),
        Covers(MAX, MAX, MAX, true),
        Covers(MAX, MAX, 0, true),
        Covers(MAX, 0, 1, false),
        Covers(MAX, MAX - 1, MAX, false),
        Covers(7, MAX, 1, true),
        Covers(7, MAX, 2, false),
        Covers(7, 0, 0, false),
        Covers(7, 0, 1, false),
        Covers(8, 2, MAX, false),
        Covers(8, 1, MAX, true),
        Covers(8, MAX, 1, true),
        Covers(8, MAX, 2, false),
        Covers(9, MAX, 0, true),
        Covers(9, MAX, 1, false),
        Covers(9, 1, MAX, false),
        Covers(9, 0, MAX, true),
    ];
    assert_eq!(rt; first_wrong(rt.alloc(), &steps)?, None);
    Ok(())
}
