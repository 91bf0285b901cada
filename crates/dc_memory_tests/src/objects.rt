// Objects are created, looked at and killed.
use crate::stores::{FIRST, has_bytes, killed};
use dc_memory::{Create, MemKind, ObjKind, Store, object_number, offset};
use std::test::Fail;

#[test]
fn one_object(rt: HostRuntime) -> Result<(), Fail> {
    let mut store = Store::new(rt.alloc());
    assert_eq!(rt; store.count(), 0);
    assert_eq!(rt; store.create(ObjKind::Heap, true, 4)?, 1);
    assert_eq!(rt; store.count(), 1);
    assert_eq!(rt; store.look(1), Some((ObjKind::Heap, true, 4)));
    assert!(rt; has_bytes(&store, 1, b"\0\0\0\0"));
    assert!(rt; !store.store(FIRST + 2, MemKind::S32, 1));
    assert!(rt; store.inside(FIRST + 4, 0));
    assert!(rt; killed(&mut store, 1));
    assert_eq!(rt; store.load(FIRST, MemKind::U8), None);
    assert!(rt; !store.inside(FIRST, 0));
    assert_eq!(rt; store.look(1), Some((ObjKind::Heap, false, 0)));
    assert!(rt; has_bytes(&store, 1, b""));
    assert_eq!(rt; store.count(), 1);
    Ok(())
}

#[test]
fn each_kind(rt: HostRuntime) -> Result<(), Fail> {
    let mut store = Store::new(rt.alloc());
    assert_eq!(rt; store.create(ObjKind::Function, true, 0)?, 1);
    assert_eq!(rt; store.create(ObjKind::Static, true, 1)?, 2);
    assert_eq!(rt; store.create(ObjKind::Heap, true, 0)?, 3);
    assert_eq!(rt; store.create(ObjKind::Stack, false, 0)?, 4);
    assert_eq!(rt; store.look(0), None);
    assert_eq!(rt; store.look(1), Some((ObjKind::Function, true, 0)));
    assert_eq!(rt; store.look(2), Some((ObjKind::Static, true, 1)));
    assert_eq!(rt; store.look(3), Some((ObjKind::Heap, true, 0)));
    assert_eq!(rt; store.look(4), Some((ObjKind::Stack, false, 0)));
    assert_eq!(rt; store.look(5), None);
    assert_eq!(rt; store.look(18446744073709551615), None);
    assert!(rt; store.bytes(0).is_none());
    assert!(rt; store.bytes(5).is_none());
    Ok(())
}

// An object has the bytes that it is created with, and others that are put there.
#[test]
fn given_bytes(rt: HostRuntime) -> Result<(), Fail> {
    let mut store = Store::new(rt.alloc());
    let bytes = Vec::from_slice(rt.alloc(), b"\x01\x02\x03")?;
    assert_eq!(rt; store.create_with(ObjKind::Stack, bytes)?, 1);
    assert_eq!(rt; store.look(1), Some((ObjKind::Stack, true, 3)));
    assert!(rt; has_bytes(&store, 1, b"\x01\x02\x03"));
    if store.inside(FIRST + 1, 2) {
        store.put(FIRST + 1, b"\x08\x09");
    }
    assert!(rt; has_bytes(&store, 1, b"\x01\x08\x09"));
    assert_eq!(rt; object_number(FIRST + 1), 1);
    assert_eq!(rt; offset(FIRST + 1), 1);
    Ok(())
}

// A dead object stays, and those beside it are as they were.
#[test]
fn the_others_stay(rt: HostRuntime) -> Result<(), Fail> {
    let mut store = Store::new(rt.alloc());
    store.create(ObjKind::Stack, true, 1)?;
    store.create(ObjKind::Stack, true, 2)?;
    store.create(ObjKind::Stack, true, 3)?;
    assert!(rt; store.store(FIRST, MemKind::U8, 1));
    assert!(rt; store.store(3 * FIRST + 2, MemKind::U8, 3));
    assert!(rt; killed(&mut store, 2));
    assert!(rt; !killed(&mut store, 2));
    assert!(rt; has_bytes(&store, 1, b"\x01"));
    assert!(rt; has_bytes(&store, 3, b"\0\0\x03"));
    assert_eq!(rt; store.create(ObjKind::Heap, true, 1)?, 4);
    assert_eq!(rt; store.count(), 4);
    Ok(())
}

#[test]
fn the_most_objects(rt: HostRuntime) -> Result<(), Fail> {
    let mut store = Store::new(rt.alloc());
    for number in 1..65536u64 {
        assert_eq!(rt; store.create(ObjKind::Stack, true, 1)?, number);
    }
    assert!(rt; matches!(store.create(ObjKind::Stack, true, 1), Err(Create::Full)));
    assert_eq!(rt; store.count(), 65535);
    assert_eq!(rt; store.look(65535), Some((ObjKind::Stack, true, 1)));
    assert_eq!(rt; store.look(65536), None);
    assert!(rt; store.store(65535 * FIRST, MemKind::U8, 7));
    assert_eq!(rt; store.load(65535 * FIRST, MemKind::U8), Some(7));
    assert_eq!(rt; store.load(65534 * FIRST, MemKind::U8), Some(0));
    assert!(rt; killed(&mut store, 65535));
    assert!(rt; matches!(store.create(ObjKind::Heap, false, 0), Err(Create::Full)));
    Ok(())
}

#[test]
fn the_largest_object(rt: HostRuntime) -> Result<(), Fail> {
    let mut store = Store::new(rt.alloc());
    assert_eq!(rt; store.create(ObjKind::Static, true, 16777216)?, 1);
    assert_eq!(rt; store.look(1), Some((ObjKind::Static, true, 16777216)));
    assert!(rt; store.inside(FIRST, 16777216));
    assert!(rt; !store.inside(FIRST, 16777217));
    assert!(rt; store.store(FIRST + 16777208, MemKind::U64, 1));
    assert!(rt; !store.store(FIRST + 16777209, MemKind::U64, 1));
    assert!(rt; store.fill(FIRST, 9, 16777216));
    assert_eq!(rt; store.load(FIRST + 16777215, MemKind::U8), Some(9));
    assert!(rt; store.copy(FIRST, FIRST, 16777216));
    Ok(())
}
