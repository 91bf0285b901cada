// Which ranges are wholly inside one live object.
use crate::stores::{FIRST, has_bytes, killed};
use dc_memory::{Create, MemKind, ObjKind, Store};
use std::alloc::Global;
use std::test::Fail;

// An object of four bytes, a function, a dead object, one without bytes, and one that was killed.
fn five(alloc: Global) -> Result<Store, Create> {
    let mut store = Store::new(alloc);
    store.create(ObjKind::Heap, true, 4)?;
    store.create(ObjKind::Function, true, 0)?;
    store.create(ObjKind::Stack, false, 0)?;
    store.create(ObjKind::Static, true, 0)?;
    store.create(ObjKind::Stack, true, 4)?;
    killed(&mut store, 5);
    Ok(store)
}

const ROWS: [(u64, u64, bool); 33] = [
    (FIRST, 0, true),
    (FIRST, 1, true),
    (FIRST, 4, true),
    (FIRST, 5, false),
    (FIRST, 281474976710656, false),
    (FIRST, 18446744073709551615, false),
    (FIRST + 1, 18446744073709551615, false),
    (FIRST + 3, 1, true),
    (FIRST + 3, 2, false),
    (FIRST + 4, 0, true),
    (FIRST + 4, 1, false),
    (FIRST + 4, 18446744073709551612, false),
    (FIRST + 5, 0, false),
    (FIRST + 5, 18446744073709551615, false),
    (FIRST + 281474976710655, 0, false),
    (FIRST + 281474976710655, 1, false),
    (0, 0, false),
    (0, 1, false),
    (4, 0, false),
    (FIRST - 1, 0, false),
    (FIRST - 1, 1, false),
    (2 * FIRST, 0, true),
    (2 * FIRST, 1, false),
    (2 * FIRST + 1, 0, false),
    (3 * FIRST, 0, false),
    (3 * FIRST, 1, false),
    (4 * FIRST, 0, true),
    (4 * FIRST, 1, false),
    (5 * FIRST, 0, false),
    (5 * FIRST, 1, false),
    (6 * FIRST, 0, false),
    (18446462598732840960, 0, false),
    (18446744073709551615, 1, false),
];

#[test]
fn inside(rt: HostRuntime) -> Result<(), Fail> {
    let store = five(rt.alloc())?;
    for (ptr, len, is) in ROWS {
        assert_eq!(rt; store.inside(ptr, len), is, "{ptr} {len}");
    }
    Ok(())
}

// Writes do as `inside` says, and one that doesn't changes nothing.
#[test]
fn writes(rt: HostRuntime) -> Result<(), Fail> {
    let mut store = five(rt.alloc())?;
    for (ptr, len, is) in ROWS {
        assert_eq!(rt; store.copy(ptr, ptr, len), is, "{ptr} {len}");
        assert_eq!(rt; store.copy(ptr, FIRST, len), is, "{ptr} {len}");
        assert_eq!(rt; store.copy(FIRST, ptr, len), is, "{ptr} {len}");
        assert_eq!(rt; store.fill(ptr, 0, len), is, "{ptr} {len}");
        assert!(rt; is || !store.fill(ptr, 1, len), "{ptr} {len}");
        assert!(rt; has_bytes(&store, 1, b"\0\0\0\0"), "{ptr} {len}");
    }
    Ok(())
}

// A value needs room for all of its bytes.
#[test]
fn values(rt: HostRuntime) -> Result<(), Fail> {
    let mut store = five(rt.alloc())?;
    let rows: [(u64, MemKind, bool); 14] = [
        (FIRST, MemKind::U64, false),
        (FIRST, MemKind::Ptr, false),
        (FIRST, MemKind::S32, true),
        (FIRST + 1, MemKind::S32, false),
        (FIRST + 2, MemKind::U16, true),
        (FIRST + 3, MemKind::U16, false),
        (FIRST + 3, MemKind::Bool, true),
        (FIRST + 4, MemKind::Bool, false),
        (FIRST + 281474976710655, MemKind::U16, false),
        (0, MemKind::U8, false),
        (2 * FIRST, MemKind::U8, false),
        (3 * FIRST, MemKind::U8, false),
        (5 * FIRST, MemKind::U8, false),
        (6 * FIRST, MemKind::U8, false),
    ];
    for (ptr, kind, is) in rows {
        assert_eq!(rt; store.load(ptr, kind), if is { Some(0) } else { None });
        assert_eq!(rt; store.store(ptr, kind, 0), is);
        assert!(rt; is || !store.store(ptr, kind, 1));
        assert!(rt; has_bytes(&store, 1, b"\0\0\0\0"));
    }
    Ok(())
}
