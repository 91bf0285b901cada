// Blocks of bytes are copied and filled.
use crate::stores::{FIRST, counting, has_bytes};
use dc_memory::ObjKind;
use std::test::Fail;

// Ranges that overlap are copied as if through a buffer.
#[test]
fn overlap(rt: HostRuntime) -> Result<(), Fail> {
    let rows: [(u64, u64, u64, &[u8]); 8] = [
        (2, 0, 4, b"\x00\x01\x00\x01\x02\x03\x06\x07"),
        (0, 2, 4, b"\x02\x03\x04\x05\x04\x05\x06\x07"),
        (1, 0, 7, b"\x00\x00\x01\x02\x03\x04\x05\x06"),
        (0, 1, 7, b"\x01\x02\x03\x04\x05\x06\x07\x07"),
        (4, 0, 4, b"\x00\x01\x02\x03\x00\x01\x02\x03"),
        (0, 4, 4, b"\x04\x05\x06\x07\x04\x05\x06\x07"),
        (3, 3, 5, b"\x00\x01\x02\x03\x04\x05\x06\x07"),
        (8, 0, 0, b"\x00\x01\x02\x03\x04\x05\x06\x07"),
    ];
    for (to, from, len, bytes) in rows {
        let mut store = counting(rt.alloc(), 8)?;
        assert!(rt; store.copy(FIRST + to, FIRST + from, len));
        assert!(rt; has_bytes(&store, 1, bytes), "{to} {from} {len}");
    }
    Ok(())
}

#[test]
fn between_objects(rt: HostRuntime) -> Result<(), Fail> {
    let mut store = counting(rt.alloc(), 4)?;
    store.create(ObjKind::Static, true, 3)?;
    assert!(rt; store.copy(2 * FIRST + 1, FIRST + 2, 2));
    assert!(rt; has_bytes(&store, 1, b"\x00\x01\x02\x03"));
    assert!(rt; has_bytes(&store, 2, b"\x00\x02\x03"));
    assert!(rt; store.copy(FIRST, 2 * FIRST, 3));
    assert!(rt; has_bytes(&store, 1, b"\x00\x02\x03\x03"));
    assert!(rt; has_bytes(&store, 2, b"\x00\x02\x03"));
    assert!(rt; store.copy(FIRST + 4, 2 * FIRST + 3, 0));
    Ok(())
}

// A copy that isn't inside at one end changes nothing.
#[test]
fn not_inside(rt: HostRuntime) -> Result<(), Fail> {
    let mut store = counting(rt.alloc(), 4)?;
    store.create(ObjKind::Static, true, 3)?;
    store.create(ObjKind::Stack, false, 0)?;
    let rows: [(u64, u64, u64); 8] = [
        (2 * FIRST, FIRST, 4),
        (FIRST, 2 * FIRST, 4),
        (FIRST + 2, FIRST, 3),
        (FIRST, FIRST + 2, 3),
        (0, FIRST, 1),
        (FIRST, 0, 1),
        (FIRST, 3 * FIRST, 0),
        (3 * FIRST, FIRST, 0),
    ];
    for (to, from, len) in rows {
        assert!(rt; !store.copy(to, from, len), "{to} {from} {len}");
        assert!(rt;
            has_bytes(&store, 1, b"\x00\x01\x02\x03"),
            "{to} {from} {len}"
        );
        assert!(rt; has_bytes(&store, 2, b"\0\0\0"), "{to} {from} {len}");
    }
    Ok(())
}

#[test]
fn fills(rt: HostRuntime) -> Result<(), Fail> {
    let mut store = counting(rt.alloc(), 6)?;
    assert!(rt; store.fill(FIRST + 1, 255, 3));
    assert!(rt; has_bytes(&store, 1, b"\x00\xff\xff\xff\x04\x05"));
    assert!(rt; store.fill(FIRST + 5, 9, 1));
    assert!(rt; store.fill(FIRST + 6, 1, 0));
    assert!(rt; has_bytes(&store, 1, b"\x00\xff\xff\xff\x04\x09"));
    assert!(rt; !store.fill(FIRST + 3, 1, 4));
    assert!(rt; has_bytes(&store, 1, b"\x00\xff\xff\xff\x04\x09"));
    assert!(rt; store.fill(FIRST, 7, 6));
    assert!(rt; has_bytes(&store, 1, b"\x07\x07\x07\x07\x07\x07"));
    Ok(())
}
