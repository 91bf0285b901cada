// Values of each kind as bytes.
use crate::stores::{FIRST, has_bytes};
use dc_memory::{MemKind, ObjKind, Store};
use std::test::Fail;

// A number, what is loaded where it was stored, and the bytes between two others.
const ROWS: [(MemKind, i128, i128, &[u8]); 54] = [
    (
        MemKind::Bool,
        0,
        0,
        b"\xaa\x00\xaa\xaa\xaa\xaa\xaa\xaa\xaa\xaa",
    ),
    (
        MemKind::Bool,
        1,
        1,
        b"\xaa\x01\xaa\xaa\xaa\xaa\xaa\xaa\xaa\xaa",
    ),
    (
        MemKind::Bool,
        2,
        1,
        b"\xaa\x01\xaa\xaa\xaa\xaa\xaa\xaa\xaa\xaa",
    ),
    (
        MemKind::Bool,
        -1,
        1,
        b"\xaa\x01\xaa\xaa\xaa\xaa\xaa\xaa\xaa\xaa",
    ),
    (
        MemKind::Bool,
        256,
        1,
        b"\xaa\x01\xaa\xaa\xaa\xaa\xaa\xaa\xaa\xaa",
    ),
    (
        MemKind::S8,
        0,
        0,
        b"\xaa\x00\xaa\xaa\xaa\xaa\xaa\xaa\xaa\xaa",
    ),
    (
        MemKind::S8,
        127,
        127,
        b"\xaa\x7f\xaa\xaa\xaa\xaa\xaa\xaa\xaa\xaa",
    ),
    (
        MemKind::S8,
        -128,
        -128,
        b"\xaa\x80\xaa\xaa\xaa\xaa\xaa\xaa\xaa\xaa",
    ),
    (
        MemKind::S8,
        -1,
        -1,
        b"\xaa\xff\xaa\xaa\xaa\xaa\xaa\xaa\xaa\xaa",
    ),
    (
        MemKind::S8,
        128,
        -128,
        b"\xaa\x80\xaa\xaa\xaa\xaa\xaa\xaa\xaa\xaa",
    ),
    (
        MemKind::S8,
        255,
        -1,
        b"\xaa\xff\xaa\xaa\xaa\xaa\xaa\xaa\xaa\xaa",
    ),
    (
        MemKind::S8,
        256,
        0,
        b"\xaa\x00\xaa\xaa\xaa\xaa\xaa\xaa\xaa\xaa",
    ),
    (
        MemKind::S8,
        -129,
        127,
        b"\xaa\x7f\xaa\xaa\xaa\xaa\xaa\xaa\xaa\xaa",
    ),
    (
        MemKind::U8,
        0,
        0,
        b"\xaa\x00\xaa\xaa\xaa\xaa\xaa\xaa\xaa\xaa",
    ),
    (
        MemKind::U8,
        255,
        255,
        b"\xaa\xff\xaa\xaa\xaa\xaa\xaa\xaa\xaa\xaa",
    ),
    (
        MemKind::U8,
        256,
        0,
        b"\xaa\x00\xaa\xaa\xaa\xaa\xaa\xaa\xaa\xaa",
    ),
    (
        MemKind::U8,
        -1,
        255,
        b"\xaa\xff\xaa\xaa\xaa\xaa\xaa\xaa\xaa\xaa",
    ),
    (
        MemKind::U8,
        128,
        128,
        b"\xaa\x80\xaa\xaa\xaa\xaa\xaa\xaa\xaa\xaa",
    ),
    (
        MemKind::S16,
        258,
        258,
        b"\xaa\x02\x01\xaa\xaa\xaa\xaa\xaa\xaa\xaa",
    ),
    (
        MemKind::S16,
        32767,
        32767,
        b"\xaa\xff\x7f\xaa\xaa\xaa\xaa\xaa\xaa\xaa",
    ),
    (
        MemKind::S16,
        -32768,
        -32768,
        b"\xaa\x00\x80\xaa\xaa\xaa\xaa\xaa\xaa\xaa",
    ),
    (
        MemKind::S16,
        -2,
        -2,
        b"\xaa\xfe\xff\xaa\xaa\xaa\xaa\xaa\xaa\xaa",
    ),
    (
        MemKind::S16,
        32768,
        -32768,
        b"\xaa\x00\x80\xaa\xaa\xaa\xaa\xaa\xaa\xaa",
    ),
    (
        MemKind::S16,
        65536,
        0,
        b"\xaa\x00\x00\xaa\xaa\xaa\xaa\xaa\xaa\xaa",
    ),
    (
        MemKind::U16,
        258,
        258,
        b"\xaa\x02\x01\xaa\xaa\xaa\xaa\xaa\xaa\xaa",
    ),
    (
        MemKind::U16,
        65535,
        65535,
        b"\xaa\xff\xff\xaa\xaa\xaa\xaa\xaa\xaa\xaa",
    ),
    (
        MemKind::U16,
        65536,
        0,
        b"\xaa\x00\x00\xaa\xaa\xaa\xaa\xaa\xaa\xaa",
    ),
    (
        MemKind::U16,
        -1,
        65535,
        b"\xaa\xff\xff\xaa\xaa\xaa\xaa\xaa\xaa\xaa",
    ),
    (
        MemKind::S32,
        67305985,
        67305985,
        b"\xaa\x01\x02\x03\x04\xaa\xaa\xaa\xaa\xaa",
    ),
    (
        MemKind::S32,
        2147483647,
        2147483647,
        b"\xaa\xff\xff\xff\x7f\xaa\xaa\xaa\xaa\xaa",
    ),
    (
        MemKind::S32,
        -2147483648,
        -2147483648,
        b"\xaa\x00\x00\x00\x80\xaa\xaa\xaa\xaa\xaa",
    ),
    (
        MemKind::S32,
        -1,
        -1,
        b"\xaa\xff\xff\xff\xff\xaa\xaa\xaa\xaa\xaa",
    ),
    (
        MemKind::S32,
        2147483648,
        -2147483648,
        b"\xaa\x00\x00\x00\x80\xaa\xaa\xaa\xaa\xaa",
    ),
    (
        MemKind::S32,
        4294967295,
        -1,
        b"\xaa\xff\xff\xff\xff\xaa\xaa\xaa\xaa\xaa",
    ),
    (
        MemKind::S32,
        -2147483649,
        2147483647,
        b"\xaa\xff\xff\xff\x7f\xaa\xaa\xaa\xaa\xaa",
    ),
    (
        MemKind::U32,
        67305985,
        67305985,
        b"\xaa\x01\x02\x03\x04\xaa\xaa\xaa\xaa\xaa",
    ),
    (
        MemKind::U32,
        4294967295,
        4294967295,
        b"\xaa\xff\xff\xff\xff\xaa\xaa\xaa\xaa\xaa",
    ),
    (
        MemKind::U32,
        4294967296,
        0,
        b"\xaa\x00\x00\x00\x00\xaa\xaa\xaa\xaa\xaa",
    ),
    (
        MemKind::U32,
        -1,
        4294967295,
        b"\xaa\xff\xff\xff\xff\xaa\xaa\xaa\xaa\xaa",
    ),
    (
        MemKind::S64,
        578437695752307201,
        578437695752307201,
        b"\xaa\x01\x02\x03\x04\x05\x06\x07\x08\xaa",
    ),
    (
        MemKind::S64,
        9223372036854775807,
        9223372036854775807,
        b"\xaa\xff\xff\xff\xff\xff\xff\xff\x7f\xaa",
    ),
    (
        MemKind::S64,
        -9223372036854775808,
        -9223372036854775808,
        b"\xaa\x00\x00\x00\x00\x00\x00\x00\x80\xaa",
    ),
    (
        MemKind::S64,
        -1,
        -1,
        b"\xaa\xff\xff\xff\xff\xff\xff\xff\xff\xaa",
    ),
    (
        MemKind::S64,
        9223372036854775808,
        -9223372036854775808,
        b"\xaa\x00\x00\x00\x00\x00\x00\x00\x80\xaa",
    ),
    (
        MemKind::S64,
        18446744073709551615,
        -1,
        b"\xaa\xff\xff\xff\xff\xff\xff\xff\xff\xaa",
    ),
    (
        MemKind::S64,
        -170141183460469231731687303715884105728,
        0,
        b"\xaa\x00\x00\x00\x00\x00\x00\x00\x00\xaa",
    ),
    (
        MemKind::U64,
        578437695752307201,
        578437695752307201,
        b"\xaa\x01\x02\x03\x04\x05\x06\x07\x08\xaa",
    ),
    (
        MemKind::U64,
        18446744073709551615,
        18446744073709551615,
        b"\xaa\xff\xff\xff\xff\xff\xff\xff\xff\xaa",
    ),
    (
        MemKind::U64,
        18446744073709551616,
        0,
        b"\xaa\x00\x00\x00\x00\x00\x00\x00\x00\xaa",
    ),
    (
        MemKind::U64,
        -1,
        18446744073709551615,
        b"\xaa\xff\xff\xff\xff\xff\xff\xff\xff\xaa",
    ),
    (
        MemKind::U64,
        170141183460469231731687303715884105727,
        18446744073709551615,
        b"\xaa\xff\xff\xff\xff\xff\xff\xff\xff\xaa",
    ),
    (
        MemKind::Ptr,
        281474976710661,
        281474976710661,
        b"\xaa\x05\x00\x00\x00\x00\x00\x01\x00\xaa",
    ),
    (
        MemKind::Ptr,
        18446744073709551615,
        18446744073709551615,
        b"\xaa\xff\xff\xff\xff\xff\xff\xff\xff\xaa",
    ),
    (
        MemKind::Ptr,
        -1,
        18446744073709551615,
        b"\xaa\xff\xff\xff\xff\xff\xff\xff\xff\xaa",
    ),
];

#[test]
fn each_kind(rt: HostRuntime) -> Result<(), Fail> {
    let mut store = Store::new(rt.alloc());
    store.create(ObjKind::Heap, true, 10)?;
    for (kind, number, value, bytes) in ROWS {
        assert!(rt; store.fill(FIRST, 0xaa, 10));
        assert!(rt; store.store(FIRST + 1, kind, number));
        assert!(rt; has_bytes(&store, 1, bytes), "{kind:?} {number}");
        assert_eq!(rt;
            store.load(FIRST + 1, kind),
            Some(value),
            "{kind:?} {number}"
        );
    }
    Ok(())
}

// A `_Bool` is 1 where its byte isn't 0, whatever else the byte is.
#[test]
fn truth_of_a_byte(rt: HostRuntime) -> Result<(), Fail> {
    let mut store = Store::new(rt.alloc());
    store.create(ObjKind::Stack, true, 1)?;
    for byte in 0..=255u8 {
        assert!(rt; store.fill(FIRST, byte, 1));
        assert_eq!(rt;
            store.load(FIRST, MemKind::Bool),
            Some(if byte == 0 { 0 } else { 1 })
        );
        assert_eq!(rt; store.load(FIRST, MemKind::U8), Some(byte as i128));
    }
    Ok(())
}

// What one kind stores, another one loads.
#[test]
fn one_kind_as_another(rt: HostRuntime) -> Result<(), Fail> {
    let mut store = Store::new(rt.alloc());
    store.create(ObjKind::Static, true, 8)?;
    assert!(rt; store.store(FIRST, MemKind::S64, -2));
    assert_eq!(rt; store.load(FIRST, MemKind::U64), Some(18446744073709551614));
    assert_eq!(rt; store.load(FIRST + 1, MemKind::S32), Some(-1));
    assert_eq!(rt; store.load(FIRST, MemKind::U16), Some(65534));
    assert!(rt; store.store(FIRST + 2, MemKind::U16, 4660));
    assert_eq!(rt; store.load(FIRST + 2, MemKind::U8), Some(52));
    assert_eq!(rt; store.load(FIRST + 3, MemKind::U8), Some(18));
    assert_eq!(rt; store.load(FIRST, MemKind::U32), Some(305463294));
    assert_eq!(rt; store.load(FIRST + 1, MemKind::U16), Some(13567));
    Ok(())
}
