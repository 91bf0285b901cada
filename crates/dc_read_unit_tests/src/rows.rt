// Sources from their bytes to what becomes of them, in words.
use crate::reading::read;
use std::alloc::{AllocError, Global};
use std::test::Fail;

// `read`, `no reading`, or where the lexer stops, as `byte 0`.
fn answer(alloc: Global, source: &[u8]) -> Result<Vec<u8>, AllocError> {
    let told = read(alloc, source)?;
    if told.as_slice().starts_with(b"[") {
        return Vec::from_slice(alloc, b"read");
    }
    if told.as_slice() == b"none".as_slice() {
        return Vec::from_slice(alloc, b"no reading");
    }
    Ok(told)
}

// A source is read, spells no unit, or has no tokens from a place on.
#[test]
fn sources_are_read_or_refused(rt: HostRuntime) -> Result<(), Fail> {
    let rows: [(&[u8], &[u8]); 9] = [
        (b"int;;", b"no reading"),
        (b"/* x", b"byte 0"),
        (b"\"", b"byte 0"),
        (b"#define A 1", b"directive 1"),
        (b"unsigned long f = 18446744073709551615u;", b"read"),
        (b"unsigned long f = 18446744073709551616;", b"wide 18"),
        (b"void f(void) { x = 1; }", b"read"),
        (b"int inc(int x) { return x + 1 }", b"no reading"),
        (b"a", b"no reading"),
    ];
    for (source, wanted) in rows {
        let told = answer(rt.alloc(), source)?;
        assert_eq!(rt; told.as_slice(), wanted);
    }
    Ok(())
}
