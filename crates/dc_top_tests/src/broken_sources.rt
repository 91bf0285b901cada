// Sources that are broken, and sources at the limit.
use crate::harness::{ENFORCE_SET, NO_FAULT, SET, run};
use std::alloc::{AllocError, Global};
use std::test::Fail;

const LIMIT: usize = 1_048_576;

// The source cut after each byte. Only the last one, a newline, may be missing.
#[test]
fn a_cut_source(rt: HostRuntime) -> Result<(), Fail> {
    for cut in 0..=SET.len() {
        let outcome = run(rt.alloc(), ENFORCE_SET, &SET.as_bytes()[..cut], &NO_FAULT)?;
        let wanted = if cut + 1 < SET.len() { 3 } else { 0 };
        assert_eq!(rt; outcome.status, wanted, "cut after {cut}");
    }
    Ok(())
}

// The source with another byte at each place.
#[test]
fn a_strange_byte(rt: HostRuntime) -> Result<(), Fail> {
    for strange in [0, 0x7f, 0xc3, 0xff] {
        for place in 0..SET.len() {
            let mut bytes = Vec::from_slice(rt.alloc(), SET.as_bytes())?;
            if let Some(byte) = bytes.get_mut(place) {
                *byte = strange;
            }
            let outcome = run(rt.alloc(), ENFORCE_SET, &bytes, &NO_FAULT)?;
            assert_eq!(rt; outcome.status, 3, "byte {strange} at {place}");
            assert_eq!(rt;
                outcome.err.as_slice(),
                b"dcc: refused form\n".as_slice(),
                "byte {strange} at {place}"
            );
        }
    }
    Ok(())
}

// A front, and spaces behind it up to a length.
fn padded(alloc: Global, front: &[u8], len: usize) -> Result<Vec<u8>, AllocError> {
    let mut bytes = Vec::from_slice(alloc, front)?;
    bytes.resize(len, b' ')?;
    Ok(bytes)
}

// A source of spaces, and one with a function, at the limit and one byte above it.
#[test]
fn a_long_source(rt: HostRuntime) -> Result<(), Fail> {
    for (front, len, wanted) in [
        ("", LIMIT, 3),
        ("", LIMIT + 1, 9),
        (SET, LIMIT, 0),
        (SET, LIMIT + 1, 9),
    ] {
        let bytes = padded(rt.alloc(), front.as_bytes(), len)?;
        let outcome = run(rt.alloc(), ENFORCE_SET, &bytes, &NO_FAULT)?;
        assert_eq!(rt; outcome.status, wanted, "{front} {len}");
        let line = if wanted == 9 {
            "dcc: too long\n"
        } else if wanted == 3 {
            "dcc: refused form\n"
        } else {
            ""
        };
        assert_eq!(rt; outcome.err.as_slice(), line.as_bytes(), "{front} {len}");
    }
    Ok(())
}
