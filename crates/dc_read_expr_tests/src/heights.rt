// What is 128 high, and what is higher.
use crate::reading::read;
use std::alloc::{AllocError, Global};
use std::test::Fail;

// A word so many times, a text, and another word as many times.
fn nest(
    alloc: Global,
    times: usize,
    before: &[u8],
    inner: &[u8],
    behind: &[u8],
) -> Result<Vec<u8>, AllocError> {
    let mut text = Vec::new(alloc);
    for _ in 0..times {
        text.extend_from_slice(before)?;
    }
    text.extend_from_slice(inner)?;
    for _ in 0..times {
        text.extend_from_slice(behind)?;
    }
    Ok(text)
}

// What is read from a nest ends with this.
fn ends_with(alloc: Global, nested: &[u8], end: &[u8]) -> Result<bool, AllocError> {
    let answer = read(alloc, nested)?;
    Ok(answer.as_slice().ends_with(end))
}

#[test]
fn nests_are_read_up_to_a_height(rt: HostRuntime) -> Result<(), Fail> {
    let rows: [(&[u8], &[u8], &[u8], usize, &[u8]); 14] = [
        (b"(", b"a", b")", 127, b" 255"),
        (b"(", b"a", b")", 128, b"none"),
        (b"- ", b"a", b"", 127, b" 128"),
        (b"- ", b"a", b"", 128, b"none"),
        (b"a ? ", b"a", b": a", 127, b" 509"),
        (b"a ==> ", b"a", b"", 127, b" 255"),
        (b"a = ", b"a", b"", 127, b" 255"),
        (b"a + ", b"a", b"", 127, b" 255"),
        (b"a + ", b"a", b"", 199, b" 255"),
        (b"", b"a", b"++", 127, b" 128"),
        (b"", b"a", b"++", 128, b" 128"),
        (b"f(", b"a", b")", 127, b" 382"),
        (b"sizeof ", b"a", b"", 127, b" 128"),
        (b"sizeof ", b"a", b"", 128, b"none"),
    ];
    for (before, inner, behind, times, wanted) in rows {
        let nested = nest(rt.alloc(), times, before, inner, behind)?;
        assert!(rt; ends_with(rt.alloc(), nested.as_slice(), wanted)?);
    }
    Ok(())
}

// A deep nest is answered without deep recursion.
#[test]
fn deep_nests_are_answered(rt: HostRuntime) -> Result<(), Fail> {
    let words: [&[u8]; 9] = [
        b"(",
        b"- ",
        b"a ? ",
        b"sizeof ",
        b"sizeof (",
        b"f(",
        b"a[",
        b"(int (*)(",
        b"a = ",
    ];
    for word in words {
        let nested = nest(rt.alloc(), 20000, word, b"", b"")?;
        let answer = read(rt.alloc(), nested.as_slice())?;
        assert!(rt; !answer.is_empty());
    }
    Ok(())
}
