// What is 128 high, and what is higher.
use crate::reading::read;
use std::alloc::{AllocError, Global};
use std::test::Fail;

// A function whose block has a word so many times, a text, and another word as many times.
fn nest(
    alloc: Global,
    times: usize,
    before: &[u8],
    inner: &[u8],
    behind: &[u8],
) -> Result<Vec<u8>, AllocError> {
    let mut text = Vec::new(alloc);
    text.extend_from_slice(b"void f(void) {")?;
    for _ in 0..times {
        text.extend_from_slice(before)?;
    }
    text.extend_from_slice(inner)?;
    for _ in 0..times {
        text.extend_from_slice(behind)?;
    }
    text.push(b'}')?;
    Ok(text)
}

// Is a unit read from it?
fn is_read(alloc: Global, source: &[u8]) -> Result<bool, AllocError> {
    let answer = read(alloc, source)?;
    Ok(answer.as_slice().starts_with(b"["))
}

#[test]
fn nests_are_read_up_to_a_height(rt: HostRuntime) -> Result<(), Fail> {
    let rows: [(&[u8], &[u8], &[u8], usize); 8] = [
        (b"{", b"", b"}", 126),
        (b"if(1)", b";", b"", 125),
        (b"if(1);else ", b";", b"", 125),
        (b"while(1)", b";", b"", 125),
        (b"do ", b";", b"while(1);", 125),
        (b"for(;;)", b";", b"", 125),
        (b"case 1:", b";", b"", 125),
        (b"default:", b";", b"", 125),
    ];
    for (before, inner, behind, times) in rows {
        let low = nest(rt.alloc(), times, before, inner, behind)?;
        let high = nest(rt.alloc(), times + 1, before, inner, behind)?;
        assert!(rt; is_read(rt.alloc(), low.as_slice())?);
        assert!(rt; !is_read(rt.alloc(), high.as_slice())?);
    }
    Ok(())
}

// A deep nest is answered without deep recursion.
#[test]
fn deep_nests_are_answered(rt: HostRuntime) -> Result<(), Fail> {
    let words: [&[u8]; 8] = [
        b"{",
        b"if(1)",
        b"do ",
        b"while(1)",
        b"for(;;)",
        b"(",
        b"int a[] = {",
        b"struct {",
    ];
    for word in words {
        let nested = nest(rt.alloc(), 20000, word, b"", b"")?;
        assert!(rt; !is_read(rt.alloc(), nested.as_slice())?);
    }
    Ok(())
}
