// Texts at the bounds of heights, of nestings and of the number of names.
use crate::answers::{Answer, answer_to};
use std::alloc::{AllocError, Global};
use std::test::Fail;

// Adds a piece that many times.
fn repeat(text: &mut Vec<u8>, piece: &[u8], times: usize) -> Result<(), AllocError> {
    for _ in 0..times {
        text.extend_from_slice(piece)?;
    }
    Ok(())
}

// A start that sets a register to this many sums, each in the first operand of the next.
fn sums(alloc: Global, times: usize) -> Result<Vec<u8>, AllocError> {
    let mut text = Vec::from_slice(alloc, b"dcc 1\nbody .start 0 1\nset 0 ")?;
    repeat(&mut text, b"(add s32 ", times)?;
    text.extend_from_slice(b"(s32 1)")?;
    repeat(&mut text, b" (s32 1))", times)?;
    text.extend_from_slice(b"\nreturn\nend\n")?;
    Ok(text)
}

// A start that sets a register to what begins with a piece that many times.
fn begun(alloc: Global, piece: &[u8], times: usize) -> Result<Vec<u8>, AllocError> {
    let mut text = Vec::from_slice(alloc, b"dcc 1\nbody .start 0 1\nset 0 ")?;
    repeat(&mut text, piece, times)?;
    text.extend_from_slice(b"\nreturn\nend\n")?;
    Ok(text)
}

// A start that sets a register to what has an expression behind that many words, each in parentheses.
fn nest(alloc: Global, open: &[u8], inner: &[u8], times: usize) -> Result<Vec<u8>, AllocError> {
    let mut text = Vec::from_slice(alloc, b"dcc 1\nbody .start 0 1\nset 0 ")?;
    repeat(&mut text, open, times)?;
    text.extend_from_slice(inner)?;
    repeat(&mut text, b")", times)?;
    text.extend_from_slice(b"\nreturn\nend\n")?;
    Ok(text)
}

// A start that sets a register to that many quantifiers, each in the test of the one before, around a variable.
fn quantifiers(alloc: Global, times: u64, variable: u64) -> Result<Vec<u8>, AllocError> {
    let mut text = Vec::from_slice(alloc, b"dcc 1\nbody .start 0 1\nset 0 ")?;
    for k in 0..times {
        text.extend_from_slice(b"(exists ")?;
        text.extend_from_slice(k.to_string(alloc)?.as_bytes())?;
        text.extend_from_slice(b" u8 (u8 0) (u8 9) ")?;
    }
    text.extend_from_slice(b"(var ")?;
    text.extend_from_slice(variable.to_string(alloc)?.as_bytes())?;
    text.extend_from_slice(b")")?;
    repeat(&mut text, b")", times as usize)?;
    text.extend_from_slice(b"\nreturn\nend\n")?;
    Ok(text)
}

// A start that calls through a pointer to a function of so many parameters with so many arguments.
fn call_through(alloc: Global, params: usize, arguments: usize) -> Result<Vec<u8>, AllocError> {
    let mut text = Vec::from_slice(alloc, b"dcc 1\nbody .start 0 1\ncallp - (reg 0) (sig void")?;
    repeat(&mut text, b" s32", params)?;
    text.extend_from_slice(b")")?;
    repeat(&mut text, b" (s32 1)", arguments)?;
    text.extend_from_slice(b"\nreturn\nend\n")?;
    Ok(text)
}

#[test]
fn heights(rt: HostRuntime) -> Result<(), Fail> {
    let alloc = rt.alloc();
    assert_eq!(rt; answer_to(alloc, &sums(alloc, 1023)?)?, Answer::Scanned);
    assert_eq!(rt; answer_to(alloc, &sums(alloc, 1024)?)?, Answer::Line(3));
    assert_eq!(rt;
        answer_to(alloc, &begun(alloc, b"(", 1_000_000)?)?,
        Answer::Line(3)
    );
    assert_eq!(rt;
        answer_to(alloc, &begun(alloc, b"(load u64 ", 100_000)?)?,
        Answer::Line(3)
    );
    assert_eq!(rt;
        answer_to(alloc, &nest(alloc, b"(at 1 (ptr 0) ", b"(ptr 0)", 1023)?)?,
        Answer::Scanned
    );
    assert_eq!(rt;
        answer_to(alloc, &nest(alloc, b"(at 1 (ptr 0) ", b"(ptr 0)", 1024)?)?,
        Answer::Line(3)
    );
    assert_eq!(rt;
        answer_to(alloc, &nest(alloc, b"(freed ", b"(var 0)", 1023)?)?,
        Answer::Shape(3)
    );
    assert_eq!(rt;
        answer_to(alloc, &nest(alloc, b"(freed ", b"(var 0)", 1024)?)?,
        Answer::Line(3)
    );
    assert_eq!(rt;
        answer_to(alloc, &begun(alloc, b"(forall 0 u64 ", 100_000)?)?,
        Answer::Line(3)
    );
    Ok(())
}

#[test]
fn nestings(rt: HostRuntime) -> Result<(), Fail> {
    let alloc = rt.alloc();
    assert_eq!(rt;
        answer_to(alloc, &quantifiers(alloc, 1023, 1022)?)?,
        Answer::Scanned
    );
    assert_eq!(rt;
        answer_to(alloc, &quantifiers(alloc, 1023, 1023)?)?,
        Answer::Shape(3)
    );
    assert_eq!(rt;
        answer_to(alloc, &quantifiers(alloc, 1024, 0)?)?,
        Answer::Line(3)
    );
    Ok(())
}

#[test]
fn parameters(rt: HostRuntime) -> Result<(), Fail> {
    let alloc = rt.alloc();
    assert_eq!(rt;
        answer_to(alloc, &call_through(alloc, 1000, 1000)?)?,
        Answer::Scanned
    );
    assert_eq!(rt;
        answer_to(alloc, &call_through(alloc, 1000, 999)?)?,
        Answer::Shape(3)
    );
    assert_eq!(rt;
        answer_to(alloc, &call_through(alloc, 999, 1000)?)?,
        Answer::Shape(3)
    );
    Ok(())
}

// A text with that many variables.
fn variables(alloc: Global, count: u64) -> Result<Vec<u8>, AllocError> {
    let mut text = Vec::from_slice(alloc, b"dcc 1\n")?;
    for k in 0..count {
        text.extend_from_slice(b"static v")?;
        text.extend_from_slice(k.to_string(alloc)?.as_bytes())?;
        text.extend_from_slice(b" 1\n")?;
    }
    text.extend_from_slice(b"body .start 0 0\nreturn\nend\n")?;
    Ok(text)
}

#[test]
fn names(rt: HostRuntime) -> Result<(), Fail> {
    let alloc = rt.alloc();
    assert_eq!(rt;
        answer_to(alloc, &variables(alloc, 32767)?)?,
        Answer::Scanned
    );
    assert_eq!(rt;
        answer_to(alloc, &variables(alloc, 32768)?)?,
        Answer::Shape(32769)
    );
    Ok(())
}
