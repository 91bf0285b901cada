// Sources that are cut off, and long ones of one kind.
use crate::answers::{Answer, answer_to, told};
use std::alloc::{AllocError, Global};
use std::test::Fail;

const SOURCE: &str = "a/*b*/'c'0x1u\n#include <stdint.h>\n<<=";

const CUTS: [&str; 38] = [
    "",
    "w1:a",
    "w1:a p1:/",
    "byte 1",
    "byte 1",
    "byte 1",
    "w1:a",
    "byte 6",
    "byte 6",
    "w1:a c1:'c'",
    "w1:a c1:'c' i1:0",
    "w1:a c1:'c' i1:0 w1:x",
    "w1:a c1:'c' i1:0x1",
    "w1:a c1:'c' i1:0x1u",
    "w1:a c1:'c' i1:0x1u",
    "directive 2",
    "directive 2",
    "directive 2",
    "directive 2",
    "directive 2",
    "directive 2",
    "directive 2",
    "directive 2",
    "directive 2",
    "directive 2",
    "directive 2",
    "directive 2",
    "directive 2",
    "directive 2",
    "directive 2",
    "directive 2",
    "directive 2",
    "directive 2",
    "w1:a c1:'c' i1:0x1u",
    "w1:a c1:'c' i1:0x1u",
    "w1:a c1:'c' i1:0x1u p3:<",
    "w1:a c1:'c' i1:0x1u p3:<<",
    "w1:a c1:'c' i1:0x1u p3:<<=",
];

#[test]
fn each_cut(rt: HostRuntime) -> Result<(), Fail> {
    let source = SOURCE.as_bytes();
    assert_eq!(rt; source.len().wrapping_add(1), CUTS.len());
    for (len, cut) in CUTS.iter().enumerate() {
        let Some(front) = source.get(..len) else {
            continue;
        };
        let told = told(rt.alloc(), front)?;
        assert_eq!(rt; told.as_slice(), cut.as_bytes(), "{len}");
    }
    Ok(())
}

// A piece, that many times.
fn repeated(alloc: Global, piece: &[u8], times: usize) -> Result<Vec<u8>, AllocError> {
    let mut source = Vec::new(alloc);
    for _ in 0..times {
        source.extend_from_slice(piece)?;
    }
    Ok(source)
}

const MEBIBYTE: usize = 1_048_576;

// The answer to a piece, that many times.
fn answer_to_many(alloc: Global, piece: &[u8], times: usize) -> Result<Answer, AllocError> {
    let source = repeated(alloc, piece, times)?;
    answer_to(alloc, source.as_slice())
}

#[test]
fn parentheses(rt: HostRuntime) -> Result<(), Fail> {
    let answer = answer_to_many(rt.alloc(), b"(", MEBIBYTE)?;
    assert_eq!(rt; answer, Answer::Tokens(1_048_576));
    Ok(())
}

#[test]
fn minuses(rt: HostRuntime) -> Result<(), Fail> {
    let answer = answer_to_many(rt.alloc(), b"-", MEBIBYTE)?;
    assert_eq!(rt; answer, Answer::Tokens(524_288));
    Ok(())
}

#[test]
fn letters(rt: HostRuntime) -> Result<(), Fail> {
    let answer = answer_to_many(rt.alloc(), b"x", MEBIBYTE)?;
    assert_eq!(rt; answer, Answer::Tokens(1));
    Ok(())
}

#[test]
fn zeros(rt: HostRuntime) -> Result<(), Fail> {
    let answer = answer_to_many(rt.alloc(), b"0", MEBIBYTE)?;
    assert_eq!(rt; answer, Answer::Tokens(1));
    Ok(())
}

#[test]
fn nines(rt: HostRuntime) -> Result<(), Fail> {
    let answer = answer_to_many(rt.alloc(), b"9", MEBIBYTE)?;
    assert_eq!(rt; answer, Answer::Wide(0));
    Ok(())
}

#[test]
fn slashes(rt: HostRuntime) -> Result<(), Fail> {
    let answer = answer_to_many(rt.alloc(), b"/", MEBIBYTE)?;
    assert_eq!(rt; answer, Answer::Tokens(0));
    Ok(())
}

#[test]
fn comments_begun(rt: HostRuntime) -> Result<(), Fail> {
    let answer = answer_to_many(rt.alloc(), b"/*", MEBIBYTE / 2)?;
    assert_eq!(rt; answer, Answer::Byte(1_048_572));
    Ok(())
}

#[test]
fn comments(rt: HostRuntime) -> Result<(), Fail> {
    let answer = answer_to_many(rt.alloc(), b"/**/", MEBIBYTE / 4)?;
    assert_eq!(rt; answer, Answer::Tokens(0));
    Ok(())
}

#[test]
fn newlines(rt: HostRuntime) -> Result<(), Fail> {
    let answer = answer_to_many(rt.alloc(), b"\n", MEBIBYTE)?;
    assert_eq!(rt; answer, Answer::Tokens(0));
    Ok(())
}

#[test]
fn markers(rt: HostRuntime) -> Result<(), Fail> {
    let answer = answer_to_many(rt.alloc(), b"#1\n", MEBIBYTE / 3)?;
    assert_eq!(rt; answer, Answer::Tokens(0));
    Ok(())
}

#[test]
fn includes(rt: HostRuntime) -> Result<(), Fail> {
    let answer = answer_to_many(rt.alloc(), b"#include <stdint.h>/**/ //\n", MEBIBYTE / 27)?;
    assert_eq!(rt; answer, Answer::Tokens(0));
    Ok(())
}

#[test]
fn any_bytes(rt: HostRuntime) -> Result<(), Fail> {
    let alloc = rt.alloc();
    assert_eq!(rt; answer_to(alloc, b"a\xff")?, Answer::Byte(1));
    assert_eq!(rt;
        answer_to(alloc, b"// \xff\n/* \x00\x80 */x")?,
        Answer::Tokens(1)
    );
    assert_eq!(rt; answer_to(alloc, b"# 1 \x00\xff\n")?, Answer::Tokens(0));
    Ok(())
}
