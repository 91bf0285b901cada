// What operators give beside a char, an unsigned, an unsigned long, pointers to int and to const char, an array of int, a
// function, a pointer to void, a struct, and a pointer to a struct without members.
use crate::shown::{arms_row, assigned_row, binary_row, cast_row, null_row, single_row};
use dc_program::BinOp;
use std::test::Fail;

#[test]
fn sums(rt: HostRuntime) -> Result<(), Fail> {
    let rows: [(&[u8], &[u8]); 10] = [
        (b"c", b"i u L *i *kc *i !05 !05 !23 !05"),
        (b"u", b"u u L *i *kc *i !05 !05 !23 !05"),
        (b"L", b"L L L *i *kc *i !05 !05 !23 !05"),
        (b"*i", b"*i *i *i !23 !23 !23 !23 !23 !23 !23"),
        (b"*kc", b"*kc *kc *kc !23 !23 !23 !23 !23 !23 !23"),
        (b"ai", b"*i *i *i !23 !23 !23 !23 !23 !23 !23"),
        (b"fi", b"!05 !05 !05 !23 !23 !23 !23 !23 !23 !23"),
        (b"*v", b"!05 !05 !05 !23 !23 !23 !23 !23 !23 !23"),
        (b"0", b"!23 !23 !23 !23 !23 !23 !23 !23 !23 !23"),
        (b"*1", b"!05 !05 !05 !23 !23 !23 !23 !23 !23 !23"),
    ];
    for (word, wanted) in rows {
        let answer = binary_row(rt.alloc(), BinOp::Add, word)?;
        assert_eq!(rt; answer.as_slice(), wanted);
    }
    Ok(())
}

#[test]
fn differences(rt: HostRuntime) -> Result<(), Fail> {
    let rows: [(&[u8], &[u8]); 8] = [
        (b"c", b"i u L !23 !23 !23 !23 !23 !23 !23"),
        (b"*i", b"*i *i *i l !23 l !23 !23 !23 !23"),
        (b"*kc", b"*kc *kc *kc !23 l !23 !23 !23 !23 !23"),
        (b"*c", b"*c *c *c !23 l !23 !23 !23 !23 !23"),
        (b"ai", b"*i *i *i l !23 l !23 !23 !23 !23"),
        (b"fi", b"!05 !05 !05 !23 !23 !23 !05 !23 !23 !23"),
        (b"*v", b"!05 !05 !05 !23 !23 !23 !23 !05 !23 !23"),
        (b"*1", b"!05 !05 !05 !23 !23 !23 !23 !23 !23 !05"),
    ];
    for (word, wanted) in rows {
        let answer = binary_row(rt.alloc(), BinOp::Sub, word)?;
        assert_eq!(rt; answer.as_slice(), wanted);
    }
    Ok(())
}

#[test]
fn common_types(rt: HostRuntime) -> Result<(), Fail> {
    let rows: [(BinOp, &[u8], &[u8]); 8] = [
        (BinOp::Mul, b"b", b"i u L !14 !14 !14 !14 !14 !14 !14"),
        (BinOp::Div, b"u", b"u u L !14 !14 !14 !14 !14 !14 !14"),
        (BinOp::Rem, b"kl", b"l l L !14 !14 !14 !14 !14 !14 !14"),
        (BinOp::And, b"L", b"L L L !14 !14 !14 !14 !14 !14 !14"),
        (BinOp::Or, b"p", b"p p p !14 !14 !14 !14 !14 !14 !14"),
        (
            BinOp::Xor,
            b"*i",
            b"!14 !14 !14 !14 !14 !14 !14 !14 !14 !14",
        ),
        (
            BinOp::Mul,
            b"ai",
            b"!14 !14 !14 !14 !14 !14 !14 !14 !14 !14",
        ),
        (BinOp::Mul, b"0", b"!14 !14 !14 !14 !14 !14 !14 !14 !14 !14"),
    ];
    for (op, word, wanted) in rows {
        let answer = binary_row(rt.alloc(), op, word)?;
        assert_eq!(rt; answer.as_slice(), wanted);
    }
    Ok(())
}

#[test]
fn shifts(rt: HostRuntime) -> Result<(), Fail> {
    let rows: [(BinOp, &[u8], &[u8]); 5] = [
        (BinOp::Shl, b"c", b"i i i !14 !14 !14 !14 !14 !14 !14"),
        (BinOp::Shr, b"u", b"u u u !14 !14 !14 !14 !14 !14 !14"),
        (BinOp::Shl, b"l", b"l l l !14 !14 !14 !14 !14 !14 !14"),
        (BinOp::Shr, b"p", b"p p p !14 !14 !14 !14 !14 !14 !14"),
        (
            BinOp::Shl,
            b"*i",
            b"!14 !14 !14 !14 !14 !14 !14 !14 !14 !14",
        ),
    ];
    for (op, word, wanted) in rows {
        let answer = binary_row(rt.alloc(), op, word)?;
        assert_eq!(rt; answer.as_slice(), wanted);
    }
    Ok(())
}

#[test]
fn comparisons(rt: HostRuntime) -> Result<(), Fail> {
    let rows: [(BinOp, &[u8], &[u8]); 9] = [
        (BinOp::Lt, b"c", b"i i i !22 !22 !22 !22 !22 !22 !22"),
        (BinOp::Le, b"*i", b"!22 !22 !22 i !22 i !22 i !22 !22"),
        (BinOp::Gt, b"*c", b"!22 !22 !22 !22 i !22 !22 i !22 !22"),
        (BinOp::Ge, b"ai", b"!22 !22 !22 i !22 i !22 i !22 !22"),
        (BinOp::Eq, b"fi", b"!22 !22 !22 !22 !22 !22 i !22 !22 !22"),
        (BinOp::Ne, b"*v", b"!22 !22 !22 i i i !22 i !22 i"),
        (BinOp::Lt, b"*kv", b"!22 !22 !22 i i i !22 i !22 i"),
        (BinOp::Eq, b"0", b"!22 !22 !22 !22 !22 !22 !22 !22 !22 !22"),
        (BinOp::Lt, b"*1", b"!22 !22 !22 !22 !22 !22 !22 i !22 i"),
    ];
    for (op, word, wanted) in rows {
        let answer = binary_row(rt.alloc(), op, word)?;
        assert_eq!(rt; answer.as_slice(), wanted);
    }
    Ok(())
}

#[test]
fn null_pointer_constants(rt: HostRuntime) -> Result<(), Fail> {
    let rows: [(&[u8], &[u8]); 5] = [
        (b"*i", b"!22 i i"),
        (b"fi", b"!22 i i"),
        (b"*v", b"!22 i i"),
        (b"0", b"!22 !22 !22"),
        (b"c", b"i i i"),
    ];
    for (word, wanted) in rows {
        let answer = null_row(rt.alloc(), word)?;
        assert_eq!(rt; answer.as_slice(), wanted);
    }
    Ok(())
}

#[test]
fn single_operands(rt: HostRuntime) -> Result<(), Fail> {
    let rows: [(&[u8], &[u8]); 11] = [
        (b"c", b"i i i i i L !16"),
        (b"ku", b"u u u i i L !16"),
        (b"L", b"L L L i i L !16"),
        (b"*kc", b"!14 !14 !14 i i L kc"),
        (b"*v", b"!14 !14 !14 i i L !16"),
        (b"*1", b"!14 !14 !14 i i L !16"),
        (b"*zi", b"!14 !14 !14 i i L !16"),
        (b"ai", b"!14 !14 !14 i i L i"),
        (b"fi", b"!14 !14 !14 i i !27 fi"),
        (b"1", b"!14 !14 !14 !15 !15 !27 !16"),
        (b"v", b"!14 !14 !14 !15 !15 !27 !16"),
    ];
    for (word, wanted) in rows {
        let answer = single_row(rt.alloc(), word)?;
        assert_eq!(rt; answer.as_slice(), wanted);
    }
    Ok(())
}

#[test]
fn assignments(rt: HostRuntime) -> Result<(), Fail> {
    let rows: [(&[u8], &[u8]); 9] = [
        (b"c", b"y y y n n n n n n n"),
        (b"*i", b"0 0 0 y 0 y 0 y 0 0"),
        (b"*c", b"0 0 0 0 y 0 0 y 0 0"),
        (b"*kv", b"0 0 0 y y y 0 y 0 y"),
        (b"*fi", b"0 0 0 0 0 0 y 0 0 0"),
        (b"*1", b"0 0 0 0 0 0 0 y 0 y"),
        (b"k0", b"n n n n n n n n y n"),
        (b"ai", b"n n n n n n n n n n"),
        (b"fi", b"n n n n n n n n n n"),
    ];
    for (word, wanted) in rows {
        let answer = assigned_row(rt.alloc(), word)?;
        assert_eq!(rt; answer.as_slice(), wanted);
    }
    Ok(())
}

#[test]
fn casts(rt: HostRuntime) -> Result<(), Fail> {
    let rows: [(&[u8], &[u8]); 6] = [
        (b"b", b"y y y n n n n n n n"),
        (b"*i", b"0 0 0 y y y 0 y 0 y"),
        (b"*v", b"0 0 0 y y y 0 y 0 y"),
        (b"*fi", b"0 0 0 0 0 0 y 0 0 0"),
        (b"ai", b"n n n n n n n n n n"),
        (b"0", b"n n n n n n n n n n"),
    ];
    for (word, wanted) in rows {
        let answer = cast_row(rt.alloc(), word)?;
        assert_eq!(rt; answer.as_slice(), wanted);
    }
    Ok(())
}

#[test]
fn arms(rt: HostRuntime) -> Result<(), Fail> {
    let rows: [(&[u8], &[u8]); 8] = [
        (b"b", b"i u L !25 !25 !25 !25 !25 !25 !25"),
        (b"*i", b"!25 !25 !25 *i !25 *i !25 *v !25 !25"),
        (b"*c", b"!25 !25 !25 !25 *kc !25 !25 *v !25 !25"),
        (b"*kc", b"!25 !25 !25 !25 *kc !25 !25 *kv !25 !25"),
        (b"fi", b"!25 !25 !25 !25 !25 !25 *fi !25 !25 !25"),
        (b"*v", b"!25 !25 !25 *v *kv *v !25 *v !25 *v"),
        (b"k0", b"!25 !25 !25 !25 !25 !25 !25 !25 0 !25"),
        (b"v", b"!25 !25 !25 !25 !25 !25 !25 !25 !25 !25"),
    ];
    for (word, wanted) in rows {
        let answer = arms_row(rt.alloc(), word)?;
        assert_eq!(rt; answer.as_slice(), wanted);
    }
    Ok(())
}
