// The values of expressions.
use crate::harness::{NO_FAULT, run_both};
use crate::rows::{HEAD, LONG, text_of};
use std::alloc::{AllocError, Global};
use std::process::Abort;
use std::test::Fail;

// Register 0: the object 6, 8 bytes on the stack. Register 1: the object 7, 6 bytes on the heap. Register 2: the object 8,
// which died on the stack. Register 3: the object 9, which was freed. Register 4: no value.
const SETUP: &str = "local 0 8 zero
alloc 1 (u64 3) (u64 2) zero
local 2 4 zero
kill 1
alloc 3 (u64 1) (u64 1) zero
free (reg 3)
keep 4 (div s32 (s32 1) (s32 0))
";

// Constants, registers, objects, what is loaded, and conversions.
const LEAVES: [(&str, Option<i128>); 25] = [
    ("(s32 -5)", Some(-5)),
    ("(u64 18446744073709551615)", Some(18446744073709551615)),
    ("(reg 4)", None),
    ("(reg 6)", Some(0)),
    ("(obj 0)", Some(0)),
    ("(obj 5)", Some(1407374883553280)),
    ("(load u8 (obj 5))", Some(0)),
    ("(load u32 (at 1 (reg 1) (s32 2)))", Some(0)),
    ("(load u32 (at 1 (reg 1) (s32 3)))", None),
    ("(load u64 (reg 1))", None),
    ("(load u8 (reg 2))", None),
    ("(load u8 (reg 3))", None),
    ("(load u8 (reg 4))", None),
    ("(load u8 (obj 1))", None),
    ("(load bool (ptr 0))", None),
    ("(load u8 (s64 -1))", None),
    ("(load u8 (s64 1407374883553280))", Some(0)),
    ("(conv u8 s32 (s32 -1))", Some(255)),
    ("(conv s64 u8 (s32 300))", Some(44)),
    ("(conv bool u8 (s32 256))", Some(0)),
    ("(conv bool s32 (s32 256))", Some(1)),
    ("(conv s8 u8 (s32 200))", Some(-56)),
    ("(conv ptr s32 (s32 -1))", Some(18446744073709551615)),
    ("(conv u16 ptr (at 1 (reg 0) (s32 3)))", Some(3)),
    ("(conv u16 s32 (reg 4))", None),
];

// Operators: their operands are converted to the kind that is named, but not the count of a shift.
const OPERATORS: [(&str, Option<i128>); 54] = [
    ("(neg s8 (s32 128))", None),
    ("(neg s8 (s32 129))", Some(127)),
    ("(neg u32 (s32 1))", Some(4294967295)),
    ("(neg bool (s32 2))", Some(1)),
    ("(neg s32 (reg 4))", None),
    ("(not u8 (s32 256))", Some(255)),
    ("(not s8 (s32 127))", Some(-128)),
    ("(not bool (s32 5))", Some(0)),
    ("(not u8 (reg 4))", None),
    ("(add s8 (s32 100) (s32 28))", None),
    ("(add s8 (s32 200) (s32 28))", Some(-28)),
    ("(add u8 (s32 511) (s32 257))", Some(0)),
    ("(add bool (s32 5) (s32 7))", Some(0)),
    ("(add s32 (reg 4) (s32 1))", None),
    ("(add s32 (s32 1) (reg 4))", None),
    ("(sub u64 (s32 0) (s32 1))", Some(18446744073709551615)),
    ("(mul u64 (u64 4294967296) (u64 4294967296))", Some(0)),
    ("(mul s64 (u64 4294967296) (u64 4294967296))", None),
    ("(div s32 (s32 -7) (s32 2))", Some(-3)),
    ("(div s32 (s32 -2147483648) (s32 -1))", None),
    ("(div u8 (s32 1) (s32 256))", None),
    ("(rem s32 (s32 7) (s32 -2))", Some(1)),
    ("(rem s32 (s32 -2147483648) (s32 -1))", None),
    ("(shl u32 (s32 1) (s32 31))", Some(2147483648)),
    ("(shl s32 (s32 1) (s32 31))", None),
    ("(shl s32 (s32 -1) (s32 0))", None),
    ("(shl u8 (s32 257) (s32 7))", Some(128)),
    ("(shl u8 (s32 1) (s32 8))", None),
    ("(shl u8 (s32 1) (s32 256))", None),
    ("(shl u32 (s32 1) (s32 -1))", None),
    ("(shl u64 (s32 1) (u64 18446744073709551615))", None),
    ("(shr u8 (s32 511) (s32 7))", Some(1)),
    ("(shr u8 (s32 1) (s32 256))", None),
    ("(shr s64 (s64 -9223372036854775808) (s32 63))", Some(-1)),
    ("(shr s32 (s32 1) (s32 -1))", None),
    ("(and s8 (s32 -1) (s32 143))", Some(-113)),
    ("(or bool (s32 0) (s32 256))", Some(1)),
    ("(xor u16 (s32 -1) (s32 1))", Some(65534)),
    ("(lt u8 (s32 256) (s32 255))", Some(1)),
    ("(lt s8 (s32 255) (s32 0))", Some(1)),
    ("(ge u64 (s32 -1) (s32 1))", Some(1)),
    ("(eq bool (s32 2) (s32 3))", Some(1)),
    ("(and2 (s32 2) (s32 4))", Some(1)),
    ("(and2 (s32 0) (reg 4))", Some(0)),
    ("(and2 (reg 4) (s32 0))", None),
    ("(and2 (s32 1) (reg 4))", None),
    ("(or2 (s32 -1) (reg 4))", Some(1)),
    ("(or2 (reg 4) (s32 1))", None),
    ("(or2 (s32 0) (reg 4))", None),
    ("(or2 (s32 0) (s32 0))", Some(0)),
    ("(if (s32 0) (reg 4) (s32 300))", Some(300)),
    ("(if (s32 256) (s32 7) (reg 4))", Some(7)),
    ("(if (reg 4) (s32 1) (s32 1))", None),
    ("(if (s32 1) (reg 4) (s32 1))", None),
];

// Pointers that are compared, moved and in a distance.
const POINTERS: [(&str, Option<i128>); 58] = [
    ("(eq ptr (reg 0) (reg 1))", Some(0)),
    ("(ne ptr (reg 0) (reg 1))", Some(1)),
    ("(eq ptr (reg 2) (reg 2))", Some(1)),
    ("(eq ptr (s32 -1) (u64 18446744073709551615))", Some(1)),
    ("(lt ptr (reg 0) (reg 1))", None),
    ("(lt ptr (reg 0) (at 1 (reg 0) (s32 8)))", Some(1)),
    ("(lt ptr (reg 0) (ptr 1688849860263945))", None),
    (
        "(gt ptr (at 1 (reg 1) (s32 6)) (at 1 (reg 1) (s32 5)))",
        Some(1),
    ),
    ("(le ptr (reg 0) (reg 0))", Some(1)),
    ("(le ptr (obj 1) (obj 1))", Some(1)),
    ("(ge ptr (reg 2) (reg 2))", None),
    ("(ge ptr (reg 3) (reg 3))", None),
    ("(le ptr (ptr 0) (ptr 0))", None),
    ("(eq ptr (reg 4) (ptr 0))", None),
    ("(at 4 (reg 0) (s32 2))", Some(1688849860263944)),
    ("(at 4 (reg 0) (s32 3))", None),
    ("(at 1 (reg 0) (s32 9))", None),
    ("(at 1 (reg 0) (s32 -1))", None),
    (
        "(at 3 (at 1 (reg 0) (s32 7)) (s32 -2))",
        Some(1688849860263937),
    ),
    ("(at 3 (at 1 (reg 0) (s32 7)) (s32 -3))", None),
    ("(at 1 (reg 2) (s32 0))", None),
    ("(at 1 (reg 3) (s32 0))", None),
    ("(at 1 (ptr 0) (s32 0))", None),
    ("(at 1 (obj 1) (s32 0))", Some(281474976710656)),
    ("(at 1 (obj 1) (s32 1))", None),
    ("(at 1 (ptr 1688849860263945) (s32 -1))", None),
    (
        "(at 1 (at 1 (reg 0) (s32 1)) (u64 18446744073709551615))",
        None,
    ),
    ("(at 16777216 (reg 0) (u64 18446744073709551615))", None),
    ("(at 16777216 (reg 0) (s64 -9223372036854775808))", None),
    (
        "(at 16777216 (at 1 (reg 0) (s32 8)) (s32 0))",
        Some(1688849860263944),
    ),
    ("(at 1 (reg 4) (s32 0))", None),
    ("(at 1 (reg 0) (reg 4))", None),
    ("(diff 4 (at 1 (reg 0) (s32 8)) (reg 0))", Some(2)),
    ("(diff 4 (reg 0) (at 1 (reg 0) (s32 8)))", Some(-2)),
    ("(diff 4 (at 1 (reg 0) (s32 6)) (reg 0))", None),
    ("(diff 4 (reg 0) (at 1 (reg 0) (s32 6)))", None),
    (
        "(diff 3 (at 1 (reg 0) (s32 1)) (at 1 (reg 0) (s32 7)))",
        Some(-2),
    ),
    ("(diff 16777216 (reg 1) (reg 1))", Some(0)),
    ("(diff 1 (obj 1) (obj 1))", Some(0)),
    ("(diff 1 (reg 0) (reg 1))", None),
    ("(diff 1 (reg 2) (reg 2))", None),
    ("(diff 1 (ptr 0) (ptr 0))", None),
    ("(diff 1 (reg 0) (ptr 1688849860263945))", None),
    ("(diff 1 (reg 4) (reg 0))", None),
    ("(diff 1 (reg 0) (reg 4))", None),
    (
        "(inrange (reg 0) (at 1 (reg 0) (s32 3)) (at 1 (reg 0) (s32 8)))",
        Some(1),
    ),
    ("(inrange (reg 0) (reg 0) (reg 0))", Some(1)),
    ("(inrange (obj 1) (obj 1) (obj 1))", Some(1)),
    (
        "(inrange (at 1 (reg 0) (s32 1)) (reg 0) (at 1 (reg 0) (s32 8)))",
        Some(0),
    ),
    (
        "(inrange (reg 0) (at 1 (reg 0) (s32 8)) (at 1 (reg 0) (s32 7)))",
        Some(0),
    ),
    ("(inrange (reg 0) (reg 1) (reg 0))", Some(0)),
    ("(inrange (reg 1) (reg 1) (reg 0))", Some(0)),
    ("(inrange (reg 0) (reg 0) (ptr 1688849860263945))", Some(0)),
    ("(inrange (reg 2) (reg 2) (reg 2))", Some(0)),
    ("(inrange (ptr 0) (ptr 0) (ptr 0))", Some(0)),
    ("(inrange (reg 4) (reg 0) (reg 0))", None),
    ("(inrange (reg 0) (reg 4) (reg 0))", None),
    ("(inrange (reg 0) (reg 0) (reg 4))", None),
];

// What pointers and their objects are like.
const OBJECTS: [(&str, Option<i128>); 54] = [
    ("(start (at 1 (reg 0) (s32 8)))", Some(1688849860263936)),
    ("(start (ptr 1688849860263999))", Some(1688849860263936)),
    ("(start (obj 1))", Some(281474976710656)),
    ("(start (reg 2))", None),
    ("(start (ptr 0))", None),
    ("(start (reg 4))", None),
    ("(size (at 1 (reg 1) (s32 6)))", Some(6)),
    ("(size (obj 5))", Some(8)),
    ("(size (obj 1))", Some(0)),
    ("(size (reg 3))", None),
    ("(size (ptr 18446744073709551615))", None),
    ("(size (reg 4))", None),
    ("(offset (at 1 (reg 1) (s32 5)))", Some(5)),
    ("(offset (ptr 1688849860263999))", Some(63)),
    ("(offset (reg 2))", None),
    ("(offset (ptr 7))", None),
    ("(offset (reg 4))", None),
    ("(freeable (ptr 0))", Some(1)),
    ("(freeable (reg 1))", Some(1)),
    ("(freeable (at 1 (reg 1) (s32 1)))", Some(0)),
    ("(freeable (reg 0))", Some(0)),
    ("(freeable (reg 3))", Some(0)),
    ("(freeable (obj 5))", Some(0)),
    ("(freeable (obj 1))", Some(0)),
    ("(freeable (ptr 1))", Some(0)),
    ("(freeable (reg 4))", None),
    ("(freed (reg 3))", Some(0)),
    ("(freed (ptr 0))", Some(0)),
    ("(freed (reg 4))", None),
    ("(ok (reg 0) (u64 8))", Some(1)),
    ("(ok (reg 0) (u64 9))", Some(0)),
    ("(ok (obj 5) (u64 8))", Some(1)),
    ("(ok (reg 1) (u64 6))", Some(1)),
    ("(ok (at 1 (reg 0) (s32 8)) (u64 0))", Some(1)),
    ("(ok (ptr 1688849860263945) (u64 0))", Some(0)),
    ("(ok (at 1 (reg 0) (s32 1)) (s32 -1))", Some(0)),
    ("(ok (obj 1) (u64 0))", Some(0)),
    ("(ok (reg 2) (u64 0))", Some(0)),
    ("(ok (ptr 0) (u64 0))", Some(0)),
    ("(ok (reg 4) (u64 0))", None),
    ("(ok (reg 0) (reg 4))", None),
    ("(fresh (reg 0) (u64 8))", Some(1)),
    ("(fresh (at 1 (reg 0) (s32 4)) (u64 4))", Some(1)),
    ("(fresh (reg 1) (u64 0))", Some(1)),
    ("(fresh (reg 0) (u64 9))", Some(0)),
    ("(fresh (obj 5) (u64 8))", Some(0)),
    ("(fresh (obj 1) (u64 0))", Some(0)),
    ("(fresh (reg 2) (u64 0))", Some(0)),
    ("(fresh (reg 3) (u64 0))", Some(0)),
    ("(fresh (reg 4) (u64 0))", None),
    ("(fresh (reg 0) (reg 4))", None),
    ("(new (reg 0) (u64 8))", Some(0)),
    ("(new (reg 4) (u64 0))", None),
    ("(new (reg 0) (reg 4))", None),
];

// Quantifiers: their bounds are converted to the kind that is named, and the answers of their bodies aren't.
const QUANTIFIERS: [(&str, Option<i128>); 33] = [
    ("(forall 0 s32 (s32 3) (s32 3) (reg 4))", Some(1)),
    ("(exists 0 s32 (s32 3) (s32 3) (reg 4))", Some(0)),
    ("(forall 0 s32 (s32 3) (s32 -3) (reg 4))", Some(1)),
    (
        "(exists 0 u64 (u64 18446744073709551615) (s32 0) (reg 4))",
        Some(0),
    ),
    (
        "(exists 0 s32 (s32 1) (s32 4) (eq s32 (div s32 (s32 6) (sub s32 (s32 3) (var 0))) (s32 6)))",
        Some(1),
    ),
    (
        "(exists 0 s32 (s32 1) (s32 4) (eq s32 (div s32 (s32 6) (sub s32 (s32 3) (var 0))) (s32 5)))",
        None,
    ),
    (
        "(forall 0 s32 (s32 1) (s32 4) (ne s32 (div s32 (s32 6) (sub s32 (s32 3) (var 0))) (s32 6)))",
        Some(0),
    ),
    (
        "(forall 0 s32 (s32 1) (s32 4) (ne s32 (div s32 (s32 6) (sub s32 (s32 3) (var 0))) (s32 5)))",
        None,
    ),
    (
        "(forall 0 s32 (s32 0) (s32 3) (lt s32 (var 0) (s32 3)))",
        Some(1),
    ),
    (
        "(forall 0 s32 (s32 0) (s32 4) (lt s32 (var 0) (s32 3)))",
        Some(0),
    ),
    (
        "(exists 0 s32 (s32 0) (s32 3) (eq s32 (var 0) (s32 3)))",
        Some(0),
    ),
    (
        "(exists 0 s32 (s32 0) (s32 4) (eq s32 (var 0) (s32 3)))",
        Some(1),
    ),
    (
        "(forall 0 s32 (s32 0) (s32 3) (exists 1 s32 (s32 0) (s32 3) (eq s32 (add s32 (var 0) (var 1)) (s32 2))))",
        Some(1),
    ),
    (
        "(forall 0 s32 (s32 0) (s32 4) (exists 1 s32 (s32 0) (s32 3) (eq s32 (add s32 (var 0) (var 1)) (s32 2))))",
        Some(0),
    ),
    (
        "(exists 0 s32 (s32 1) (s32 3) (forall 1 s32 (s32 5) (s32 8) (eq s32 (mul s32 (var 0) (var 1)) (var 1))))",
        Some(1),
    ),
    (
        "(exists 0 s32 (s32 1) (s32 3) (forall 1 s32 (s32 5) (s32 8) (eq s32 (mul s32 (var 0) (var 1)) (var 0))))",
        Some(0),
    ),
    (
        "(forall 0 s32 (s32 0) (s32 4) (forall 1 s32 (s32 0) (var 0) (lt s32 (var 1) (var 0))))",
        Some(1),
    ),
    (
        "(exists 0 s32 (exists 0 s32 (s32 0) (s32 2) (var 0)) (s32 3) (eq s32 (var 0) (s32 0)))",
        Some(0),
    ),
    (
        "(and2 (forall 0 s32 (s32 0) (s32 2) (s32 1)) (exists 0 s32 (s32 5) (s32 6) (eq s32 (var 0) (s32 5))))",
        Some(1),
    ),
    ("(forall 0 u8 (s32 0) (s32 256) (s32 0))", Some(1)),
    (
        "(exists 0 s8 (s32 255) (s32 1) (eq s32 (var 0) (s32 -1)))",
        Some(1),
    ),
    (
        "(forall 0 bool (s32 0) (s32 7) (eq s32 (var 0) (s32 0)))",
        Some(1),
    ),
    ("(exists 0 u8 (s32 0) (s32 1) (s32 256))", Some(1)),
    ("(forall 0 u8 (s32 0) (s32 1) (s32 256))", Some(1)),
    ("(exists 0 s64 (s32 0) (s32 16777216) (s32 1))", Some(1)),
    ("(exists 0 s64 (s32 0) (s32 16777217) (s32 1))", None),
    (
        "(forall 0 s64 (s32 -8388608) (s32 8388608) (s32 0))",
        Some(0),
    ),
    ("(forall 0 s64 (s32 -8388608) (s32 8388609) (s32 0))", None),
    (
        "(exists 0 s64 (s64 -9223372036854775808) (s64 9223372036854775807) (s32 1))",
        None,
    ),
    ("(exists 0 ptr (s32 0) (s32 -1) (s32 1))", None),
    ("(forall 0 s32 (reg 4) (s32 3) (s32 1))", None),
    ("(forall 0 s32 (s32 0) (reg 4) (s32 1))", None),
    ("(forall 0 s32 (s32 0) (s32 1) (reg 4))", None),
];

// The report of a return of the value, or of an end without one.
fn report(alloc: Global, value: &Option<i128>) -> Result<Vec<u8>, AllocError> {
    let Some(value) = value else {
        return Vec::from_slice(
            alloc,
            b"end undefined .start\nused 2\nevents 2 4 1 0 1 0 0 0\nfailed 0\n",
        );
    };
    let text = format!(in alloc;
        "end returned {value}\nused 2\nevents 2 4 2 0 1 0 0 0\nfailed 0\n"
    )?;
    Vec::from_slice(alloc, text.as_bytes())
}

// Each expression has its value.
fn assert_values(
    rt: &impl Abort,
    alloc: Global,
    rows: &[(&'static str, Option<i128>)],
) -> Result<(), AllocError> {
    for (expression, value) in rows {
        let text = text_of(alloc, &[HEAD, SETUP, "return ", *expression, "\nend\n"])?;
        let outcome = run_both(alloc, LONG, text.as_slice(), b"[1,1]", &NO_FAULT)?;
        let wanted = report(alloc, value)?;
        assert_eq!(rt; outcome.out.as_slice(), wanted.as_slice(), "{}", expression);
    }
    Ok(())
}

#[test]
fn leaves(rt: HostRuntime) -> Result<(), Fail> {
    assert_values(&rt, rt.alloc(), &LEAVES)?;
    Ok(())
}

#[test]
fn operators(rt: HostRuntime) -> Result<(), Fail> {
    assert_values(&rt, rt.alloc(), &OPERATORS)?;
    Ok(())
}

#[test]
fn pointers(rt: HostRuntime) -> Result<(), Fail> {
    assert_values(&rt, rt.alloc(), &POINTERS)?;
    Ok(())
}

#[test]
fn objects(rt: HostRuntime) -> Result<(), Fail> {
    assert_values(&rt, rt.alloc(), &OBJECTS)?;
    Ok(())
}

#[test]
fn quantifiers(rt: HostRuntime) -> Result<(), Fail> {
    assert_values(&rt, rt.alloc(), &QUANTIFIERS)?;
    Ok(())
}
