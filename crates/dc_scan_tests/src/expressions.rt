// Expressions, each as what a register is set to: printed again as they stood, or refused.
use crate::answers::Answer;
use crate::frames::{answer_to_line, is_printed_again, setting};
use std::test::Fail;

// Expressions.
const FORMED: [&str; 21] = [
    "(at 1 (reg 0) (s64 -1))",
    "(at 16777216 (obj 2) (reg 1))",
    "(diff 1 (reg 0) (reg 1))",
    "(diff 16777216 (obj 2) (ptr 0))",
    "(start (reg 0))",
    "(size (reg 1))",
    "(offset (obj 2))",
    "(freeable (ptr 0))",
    "(freed (reg 0))",
    "(ok (reg 0) (u64 4))",
    "(fresh (reg 0) (reg 1))",
    "(new (obj 2) (u64 0))",
    "(inrange (reg 0) (reg 1) (obj 2))",
    "(load u8 (at 1 (start (reg 0)) (sub u64 (size (reg 0)) (u64 1))))",
    "(forall 0 s32 (s32 0) (reg 1) (lt s32 (var 0) (reg 0)))",
    "(exists 0 u64 (u64 0) (u64 18446744073709551615) (s32 1))",
    "(exists 0 ptr (ptr 0) (ptr 1) (ok (var 0) (u64 1)))",
    "(forall 0 bool (reg 0) (reg 1) (exists 1 s64 (var 0) (u8 9) (eq s64 (var 0) (var 1))))",
    "(forall 0 s8 (s8 0) (s8 9) (exists 1 u8 (u8 0) (var 0) (forall 2 s16 (var 0) (var 1) (var 2))))",
    "(exists 0 s32 (exists 0 s32 (s32 0) (s32 1) (var 0)) (forall 0 s32 (s32 0) (s32 1) (var 0)) (var 0))",
    "(and2 (forall 0 s32 (s32 0) (s32 1) (var 0)) (exists 0 s32 (s32 0) (s32 1) (var 0)))",
];

// Expressions that break a rule.
const MISSHAPEN: [&str; 46] = [
    "(at 0 (reg 0) (s32 1))",
    "(at 16777217 (reg 0) (s32 1))",
    "(at 18446744073709551615 (reg 0) (s32 1))",
    "(at 4 (reg 2) (s32 1))",
    "(at 4 (obj 3) (s32 1))",
    "(at 4 (reg 0) (reg 2))",
    "(at 4 (reg 0) (s32 2147483648))",
    "(diff 0 (reg 0) (reg 1))",
    "(diff 16777217 (reg 0) (reg 1))",
    "(diff 4 (reg 2) (reg 1))",
    "(diff 4 (reg 0) (reg 2))",
    "(start (reg 2))",
    "(size (reg 2))",
    "(offset (obj 3))",
    "(freeable (reg 2))",
    "(freed (ptr -1))",
    "(ok (reg 2) (u64 4))",
    "(ok (reg 0) (reg 2))",
    "(fresh (reg 2) (u64 4))",
    "(fresh (reg 0) (u64 -1))",
    "(new (obj 3) (u64 4))",
    "(new (reg 0) (reg 2))",
    "(inrange (reg 2) (reg 1) (obj 2))",
    "(inrange (reg 0) (reg 2) (obj 2))",
    "(inrange (reg 0) (reg 1) (obj 3))",
    "(var 0)",
    "(var 18446744073709551615)",
    "(load s32 (var 0))",
    "(forall 1 s32 (s32 0) (s32 9) (s32 1))",
    "(exists 1 s32 (s32 0) (s32 9) (var 0))",
    "(forall 18446744073709551615 s32 (s32 0) (s32 9) (s32 1))",
    "(forall 0 s32 (reg 2) (s32 9) (var 0))",
    "(forall 0 s32 (s32 0) (reg 2) (var 0))",
    "(exists 0 s32 (s32 0) (s32 9) (reg 2))",
    "(exists 0 u8 (u8 256) (u8 9) (var 0))",
    "(forall 0 s32 (var 0) (s32 9) (var 0))",
    "(forall 0 s32 (s32 0) (var 0) (var 0))",
    "(exists 0 s32 (s32 0) (s32 9) (var 1))",
    "(and2 (forall 0 s32 (s32 0) (s32 9) (var 0)) (var 0))",
    "(forall 0 s32 (s32 0) (s32 9) (exists 0 s32 (s32 0) (s32 9) (var 0)))",
    "(forall 0 s32 (s32 0) (s32 9) (exists 2 s32 (s32 0) (s32 9) (var 0)))",
    "(forall 0 s32 (s32 0) (s32 9) (exists 1 s32 (s32 0) (s32 9) (var 2)))",
    "(forall 0 s32 (s32 0) (s32 9) (exists 1 s32 (s32 0) (var 1) (var 0)))",
    "(forall 0 s32 (exists 1 s32 (s32 0) (s32 1) (var 0)) (s32 9) (var 0))",
    "(exists 0 s32 (s32 0) (forall 1 s32 (s32 0) (s32 1) (var 0)) (var 0))",
    "(and2 (forall 0 s32 (s32 0) (s32 9) (var 0)) (exists 1 s32 (s32 0) (s32 9) (var 0)))",
];

// What is no expression.
const FORMLESS: [&str; 67] = [
    "(at (reg 0) (s32 1))",
    "(at 4 (reg 0))",
    "(at 4 (reg 0) (s32 1) (s32 1))",
    "(at s32 (reg 0) (s32 1))",
    "(at -4 (reg 0) (s32 1))",
    "(at 04 (reg 0) (s32 1))",
    "(at  4 (reg 0) (s32 1))",
    "(at (u64 4) (reg 0) (s32 1))",
    "(at 18446744073709551616 (reg 0) (s32 1))",
    "(diff (reg 0) (reg 1))",
    "(diff 4 (reg 0))",
    "(diff 4 (reg 0) (reg 1) (reg 1))",
    "(diff ptr (reg 0) (reg 1))",
    "(diff 18446744073709551616 (reg 0) (reg 1))",
    "(start)",
    "(start 0)",
    "(start ptr (reg 0))",
    "(start (reg 0) (reg 0))",
    "(size)",
    "(size s32)",
    "(size (reg 0) (u64 1))",
    "(offset)",
    "(offset (reg 0) (reg 0))",
    "(freeable)",
    "(freeable (reg 0) (u64 1))",
    "(freed)",
    "(freed (reg 0) (u64 1))",
    "(free (reg 0))",
    "(end (reg 0))",
    "(ok (reg 0))",
    "(ok (reg 0) 4)",
    "(ok u8 (reg 0) (u64 4))",
    "(ok (reg 0) (u64 4) (u64 4))",
    "(okay (reg 0) (u64 4))",
    "(fresh (reg 0))",
    "(fresh (reg 0) (u64 4) (u64 4))",
    "(new (reg 0))",
    "(new u64 (reg 0) (u64 4))",
    "(inrange (reg 0) (reg 1))",
    "(inrange (reg 0) (reg 1) (obj 2) (obj 2))",
    "(inrange ptr (reg 0) (reg 1) (obj 2))",
    "(var)",
    "(var x)",
    "(var -1)",
    "(var 00)",
    "(var 0 0)",
    "(var s32 0)",
    "(var (reg 0))",
    "(var 18446744073709551616)",
    "(forall s32 (s32 0) (s32 9) (var 0))",
    "(forall 0 (s32 0) (s32 9) (var 0))",
    "(forall 0 s32 (s32 0) (s32 9))",
    "(forall 0 s32 (s32 0) (s32 9) (var 0) (var 0))",
    "(forall s32 0 (s32 0) (s32 9) (var 0))",
    "(forall -1 s32 (s32 0) (s32 9) (var 0))",
    "(forall 00 s32 (s32 0) (s32 9) (var 0))",
    "(forall 0 s33 (s32 0) (s32 9) (var 0))",
    "(forall 0 void (s32 0) (s32 9) (var 0))",
    "(exists (var 0) s32 (s32 0) (s32 9) (var 0))",
    "(exists 0 s32 0 9 (var 0))",
    "(exists 0 s32 s32 (s32 0) (s32 9) (var 0))",
    "(exists 0  s32 (s32 0) (s32 9) (var 0))",
    "(exists 0 s32 (s32 0) (s32 9)(var 0))",
    "(exists 18446744073709551616 s32 (s32 0) (s32 9) (var 0))",
    "(exist 0 s32 (s32 0) (s32 9) (var 0))",
    "(Exists 0 s32 (s32 0) (s32 9) (var 0))",
    "(sig void)",
];

#[test]
fn formed(rt: HostRuntime) -> Result<(), Fail> {
    for value in FORMED {
        let line = setting(rt.alloc(), value)?;
        assert!(rt; is_printed_again(rt.alloc(), &line)?, "{value}");
    }
    Ok(())
}

#[test]
fn cut(rt: HostRuntime) -> Result<(), Fail> {
    for value in FORMED {
        let line = setting(rt.alloc(), value)?;
        for n in 0..line.len() {
            assert_eq!(rt;
                answer_to_line(rt.alloc(), &line[..n])?,
                Answer::Line(5),
                "{n} {value}"
            );
        }
    }
    Ok(())
}

#[test]
fn misshapen(rt: HostRuntime) -> Result<(), Fail> {
    for value in MISSHAPEN {
        let line = setting(rt.alloc(), value)?;
        assert_eq!(rt;
            answer_to_line(rt.alloc(), &line)?,
            Answer::Shape(5),
            "{value}"
        );
    }
    Ok(())
}

#[test]
fn formless(rt: HostRuntime) -> Result<(), Fail> {
    for value in FORMLESS {
        let line = setting(rt.alloc(), value)?;
        assert_eq!(rt;
            answer_to_line(rt.alloc(), &line)?,
            Answer::Line(5),
            "{value}"
        );
    }
    Ok(())
}
