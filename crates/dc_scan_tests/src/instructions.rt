// Lines of instructions, each in a program of its own: printed again as they stood, or refused.
use crate::answers::Answer;
use crate::frames::{answer_to_last_line, answer_to_line, is_printed_again};
use std::test::Fail;

// Instructions of which no front is an instruction.
const FORMED: [&str; 29] = [
    "copy (reg 0) (obj 2) (u64 4)",
    "copy (ptr 0) (ptr 18446744073709551615) (u64 0)",
    "fill (obj 1) (u8 255) (reg 1)",
    "fill (reg 0) (s32 -2147483648) (u64 1)",
    "probe any (reg 0) (reg 1) (u64 4)",
    "probe apart (obj 0) (obj 2) (reg 0)",
    "local 0 1 zero",
    "local 1 16777216 zero",
    "local 0 1 chosen",
    "local 1 16777216 chosen",
    "alloc 0 (u64 1) (u64 8) zero",
    "alloc 1 (reg 0) (reg 1) chosen",
    "alloc 0 (u64 0) (u64 18446744073709551615) chosen",
    "free (reg 0)",
    "free (obj 2)",
    "free (ptr 0)",
    "target 0 (s32 1) (reg 0)",
    "target 18446744073709551615 (reg 1) (obj 2)",
    "mayfree f.frees.1 (reg 0)",
    "mayfree . (ptr 0)",
    "inside f.assigns.1 0",
    "inside 1 2",
    "havoc",
    "frees",
    "objects 3",
    "objects 4",
    "callp - (reg 0) (sig void)",
    "callp 1 (obj 2) (sig s32)",
    "callp - (reg 1) (sig ptr)",
];

// Instructions of which a front is one too.
const OPEN: [&str; 3] = [
    "inside ._. 18446744073709551615",
    "callp - (ptr 0) (sig void u64) (reg 1)",
    "callp 0 (obj 0) (sig bool ptr s8 u8) (reg 0) (s8 -128) (u8 255)",
];

// Instructions that break a rule.
const MISSHAPEN: [&str; 45] = [
    "copy (reg 2) (obj 2) (u64 4)",
    "copy (reg 0) (obj 3) (u64 4)",
    "copy (reg 0) (obj 2) (reg 2)",
    "copy (reg 0) (obj 2) (u64 -1)",
    "fill (obj 3) (u8 255) (reg 1)",
    "fill (obj 1) (u8 256) (reg 1)",
    "fill (obj 1) (u8 255) (reg 2)",
    "probe any (reg 2) (reg 1) (u64 4)",
    "probe any (reg 0) (reg 2) (u64 4)",
    "probe apart (obj 0) (obj 2) (obj 3)",
    "local 2 4 zero",
    "local 0 0 zero",
    "local 0 16777217 zero",
    "local 2 4 chosen",
    "local 0 0 chosen",
    "local 0 16777217 chosen",
    "local 18446744073709551615 4 chosen",
    "local 0 18446744073709551615 chosen",
    "alloc 2 (u64 1) (u64 8) zero",
    "alloc 0 (reg 2) (u64 8) zero",
    "alloc 0 (u64 1) (reg 2) chosen",
    "alloc 0 (u64 1) (u64 18446744073709551616) zero",
    "free (reg 2)",
    "free (obj 3)",
    "free (ptr -1)",
    "free (var 0)",
    "target 0 (reg 2) (reg 0)",
    "target 0 (s32 1) (reg 2)",
    "target 0 (s32 2147483648) (reg 0)",
    "mayfree a (reg 2)",
    "mayfree a (obj 3)",
    "callp 0 (reg 1) (sig void)",
    "callp 0 (reg 1) (sig void s32) (s32 1)",
    "callp 2 (reg 1) (sig s32)",
    "callp 18446744073709551615 (reg 1) (sig s32)",
    "callp 0 (reg 2) (sig s32)",
    "callp - (obj 3) (sig void)",
    "callp - (var 0) (sig void)",
    "callp 0 (reg 1) (sig s32 s32)",
    "callp 0 (reg 1) (sig s32) (s32 1)",
    "callp - (reg 1) (sig void s32 u8) (s32 1)",
    "callp - (reg 1) (sig void s32 u8) (s32 1) (u8 1) (u8 1)",
    "callp - (reg 1) (sig void s32) (reg 2)",
    "callp - (reg 1) (sig void s32) (s32 2147483648)",
    "callp - (reg 1) (sig void s32 s32) (s32 1) (var 0)",
];

// Lines that are no instruction.
const FORMLESS: [&str; 111] = [
    "copy",
    "copy (reg 0) (obj 2)",
    "copy (reg 0) (obj 2) (u64 4) (u64 4)",
    "copy u8 (reg 0) (obj 2) (u64 4)",
    "copy 0 (obj 2) (u64 4)",
    "copy  (reg 0) (obj 2) (u64 4)",
    "copy(reg 0) (obj 2) (u64 4)",
    "fill (obj 1) (u8 255)",
    "fill (obj 1) (u8 255) (reg 1) (reg 1)",
    "fill u8 (obj 1) (u8 255) (reg 1)",
    "fill (obj 1) 255 (reg 1)",
    "probe (reg 0) (reg 1) (u64 4)",
    "probe none (reg 0) (reg 1) (u64 4)",
    "probe zero (reg 0) (reg 1) (u64 4)",
    "probe Any (reg 0) (reg 1) (u64 4)",
    "probe any (reg 0) (reg 1)",
    "probe any apart (reg 0) (reg 1) (u64 4)",
    "probe any (reg 0) (reg 1) (u64 4) (u64 4)",
    "probe apart  (reg 0) (reg 1) (u64 4)",
    "local 0 zero",
    "local 0 4 one",
    "local 0 4 any",
    "local 0 4 zeros",
    "local 0 4 zero chosen",
    "local - 4 zero",
    "local 00 4 zero",
    "local 0 -4 zero",
    "local 0 04 chosen",
    "local 0 18446744073709551616 zero",
    "local 0 (u64 4) zero",
    "local chosen 0 4",
    "alloc (u64 1) (u64 8) zero",
    "alloc 0 (u64 8) zero",
    "alloc 0 (u64 1) (u64 8)",
    "alloc 0 (u64 1) (u64 8) any",
    "alloc 0 (u64 1) (u64 8) zero zero",
    "alloc 0 (u64 1) (u64 8) (u64 8) zero",
    "alloc 0 zero (u64 1) (u64 8)",
    "alloc 0 1 8 zero",
    "alloc - (u64 1) (u64 8) zero",
    "alloc 18446744073709551616 (u64 1) (u64 8) zero",
    "free",
    "free 0",
    "free reg 0",
    "free - (reg 0)",
    "free (reg 0) (reg 0)",
    "frees (reg 0)",
    "Frees",
    "havoc 1",
    "havocs",
    "target 0 (s32 1)",
    "target (s32 1) (reg 0)",
    "target 0 (s32 1) (reg 0) (u64 8)",
    "target a (s32 1) (reg 0)",
    "target -1 (s32 1) (reg 0)",
    "target 00 (s32 1) (reg 0)",
    "target 18446744073709551616 (s32 1) (reg 0)",
    "mayfree a",
    "mayfree (reg 0)",
    "mayfree  (reg 0)",
    "mayfree a-b (reg 0)",
    "mayfree a b (reg 0)",
    "mayfree a (reg 0) (u64 8)",
    "mayfree a 0",
    "inside a",
    "inside 1",
    "inside  1",
    "inside a b",
    "inside a 01",
    "inside a -1",
    "inside a 1 2",
    "inside a-b 1",
    "inside a (u64 1)",
    "inside a 18446744073709551616",
    "objects",
    "objects 0",
    "objects 2",
    "objects 5",
    "objects 03",
    "objects 34",
    "objects -3",
    "objects 3 4",
    "objects  3",
    "objects (u64 3)",
    "object 3",
    "callp",
    "callp 0",
    "callp 0 (reg 1)",
    "callp 0 (sig s32)",
    "callp (reg 1) (sig s32)",
    "callp 0 (sig s32) (reg 1)",
    "callp 0 f (sig s32)",
    "callp -1 (reg 1) (sig s32)",
    "callp 00 (reg 1) (sig s32)",
    "callp 0 (reg 1) sig s32",
    "callp 0 (reg 1) (sig)",
    "callp 0 (reg 1) (sig )",
    "callp 0 (reg 1) (sig s32 )",
    "callp 0 (reg 1) (sig  s32)",
    "callp 0 (reg 1) ( sig s32)",
    "callp 0 (reg 1) (sgi s32)",
    "callp 0 (reg 1) (signature s32)",
    "callp 0 (reg 1) (sig s33)",
    "callp 0 (reg 1) (sig s32 void)",
    "callp 0 (reg 1) (sig s32 s32",
    "callp 0 (reg 1) (sig s32))",
    "callp 0 (reg 1) (sig s32) ",
    "callp 0 (reg 1) (sig s32 s32)(s32 1)",
    "callp 0 (reg 1) (sig s32 s32) 1",
    "callp 0 (reg 1) (s32 1) (sig s32 s32)",
    "call 0 (reg 1) (sig s32)",
];

#[test]
fn formed(rt: HostRuntime) -> Result<(), Fail> {
    for line in FORMED {
        assert!(rt; is_printed_again(rt.alloc(), line.as_bytes())?, "{line}");
        assert_eq!(rt;
            answer_to_last_line(rt.alloc(), line.as_bytes())?,
            Answer::Shape(5),
            "{line}"
        );
    }
    for line in OPEN {
        assert!(rt; is_printed_again(rt.alloc(), line.as_bytes())?, "{line}");
        assert_eq!(rt;
            answer_to_last_line(rt.alloc(), line.as_bytes())?,
            Answer::Shape(5),
            "{line}"
        );
    }
    Ok(())
}

#[test]
fn cut(rt: HostRuntime) -> Result<(), Fail> {
    for line in FORMED {
        let line = line.as_bytes();
        for n in 0..line.len() {
            assert_eq!(rt;
                answer_to_line(rt.alloc(), &line[..n])?,
                Answer::Line(5),
                "{n}"
            );
        }
    }
    Ok(())
}

#[test]
fn misshapen(rt: HostRuntime) -> Result<(), Fail> {
    for line in MISSHAPEN {
        assert_eq!(rt;
            answer_to_line(rt.alloc(), line.as_bytes())?,
            Answer::Shape(5),
            "{line}"
        );
    }
    Ok(())
}

#[test]
fn formless(rt: HostRuntime) -> Result<(), Fail> {
    for line in FORMLESS {
        assert_eq!(rt;
            answer_to_line(rt.alloc(), line.as_bytes())?,
            Answer::Line(5),
            "{line}"
        );
    }
    Ok(())
}
