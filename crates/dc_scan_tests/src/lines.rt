// A text with one line doubled, dropped, exchanged with its neighbour, or with a number, a name or a kind that is off by one.
use crate::answers::{Answer, answer_to};
use crate::examples::SET;
use std::alloc::{AllocError, Global};
use std::test::Fail;

// Adds a line to a text.
fn add(text: &mut Vec<u8>, line: &[u8]) -> Result<(), AllocError> {
    text.extend_from_slice(line)?;
    text.extend_from_slice(b"\n")
}

// The text with the line of this number, counted from 0 on, twice.
fn doubled(alloc: Global, number: usize) -> Result<Vec<u8>, AllocError> {
    let mut text = Vec::new(alloc);
    for (at, line) in SET.lines().enumerate() {
        add(&mut text, line.as_bytes())?;
        if at == number {
            add(&mut text, line.as_bytes())?;
        }
    }
    Ok(text)
}

// The text with other lines in place of the one of this number.
fn replaced(alloc: Global, number: usize, others: &[&str]) -> Result<Vec<u8>, AllocError> {
    let mut text = Vec::new(alloc);
    for (at, line) in SET.lines().enumerate() {
        if at == number {
            for other in others {
                add(&mut text, other.as_bytes())?;
            }
        } else {
            add(&mut text, line.as_bytes())?;
        }
    }
    Ok(text)
}

// The text with the line of this number behind the next one.
fn exchanged(alloc: Global, number: usize) -> Result<Vec<u8>, AllocError> {
    let mut text = Vec::new(alloc);
    let mut moved: &[u8] = &[];
    for (at, line) in SET.lines().enumerate() {
        if at == number {
            moved = line.as_bytes();
        } else {
            add(&mut text, line.as_bytes())?;
            if Some(at) == number.checked_add(1) {
                add(&mut text, moved)?;
            }
        }
    }
    Ok(text)
}

// What is answered where a line of the text is doubled, where it is dropped, and where it and the next are exchanged.
const LINES: [(Answer, Answer, Answer); 25] = [
    (Answer::Shape(2), Answer::Shape(1), Answer::Shape(1)),
    (Answer::Shape(3), Answer::Shape(3), Answer::Shape(3)),
    (Answer::Shape(4), Answer::Shape(7), Answer::Shape(4)),
    (Answer::Shape(5), Answer::Shape(4), Answer::Shape(4)),
    (Answer::Scanned, Answer::Scanned, Answer::Scanned),
    (Answer::Scanned, Answer::Scanned, Answer::Scanned),
    (Answer::Scanned, Answer::Scanned, Answer::Scanned),
    (Answer::Scanned, Answer::Scanned, Answer::Scanned),
    (Answer::Scanned, Answer::Scanned, Answer::Shape(10)),
    (Answer::Scanned, Answer::Shape(9), Answer::Shape(9)),
    (Answer::Shape(12), Answer::Shape(11), Answer::Shape(11)),
    (Answer::Shape(13), Answer::Shape(12), Answer::Shape(12)),
    (Answer::Scanned, Answer::Scanned, Answer::Scanned),
    (Answer::Scanned, Answer::Scanned, Answer::Scanned),
    (Answer::Scanned, Answer::Scanned, Answer::Scanned),
    (Answer::Scanned, Answer::Scanned, Answer::Scanned),
    (Answer::Scanned, Answer::Scanned, Answer::Scanned),
    (Answer::Scanned, Answer::Scanned, Answer::Scanned),
    (Answer::Scanned, Answer::Scanned, Answer::Scanned),
    (Answer::Scanned, Answer::Scanned, Answer::Scanned),
    (Answer::Scanned, Answer::Scanned, Answer::Scanned),
    (Answer::Scanned, Answer::Scanned, Answer::Scanned),
    (Answer::Scanned, Answer::Scanned, Answer::Shape(24)),
    (Answer::Scanned, Answer::Shape(23), Answer::Shape(23)),
    (Answer::Shape(26), Answer::Shape(25), Answer::Scanned),
];

#[test]
fn doubled_lines(rt: HostRuntime) -> Result<(), Fail> {
    for (at, (wanted, _, _)) in LINES.iter().enumerate() {
        let text = doubled(rt.alloc(), at)?;
        assert_eq!(rt; answer_to(rt.alloc(), text.as_slice())?, *wanted, "{at}");
    }
    Ok(())
}

#[test]
fn dropped_lines(rt: HostRuntime) -> Result<(), Fail> {
    for (at, (_, wanted, _)) in LINES.iter().enumerate() {
        let text = replaced(rt.alloc(), at, &[])?;
        assert_eq!(rt; answer_to(rt.alloc(), text.as_slice())?, *wanted, "{at}");
    }
    Ok(())
}

#[test]
fn exchanged_lines(rt: HostRuntime) -> Result<(), Fail> {
    for (at, (_, _, wanted)) in LINES.iter().enumerate().take(24) {
        let text = exchanged(rt.alloc(), at)?;
        assert_eq!(rt; answer_to(rt.alloc(), text.as_slice())?, *wanted, "{at}");
    }
    Ok(())
}

// Lines in place of one, by its number from 1 on, and what is answered then.
const CHANGED: [(usize, &str, Answer); 44] = [
    (1, "dcc 0", Answer::Line(1)),
    (1, "dcc 2", Answer::Line(1)),
    (2, "function sets void s32", Answer::Shape(4)),
    (2, "function g void s32", Answer::Shape(3)),
    (2, "function set void", Answer::Shape(4)),
    (2, "function set void s32 s32", Answer::Shape(4)),
    (2, "function set s32 s32", Answer::Shape(10)),
    (2, "function set void s33", Answer::Line(2)),
    (3, "static set 4", Answer::Shape(3)),
    (3, "static g 0", Answer::Shape(3)),
    (3, "static g 1", Answer::Scanned),
    (4, "body g 1 3", Answer::Shape(4)),
    (4, "body set 0 3", Answer::Shape(4)),
    (4, "body set 2 3", Answer::Shape(4)),
    (4, "body set 1 0", Answer::Shape(4)),
    (4, "body set 1 1", Answer::Shape(5)),
    (4, "body set 1 2", Answer::Shape(7)),
    (4, "body set 1 4", Answer::Scanned),
    (5, "local 2 4 zero", Answer::Scanned),
    (5, "local 3 4 zero", Answer::Shape(5)),
    (5, "local 1 0 zero", Answer::Shape(5)),
    (6, "init s32 (reg 3) (reg 0)", Answer::Shape(6)),
    (6, "init s31 (reg 1) (reg 0)", Answer::Line(6)),
    (6, "init ptr (reg 1) (reg 0)", Answer::Scanned),
    (7, "set 3 (reg 0)", Answer::Shape(7)),
    (7, "set 2 (s32 -2147483648)", Answer::Scanned),
    (7, "set 2 (s32 -2147483649)", Answer::Shape(7)),
    (7, "set 2 (bool 2)", Answer::Shape(7)),
    (8, "covers set.assigns.1 (obj 1) (u64 4)", Answer::Scanned),
    (8, "covers set.assigns.1 (obj 3) (u64 4)", Answer::Shape(8)),
    (10, "return (reg 0)", Answer::Shape(10)),
    (10, "goto 5", Answer::Scanned),
    (10, "goto 6", Answer::Shape(10)),
    (12, "body set 1 1", Answer::Shape(12)),
    (12, "body .start 1 1", Answer::Shape(12)),
    (12, "body .start 0 0", Answer::Shape(15)),
    (14, "objects 2", Answer::Line(14)),
    (14, "objects 3", Answer::Scanned),
    (15, "draw 1 s32", Answer::Shape(15)),
    (20, "call 0 set (reg 0)", Answer::Shape(20)),
    (20, "call - set", Answer::Shape(20)),
    (20, "call - set (reg 0) (reg 0)", Answer::Shape(20)),
    (20, "call - sets (reg 0)", Answer::Shape(20)),
    (22, "check set.postcondition.2 (reg 1)", Answer::Shape(22)),
];

#[test]
fn changed_lines(rt: HostRuntime) -> Result<(), Fail> {
    for (number, line, wanted) in &CHANGED {
        let text = replaced(rt.alloc(), number.saturating_sub(1), &[*line])?;
        assert_eq!(rt; answer_to(rt.alloc(), text.as_slice())?, *wanted, "{line}");
    }
    Ok(())
}
