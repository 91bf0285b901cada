// Statements, taken, and refused beside it.
use crate::reading::{read, read_inside};
use std::test::Fail;

// Statements without a statement in them (C11 6.8.3, 6.8.6).
#[test]
fn plain_statements(rt: HostRuntime) -> Result<(), Fail> {
    let rows: [(&[u8], &[u8]); 14] = [
        (b";", b"[ (define f [ ] (block [ (empty) ])) ]"),
        (b"a;", b"[ (define f [ ] (block [ (do a) ])) ]"),
        (b"a", b"none"),
        (b"a b;", b"none"),
        (b"return;", b"[ (define f [ ] (block [ (return) ])) ]"),
        (b"return a;", b"[ (define f [ ] (block [ (return a) ])) ]"),
        (b"return", b"none"),
        (b"return a", b"none"),
        (
            b"break; continue;",
            b"[ (define f [ ] (block [ (break) (continue) ])) ]",
        ),
        (b"break", b"none"),
        (b"continue a;", b"none"),
        (b"goto a;", b"none"),
        (b"a: ;", b"none"),
        (b"else ;", b"none"),
    ];
    for (source, wanted) in rows {
        let answer = read_inside(rt.alloc(), source)?;
        assert_eq!(rt; answer.as_slice(), wanted);
    }
    Ok(())
}

// `if` and `switch` (C11 6.8.4), and labels (C11 6.8.1).
#[test]
fn selections(rt: HostRuntime) -> Result<(), Fail> {
    let rows: [(&[u8], &[u8]); 15] = [
        (
            b"if (a) b;",
            b"[ (define f [ ] (block [ (if a (do b)) ])) ]",
        ),
        (
            b"if (a) b; else c;",
            b"[ (define f [ ] (block [ (if a (do b) else (do c)) ])) ]",
        ),
        (
            b"if (a) if (b) c; else d;",
            b"[ (define f [ ] (block [ (if a (if b (do c) else (do d))) ])) ]",
        ),
        (
            b"if (a) while (b) if (c) d; else g;",
            b"[ (define f [ ] (block [ (if a (while b [ ] (if c (do d) else (do g)))) ])) ]",
        ),
        (
            b"if (a) { if (b) c; } else d;",
            b"[ (define f [ ] (block [ (if a (block [ (if b (do c)) ]) else (do d)) ])) ]",
        ),
        (b"if (a) b; else c; else d;", b"none"),
        (b"if a b;", b"none"),
        (b"if () b;", b"none"),
        (b"if (a) int x;", b"none"),
        (b"if (a)", b"none"),
        (
            b"switch (a) { case 1: b; default: ; }",
            b"[ (define f [ ] (block [ (switch a (block [ (case 1 (do b)) (default (empty)) ])) ])) ]",
        ),
        (
            b"switch (a) case 1: case 2: b;",
            b"[ (define f [ ] (block [ (switch a (case 1 (case 2 (do b)))) ])) ]",
        ),
        (b"case 1 b;", b"none"),
        (b"case : b;", b"none"),
        (b"default b;", b"none"),
    ];
    for (source, wanted) in rows {
        let answer = read_inside(rt.alloc(), source)?;
        assert_eq!(rt; answer.as_slice(), wanted);
    }
    Ok(())
}

// Loops with their clauses (C11 6.8.5).
#[test]
fn loops(rt: HostRuntime) -> Result<(), Fail> {
    let rows: [(&[u8], &[u8]); 18] = [
        (
            b"while (a) b;",
            b"[ (define f [ ] (block [ (while a [ ] (do b)) ])) ]",
        ),
        (
            b"while (a) __CPROVER_loop_invariant(b) __CPROVER_decreases(c, d) ;",
            b"[ (define f [ ] (block [ (while a [ (invariant b) (decreases c d) ] (empty)) ])) ]",
        ),
        (b"while (a) __CPROVER_requires(b) ;", b"none"),
        (b"while (a)", b"none"),
        (
            b"do a; while (b);",
            b"[ (define f [ ] (block [ (repeat (do a) while b [ ]) ])) ]",
        ),
        (
            b"do a; while (b) __CPROVER_assigns(x);",
            b"[ (define f [ ] (block [ (repeat (do a) while b [ (assigns [ (group x) ]) ]) ])) ]",
        ),
        (b"do a; while (b)", b"none"),
        (b"do a while (b);", b"none"),
        (b"do a;", b"none"),
        (
            b"for (;;) a;",
            b"[ (define f [ ] (block [ (for (-)(-)(-) [ ] (do a)) ])) ]",
        ),
        (
            b"for (a; b; c) ;",
            b"[ (define f [ ] (block [ (for (a)(b)(c) [ ] (empty)) ])) ]",
        ),
        (
            b"for (int i = 0, j; i; j) __CPROVER_decreases(i) ;",
            b"[ (define f [ ] (block [ (for (first (i = (single 0)) [ (j) ])(i)(j) [ (decreases i) ] (empty)) ])) ]",
        ),
        (b"for (int; ;) ;", b"none"),
        (b"for (;) ;", b"none"),
        (b"for (;;;) ;", b"none"),
        (b"for (;;)", b"none"),
        (
            b"typedef int T; for (int T; T; T) T; T x;",
            b"[ (define f [ ] (block [ (declared [ (T) ]) (for (first (T) [ ])(T)(T) [ ] (do T)) (declared [ (x) ]) ])) ]",
        ),
        (b"for (typedef int T; ;) T;", b"none"),
    ];
    for (source, wanted) in rows {
        let answer = read_inside(rt.alloc(), source)?;
        assert_eq!(rt; answer.as_slice(), wanted);
    }
    Ok(())
}

// Blocks (C11 6.8.2), which keep what they declare to themselves.
#[test]
fn blocks(rt: HostRuntime) -> Result<(), Fail> {
    let rows: [(&[u8], &[u8]); 8] = [
        (b"{ }", b"[ (define f [ ] (block [ (block [ ]) ])) ]"),
        (
            b"int x; x;",
            b"[ (define f [ ] (block [ (declared [ (x) ]) (do x) ])) ]",
        ),
        (
            b"typedef int T; T x;",
            b"[ (define f [ ] (block [ (declared [ (T) ]) (declared [ (x) ]) ])) ]",
        ),
        (
            b"{ typedef int T; T x; } T;",
            b"[ (define f [ ] (block [ (block [ (declared [ (T) ]) (declared [ (x) ]) ]) (do T) ])) ]",
        ),
        (b"{ typedef int T; } T x;", b"none"),
        (
            b"typedef int T; { int T; T; } T x;",
            b"[ (define f [ ] (block [ (declared [ (T) ]) (block [ (declared [ (T) ]) (do T) ]) (declared [ (x) ]) ])) ]",
        ),
        (
            b"typedef int T; T * x;",
            b"[ (define f [ ] (block [ (declared [ (T) ]) (declared [ (x) ]) ])) ]",
        ),
        (b"T * x;", b"[ (define f [ ] (block [ (do e) ])) ]"),
    ];
    for (source, wanted) in rows {
        let answer = read_inside(rt.alloc(), source)?;
        assert_eq!(rt; answer.as_slice(), wanted);
    }
    Ok(())
}

// A text that is cut behind each byte is answered, and each cut within the last function is refused.
#[test]
fn a_unit_is_cut_behind_each_byte(rt: HostRuntime) -> Result<(), Fail> {
    let source: &[u8] =
        b"int f(int a) __CPROVER_requires(a) { for (int i = 0; i < a; i++) __CPROVER_loop_invariant(i) { if (a) return a; else do ; while (1); } }";
    for end in 1..source.len() {
        let answer = read(rt.alloc(), &source[..end])?;
        assert!(rt; refused(answer.as_slice()));
    }
    Ok(())
}

// Was no unit read, or had the text no tokens?
fn refused(answer: &[u8]) -> bool {
    !answer.starts_with(b"[")
}
