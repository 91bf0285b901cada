// Declarations, definitions and clauses, taken, and refused beside it.
use crate::reading::read;
use std::test::Fail;

// Declarations (C11 6.7).
#[test]
fn declarations(rt: HostRuntime) -> Result<(), Fail> {
    let rows: [(&[u8], &[u8]); 24] = [
        (b"", b"[ ]"),
        (b"int x;", b"[ (declared [ (x) ]) ]"),
        (b"int x", b"none"),
        (b"int x;;", b"none"),
        (b"int;", b"none"),
        (b";", b"none"),
        (b"x;", b"none"),
        (b"x y;", b"none"),
        (b"int x y;", b"none"),
        (b"struct s;", b"[ (declared [ ]) ]"),
        (b"struct s { int a; };", b"[ (declared [ ]) ]"),
        (b"enum e { A, B };", b"[ (declared [ ]) ]"),
        (b"enum e { A, B } x;", b"[ (declared [ (x) ]) ]"),
        (b"int x, *y, z[2];", b"[ (declared [ (x) (y) (z) ]) ]"),
        (b"int x,;", b"none"),
        (b"int , x;", b"none"),
        (b"int *;", b"none"),
        (
            b"size_t n; bool b;",
            b"[ (declared [ (n) ]) (declared [ (b) ]) ]",
        ),
        (
            b"typedef int T; T y;",
            b"[ (declared [ (T) ]) (declared [ (y) ]) ]",
        ),
        (b"T y;", b"none"),
        (b"typedef int T; int T; T y;", b"none"),
        (
            b"typedef int T, *U; U y;",
            b"[ (declared [ (T) (U) ]) (declared [ (y) ]) ]",
        ),
        (b"typedef int A; enum e { A }; A y;", b"none"),
        (b"int f(void);", b"[ (declared [ (f) ]) ]"),
    ];
    for (source, wanted) in rows {
        let answer = read(rt.alloc(), source)?;
        assert_eq!(rt; answer.as_slice(), wanted);
    }
    Ok(())
}

// Initializers (C11 6.7.9).
#[test]
fn initializers(rt: HostRuntime) -> Result<(), Fail> {
    let rows: [(&[u8], &[u8]); 12] = [
        (b"int x = 1;", b"[ (declared [ (x = (single 1)) ]) ]"),
        (b"int x = ;", b"none"),
        (
            b"int x = 1, y = x;",
            b"[ (declared [ (x = (single 1)) (y = (single x)) ]) ]",
        ),
        (b"int x = (1, 2);", b"none"),
        (
            b"int a[] = { 1 };",
            b"[ (declared [ (a = (braces (single 1) [ ])) ]) ]",
        ),
        (
            b"int a[] = { 1, 2, };",
            b"[ (declared [ (a = (braces (single 1) [ (single 2) ])) ]) ]",
        ),
        (
            b"int a[] = { { 1 }, 2 };",
            b"[ (declared [ (a = (braces (braces (single 1) [ ]) [ (single 2) ])) ]) ]",
        ),
        (b"int a[] = { };", b"none"),
        (b"int a[] = { , };", b"none"),
        (b"int a[] = { 1,, };", b"none"),
        (b"int a[] = { 1", b"none"),
        (
            b"typedef int T; int x = sizeof(T), T = T;",
            b"[ (declared [ (T) ]) (declared [ (x = (single e)) (T = (single T)) ]) ]",
        ),
    ];
    for (source, wanted) in rows {
        let answer = read(rt.alloc(), source)?;
        assert_eq!(rt; answer.as_slice(), wanted);
    }
    Ok(())
}

// Definitions, and declarations with clauses (C11 6.9.1).
#[test]
fn functions(rt: HostRuntime) -> Result<(), Fail> {
    let rows: [(&[u8], &[u8]); 16] = [
        (b"void f(void) { }", b"[ (define f [ ] (block [ ])) ]"),
        (
            b"void f(void) { } void g(void);",
            b"[ (define f [ ] (block [ ])) (declared [ (g) ]) ]",
        ),
        (b"void f(void) { };", b"none"),
        (b"void f(void) {", b"none"),
        (b"f(void) { }", b"none"),
        (
            b"int *f(int x) { return x; }",
            b"[ (define f [ ] (block [ (return x) ])) ]",
        ),
        (
            b"typedef int T; void f(int T) { T; } T x;",
            b"[ (declared [ (T) ]) (define f [ ] (block [ (do T) ])) (declared [ (x) ]) ]",
        ),
        (b"typedef int T; void f(int x) { T; }", b"none"),
        (b"typedef int f; void f(void) { } f x;", b"none"),
        (
            b"void f(int x) __CPROVER_requires(x);",
            b"[ (promise f (requires x) [ ]) ]",
        ),
        (
            b"void f(int x) __CPROVER_requires(x) { }",
            b"[ (define f [ (requires x) ] (block [ ])) ]",
        ),
        (b"void f(int x) __CPROVER_requires(x)", b"none"),
        (
            b"void f(int x) __CPROVER_requires(y) __CPROVER_ensures(x) __CPROVER_frees() ;",
            b"[ (promise f (requires y) [ (ensures x) (frees [ ]) ]) ]",
        ),
        (
            b"typedef int T; void f(int T) __CPROVER_requires(T) { }",
            b"[ (declared [ (T) ]) (define f [ (requires T) ] (block [ ])) ]",
        ),
        (b"void f(int x) __CPROVER_loop_invariant(x) { }", b"none"),
        (b"int x __CPROVER_requires(x), y;", b"none"),
    ];
    for (source, wanted) in rows {
        let answer = read(rt.alloc(), source)?;
        assert_eq!(rt; answer.as_slice(), wanted);
    }
    Ok(())
}

// Clauses of functions.
#[test]
fn clauses(rt: HostRuntime) -> Result<(), Fail> {
    let rows: [(&[u8], &[u8]); 16] = [
        (
            b"void f(void) __CPROVER_assigns();",
            b"[ (promise f (assigns [ ]) [ ]) ]",
        ),
        (
            b"void f(void) __CPROVER_assigns(a);",
            b"[ (promise f (assigns [ (group a) ]) [ ]) ]",
        ),
        (
            b"void f(void) __CPROVER_assigns(a, b);",
            b"[ (promise f (assigns [ (group a b) ]) [ ]) ]",
        ),
        (
            b"void f(void) __CPROVER_assigns(a; b, c);",
            b"[ (promise f (assigns [ (group a) (group b c) ]) [ ]) ]",
        ),
        (
            b"void f(void) __CPROVER_assigns(c : a);",
            b"[ (promise f (assigns [ (where c a) ]) [ ]) ]",
        ),
        (
            b"void f(void) __CPROVER_assigns(c : a, b; d);",
            b"[ (promise f (assigns [ (where c a b) (group d) ]) [ ]) ]",
        ),
        (
            b"void f(void) __CPROVER_assigns(a ? b : c : d);",
            b"[ (promise f (assigns [ (where e d) ]) [ ]) ]",
        ),
        (b"void f(void) __CPROVER_assigns(a;);", b"none"),
        (b"void f(void) __CPROVER_assigns(;a);", b"none"),
        (b"void f(void) __CPROVER_assigns(a,);", b"none"),
        (b"void f(void) __CPROVER_assigns(c :);", b"none"),
        (b"void f(void) __CPROVER_assigns(a;", b"none"),
        (b"void f(void) __CPROVER_assigns;", b"none"),
        (b"void f(void) __CPROVER_requires();", b"none"),
        (b"void f(void) __CPROVER_requires(a = b);", b"none"),
        (b"void f(void) __CPROVER_requires(a, b);", b"none"),
    ];
    for (source, wanted) in rows {
        let answer = read(rt.alloc(), source)?;
        assert_eq!(rt; answer.as_slice(), wanted);
    }
    Ok(())
}
