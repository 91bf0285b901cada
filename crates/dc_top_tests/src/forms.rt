// The texts of sources with clauses, parameters and results, and each part of the form beside what is refused.
use crate::harness::{ENFORCE_SET, INSTRUMENT, NO_FAULT, SET, run};
use dc_scan_tests::examples::{RESULT as RESULT_TEXT, SET as SET_TEXT};
use std::test::Fail;

const RESULT: &str = "int f(int x)
__CPROVER_ensures(__CPROVER_return_value == x + 1)
{ x = x + 1; return x; }
";

const OPERATORS: &str = "int a; int b;
int f(void)
__CPROVER_ensures(__CPROVER_return_value == 0)
__CPROVER_assigns(b, a)
__CPROVER_requires(a != b)
__CPROVER_assigns(a)
__CPROVER_requires(a - b <= 2147483647)
{ a = b - 1; return 0; }
";

const OPERATORS_TEXT: &str = "dcc 1
function f s32
static a 4
static b 4
body f 0 2
set 0 (sub s32 (load s32 (obj 3)) (s32 1))
covers f.assigns.1 (obj 2) (u64 4)
store s32 (obj 2) (reg 0)
set 1 (s32 0)
return (reg 1)
trap
end
body .start 0 1
statics
objects 4
seen
require (ne s32 (load s32 (obj 2)) (load s32 (obj 3)))
require (le s32 (sub s32 (load s32 (obj 2)) (load s32 (obj 3))) (s32 2147483647))
push
range 1 (s32 1) (obj 3) (u64 4)
range 2 (s32 1) (obj 2) (u64 4)
range 3 (s32 1) (obj 2) (u64 4)
call 0 f
seen
check f.postcondition.1 (eq s32 (reg 0) (s32 0))
pop
return (reg 0)
end
";

// The exact text of a source.
struct Text {
    words: &'static [&'static str],
    source: &'static str,
    text: &'static str,
}

const TEXTS: [Text; 3] = [
    Text {
        words: ENFORCE_SET,
        source: SET,
        text: SET_TEXT,
    },
    Text {
        words: INSTRUMENT,
        source: RESULT,
        text: RESULT_TEXT,
    },
    Text {
        words: INSTRUMENT,
        source: OPERATORS,
        text: OPERATORS_TEXT,
    },
];

#[test]
fn texts(rt: HostRuntime) -> Result<(), Fail> {
    for case in &TEXTS {
        let outcome = run(rt.alloc(), case.words, case.source.as_bytes(), &NO_FAULT)?;
        assert_eq!(rt; outcome.status, 0, "{}", case.source);
        assert_eq!(rt;
            outcome.out.as_slice(),
            case.text.as_bytes(),
            "{}",
            case.source
        );
        assert_eq!(rt; outcome.err.as_slice(), b"".as_slice(), "{}", case.source);
    }
    Ok(())
}

// Sources that are read.
const READ: [&str; 16] = [
    "int f(void) { return 0; }",
    "void f(int x) { }",
    "void f(int x, int y) { x = y; }",
    "int g; void f(void) { g = 0; }",
    "int g; void f(void) { g = 2147483647; }",
    "int g; void f(void) { g = g-1; g=g+g; }",
    "int g; void f(void)\n__CPROVER_assigns(g){g=1;}",
    "int g; int h; void f(void) __CPROVER_assigns(h, g, h) __CPROVER_assigns(g) { }",
    "void f(void) __CPROVER_requires(1 == 1) { }",
    "void f(void) __CPROVER_requires(1!=1)__CPROVER_requires(0<1)__CPROVER_requires(0<=1){}",
    "void f(int x) __CPROVER_ensures(x + 1 < 1 - x) { }",
    "int f(void) __CPROVER_ensures(__CPROVER_return_value <= 7) { return 7; }",
    "int f(int x) __CPROVER_ensures(x==x) __CPROVER_requires(x==x) { x = 1 + x; return x - 1; }",
    "int __CPROVERx; int _; void f(void) { _ = __CPROVERx; }",
    "int ints; int returns; void f(void) { ints = returns; }",
    "void f ( int int_ , int _1 ) { int_ = _1 ; }",
];

// Sources that aren't of the form.
const REFUSED: [&str; 42] = [
    "int f(void) { }",
    "void f(void) { return 0; }",
    "int f(void) { return; }",
    "int f(void) { return 0; return 0; }",
    "int f(int x) { return x; x = 1; }",
    "void f() { }",
    "void f(int x, int x) { }",
    "void f(int f) { }",
    "int x; void f(int x) { }",
    "void f(int x,) { }",
    "void f(int) { }",
    "void f(void, int x) { }",
    "int g; void f(void) { g = 08; }",
    "int g; void f(void) { g = 2147483648; }",
    "int g; void f(void) { g = 99999999999999999999; }",
    "int g; void f(void) { g = 1x; }",
    "int g; void f(void) { g = 0x1; }",
    "int g; void f(void) { g = 1u; }",
    "int g; void f(void) { g = h; }",
    "int g; void f(void) { g = g + g + g; }",
    "int g; void f(void) { g = -1; }",
    "int g; void f(void) { g = g--1; }",
    "int g; void f(void) { g = (g); }",
    "int g; void f(void) { g == 1; }",
    "int g; void f(void) { g = 1 }",
    "int g; void f(void) { 1 = g; }",
    "int g; void f(void) { g = f; }",
    "int g; void f(void) { f = g; }",
    "int g; void f(void) { g = __CPROVER_return_value; }",
    "void f(void) __CPROVER_requires(1) { }",
    "void f(void) __CPROVER_requires(1 > 0) { }",
    "void f(void) __CPROVER_requires(0 < = 1) { }",
    "void f(void) __CPROVER_requires(0 == 0 == 1) { }",
    "int f(void) __CPROVER_requires(__CPROVER_return_value == 0) { return 0; }",
    "void f(void) __CPROVER_ensures(__CPROVER_return_value == 0) { }",
    "void f(void) __CPROVER_assigns() { }",
    "int g; void f(void) __CPROVER_assigns(g,) { }",
    "int g; void f(void) __CPROVER_assigns(g g) { }",
    "void f(int x) __CPROVER_assigns(x) { }",
    "int g; void f(void) { } __CPROVER_assigns(g)",
    "int g; void f(void) __CPROVER_frees(g) { }",
    "int g = 1; void f(void) { }",
];

#[test]
fn forms(rt: HostRuntime) -> Result<(), Fail> {
    for source in READ {
        let outcome = run(rt.alloc(), INSTRUMENT, source.as_bytes(), &NO_FAULT)?;
        assert_eq!(rt; outcome.status, 0, "{source}");
    }
    for source in REFUSED {
        let outcome = run(rt.alloc(), INSTRUMENT, source.as_bytes(), &NO_FAULT)?;
        assert_eq!(rt; outcome.status, 3, "{source}");
        assert_eq!(rt;
            outcome.err.as_slice(),
            b"dcc: refused form\n".as_slice(),
            "{source}"
        );
        assert_eq!(rt; outcome.out.as_slice(), b"".as_slice(), "{source}");
    }
    Ok(())
}
