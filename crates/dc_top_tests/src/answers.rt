// Each answer, by the words, the source and the calls of the outside that fail.
use crate::harness::{EMPTY_FUNCTION, Faults, INSTRUMENT, NO_FAULT, Wanted, assert_gives, run};
use dc_scan_tests::examples::EMPTY_FUNCTION as EMPTY_FUNCTION_TEXT;
use std::test::Fail;

const OTHER_FUNCTION: &str = "int a; void g ( void ){}";

const POINTER_PARAMETER: &str = "void inc(int *p)
__CPROVER_requires(__CPROVER_is_fresh(p, sizeof(int)))
__CPROVER_requires(*p < 100)
__CPROVER_assigns(*p)
__CPROVER_ensures(*p == __CPROVER_old(*p) + 1)
{ *p = *p + 1; }
";

const TWO_VARIABLES_TEXT: &str = "dcc 1
function f void
static a 4
static b1 4
body f 0 0
return
end
body .start 0 0
statics
objects 4
push
call - f
pop
return
end
";

const FORM: Wanted = Wanted {
    status: 3,
    out: "",
    err: "dcc: refused form\n",
};

const USAGE: Wanted = Wanted {
    status: 2,
    out: "",
    err: "dcc: usage\n",
};

// Sources that aren't of the form.
const NO_FORM: [&str; 14] = [
    POINTER_PARAMETER,
    "",
    "int f(void) {}",
    "int f; void f(void) {}",
    "int a; int a; void f(void) {}",
    "int if; void f(void) {}",
    "int size_t; void f(void) {}",
    "void malloc(void) {}",
    "int __CPROVER_x; void f(void) {}",
    "int 1a; void f(void) {}",
    "intb; void f(void) {}",
    "void f(void) {} int a;",
    "void f(void) { ; }",
    "/* a */ void f(void) {}",
];

// Words that aren't in the table.
const NO_ROW: [&[&str]; 8] = [
    &[],
    &["instrument", "a.c", "--enforce", "f", "--enforce", "f"],
    &["instrument", "a.c", "--enforce"],
    &["instrument", "a.c", "--enforce", "f/c"],
    &["instrument", "a.c", "--enforce", ""],
    &["instrument", "a.c", "--enforce", "1f"],
    &["instrument", "a.c", "--replace", "f"],
    &["replay", "a.c", "--enforce", "f"],
];

// One run, and what is wanted.
struct Case {
    words: &'static [&'static str],
    source: &'static str,
    faults: Faults,
    wanted: Wanted,
}

const CASES: [Case; 14] = [
    Case {
        words: INSTRUMENT,
        source: EMPTY_FUNCTION,
        faults: Faults {
            shelf: 0,
            out: 0,
            err: 0,
        },
        wanted: Wanted {
            status: 0,
            out: EMPTY_FUNCTION_TEXT,
            err: "",
        },
    },
    Case {
        words: INSTRUMENT,
        source: " void\tf\n(\r\nvoid)\n{\n}\n",
        faults: Faults {
            shelf: 0,
            out: 0,
            err: 0,
        },
        wanted: Wanted {
            status: 0,
            out: EMPTY_FUNCTION_TEXT,
            err: "",
        },
    },
    Case {
        words: INSTRUMENT,
        source: "int a; int b1; void f(void) {}",
        faults: Faults {
            shelf: 0,
            out: 0,
            err: 0,
        },
        wanted: Wanted {
            status: 0,
            out: TWO_VARIABLES_TEXT,
            err: "",
        },
    },
    Case {
        words: INSTRUMENT,
        source: OTHER_FUNCTION,
        faults: Faults {
            shelf: 0,
            out: 0,
            err: 0,
        },
        wanted: Wanted {
            status: 3,
            out: "",
            err: "dcc: refused option 1 at f\n",
        },
    },
    Case {
        words: INSTRUMENT,
        source: "int f; void g(void) {}",
        faults: Faults {
            shelf: 0,
            out: 0,
            err: 0,
        },
        wanted: Wanted {
            status: 3,
            out: "",
            err: "dcc: refused option 1 at f\n",
        },
    },
    Case {
        words: &["instrument", "b.c", "--enforce", "f"],
        source: EMPTY_FUNCTION,
        faults: Faults {
            shelf: 0,
            out: 0,
            err: 0,
        },
        wanted: Wanted {
            status: 6,
            out: "",
            err: "dcc: read fault\n",
        },
    },
    Case {
        words: INSTRUMENT,
        source: EMPTY_FUNCTION,
        faults: Faults {
            shelf: 1,
            out: 0,
            err: 0,
        },
        wanted: Wanted {
            status: 6,
            out: "",
            err: "dcc: read fault\n",
        },
    },
    Case {
        words: INSTRUMENT,
        source: EMPTY_FUNCTION,
        faults: Faults {
            shelf: 2,
            out: 0,
            err: 0,
        },
        wanted: Wanted {
            status: 6,
            out: "",
            err: "dcc: read fault\n",
        },
    },
    Case {
        words: INSTRUMENT,
        source: EMPTY_FUNCTION,
        faults: Faults {
            shelf: 0,
            out: 0,
            err: 1,
        },
        wanted: Wanted {
            status: 0,
            out: EMPTY_FUNCTION_TEXT,
            err: "",
        },
    },
    Case {
        words: INSTRUMENT,
        source: "",
        faults: Faults {
            shelf: 0,
            out: 0,
            err: 1,
        },
        wanted: Wanted {
            status: 7,
            out: "",
            err: "",
        },
    },
    Case {
        words: INSTRUMENT,
        source: OTHER_FUNCTION,
        faults: Faults {
            shelf: 0,
            out: 0,
            err: 1,
        },
        wanted: Wanted {
            status: 7,
            out: "",
            err: "",
        },
    },
    Case {
        words: INSTRUMENT,
        source: EMPTY_FUNCTION,
        faults: Faults {
            shelf: 1,
            out: 0,
            err: 1,
        },
        wanted: Wanted {
            status: 7,
            out: "",
            err: "",
        },
    },
    Case {
        words: &[],
        source: "",
        faults: Faults {
            shelf: 0,
            out: 0,
            err: 1,
        },
        wanted: Wanted {
            status: 7,
            out: "",
            err: "",
        },
    },
    Case {
        words: INSTRUMENT,
        source: EMPTY_FUNCTION,
        faults: Faults {
            shelf: 0,
            out: 3,
            err: 1,
        },
        wanted: Wanted {
            status: 7,
            out: "dcc 1\nfunction f void\n",
            err: "",
        },
    },
];

#[test]
fn answers(rt: HostRuntime) -> Result<(), Fail> {
    for case in &CASES {
        let outcome = run(rt.alloc(), case.words, case.source.as_bytes(), &case.faults)?;
        assert_gives(&rt, &outcome, &case.wanted, case.source);
    }
    for source in NO_FORM {
        let outcome = run(rt.alloc(), INSTRUMENT, source.as_bytes(), &NO_FAULT)?;
        assert_gives(&rt, &outcome, &FORM, source);
    }
    for words in NO_ROW {
        let outcome = run(rt.alloc(), words, EMPTY_FUNCTION.as_bytes(), &NO_FAULT)?;
        assert_gives(&rt, &outcome, &USAGE, "words");
    }
    Ok(())
}

// The lines of the text that a sink takes whose k-th write fails.
#[test]
fn a_write_fails(rt: HostRuntime) -> Result<(), Fail> {
    let lines = 13;
    for k in 1..=lines {
        let faults = Faults {
            shelf: 0,
            out: k,
            err: 0,
        };
        let outcome = run(rt.alloc(), INSTRUMENT, EMPTY_FUNCTION.as_bytes(), &faults)?;
        assert_eq!(rt; outcome.status, 7, "write {k}");
        assert_eq!(rt;
            outcome.err.as_slice(),
            b"dcc: write fault\n".as_slice(),
            "write {k}"
        );
        let whole = outcome.out.iter().filter(|b| **b == b'\n').count() as u64;
        assert_eq!(rt; whole, k - 1, "write {k}");
        assert!(rt;
            EMPTY_FUNCTION_TEXT.as_bytes().starts_with(&outcome.out),
            "write {k}"
        );
    }
    Ok(())
}
