// Replays of code of the start.
use crate::harness::{NO_FAULT, run_both};
use std::alloc::{AllocError, Global};
use std::process::Abort;

/// More steps than any of these runs takes.
pub const LONG: &[&str] = &["replay", "a.c", "choices.json", "10000"];

/// What stands before the code: functions that add 1, that make and kill a local, that have no body, and that call themselves
/// through a pointer so often; a variable; and 8 registers.
pub const HEAD: &str = "dcc 1
function f s32 s32
function v void
function m void
function r void s32
static g 8
body f 1 1
return (add s32 (reg 0) (s32 1))
end
body v 0 1
local 0 4 zero
kill 0
kill 9
return
end
body r 1 1
ifnot (reg 0) 2
callp - (obj 4) (sig void s32) (sub s32 (reg 0) (s32 1))
return
end
body .start 0 8
";

/// Code that is run on choices, and the status and the report of the run.
pub struct Row {
    pub name: &'static str,
    pub code: &'static str,
    pub choices: &'static str,
    pub status: u8,
    pub report: &'static str,
}

/// Pieces of a text, one behind the other.
pub fn text_of(alloc: Global, pieces: &[&'static str]) -> Result<Vec<u8>, AllocError> {
    let mut text = Vec::new(alloc);
    for piece in pieces {
        text.extend_from_slice(piece.as_bytes())?;
    }
    Ok(text)
}

/// Each row's run has its status and report.
pub fn assert_rows(rt: &impl Abort, alloc: Global, rows: &[Row]) -> Result<(), AllocError> {
    for row in rows {
        let text = text_of(alloc, &[HEAD, row.code, "end\n"])?;
        let choices = row.choices.as_bytes();
        let outcome = run_both(alloc, LONG, text.as_slice(), choices, &NO_FAULT)?;
        assert_eq!(rt;
            outcome.out.as_slice(),
            row.report.as_bytes(),
            "{}",
            row.name
        );
        assert_eq!(rt; outcome.status, row.status, "{}", row.name);
    }
    Ok(())
}
