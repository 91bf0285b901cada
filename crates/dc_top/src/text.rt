// From a goto text to its program.
ghost use Rattle.std.specs.Prelude.{◌≡◌, ◌≤◌, ◌<◌, ℕ, List, IfErr, IfOk, MatchResult, length};
ghost use Rattle.dc_goto.specs.Shape.{IsGotoText};
ghost use Rattle.dc_goto.specs.View.{goto_view};
ghost use Rattle.dc_top.specs.Answers.{Says, StageTells};
ghost use Rattle.dc_top.specs.Stages.{SaysOfText, ShortText};
ghost use Rattle.dc_top.specs.Table.{OfSource, Replay, Text, file_at, inputs_of, text_limit};

use crate::answer::Answer;
use crate::lines::numbered_line;
use dc_goto::GotoProgram;
use dc_outside::{ReadAll, Shelf, read_all};
use dc_scan::{Scan, scan};
use std::alloc::Global;

// The most bytes that a goto text may have.
const TEXT_LIMIT: u64 = 134_217_728;

// The program that the bytes are the text of, or the answer where they are none.
fn program_of(alloc: Global, bytes: &[u8]) -> Result<GotoProgram, Answer>
    requires short { length bytes.now ≤ text_limit }
    ensures { MatchResult result (λ p. IsGotoText bytes.now (goto_view p)) (SaysOfText bytes.now) }
{
    match scan(alloc, bytes) {
        Ok(p) => Ok(p),
        Err(Scan::Line(k)) => match numbered_line(alloc, b"dcc: text line ", k) {
            Ok(line) => Err(Answer::BadText(line)),
            Err(_) => Err(Answer::Memory),
        },
        Err(Scan::Shape(k)) => match numbered_line(alloc, b"dcc: text shape ", k) {
            Ok(line) => Err(Answer::BadText(line)),
            Err(_) => Err(Answer::Memory),
        },
        Err(Scan::Memory(_)) => Err(Answer::Memory),
    }
}

/// The program of the text that the word 1 names, or the answer where there is none. It is judged in this order: the
/// read, the lines, the shape.
pub fn read_text<H: Shelf>(alloc: Global, shelf: &mut H) -> Result<GotoProgram, Answer>
    requires { 1 < length (H.names shelf.old) }

    ensures names { H.names shelf.new ≡ H.names shelf.old }
    ensures files { H.files shelf.new ≡ H.files shelf.old }
    ensures text { IfOk result (λ p. OfSource (file_at (H.files shelf.old) (H.names shelf.old) 1) (λ bytes. ShortText bytes (goto_view p))) }
    ensures says { IfErr result (λ answer. (file choices : List ℕ) (steps : ℕ) → Says (Replay Text file choices steps) (inputs_of (H.files shelf.old) (H.names shelf.old)) answer) }
    ensures faults { StageTells result (H.faults shelf.old) (H.faults shelf.new) }
{
    match read_all(alloc, shelf, 1, TEXT_LIMIT) {
        Ok(bytes) => program_of(alloc, &bytes),
        Err(ReadAll::Fault) => Err(Answer::ReadFault(1)),
        Err(ReadAll::TooLong) => Err(Answer::TooLong),
        Err(ReadAll::Memory(_)) => Err(Answer::Memory),
    }
}
