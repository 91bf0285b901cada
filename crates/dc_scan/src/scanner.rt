// A whole text.
ghost use Rattle.std.specs.Prelude.{◌≡◌, ℕ, IfOk, IsErrOf, MatchResult};
ghost use Rattle.dc_goto.specs.Lines.{FirstFormless};
ghost use Rattle.dc_goto.specs.Program as plain;
ghost use Rattle.dc_goto.specs.Shape.{IsGotoText, Misshapen};
ghost use Rattle.dc_goto.specs.View.{goto_view};
ghost use Rattle.dc_scan.specs.Scanned.{IsMemory};
ghost use Rattle.dc_scan.specs.declared.fault.Scan.TheVariants.{Line as LineFault, Shape as ShapeFault};

use crate::assembly::assemble;
use crate::fault::Scan;
use crate::lines::read_lines;
use crate::shape::first_misshapen;
use dc_goto::GotoProgram;
use dc_goto::laws::{one_spelling, text_has_no_fault};
use std::alloc::Global;

// The program of a text.
fn scan_text(alloc: Global, bytes: &[u8]) -> Result<GotoProgram, Scan>
    ensures text { IfOk result (λ p. IsGotoText bytes.now (goto_view p)) }
    ensures line { (k : ℕ) → IsErrOf result (LineFault k) → FirstFormless bytes.now k }
    ensures shape { (k : ℕ) → IsErrOf result (ShapeFault k) → Misshapen bytes.now k }
{
    let lines = match read_lines(alloc, bytes) {
        Ok(lines) => lines,
        Err(fault) => return Err(fault),
    };
    match first_misshapen(alloc, lines.as_slice())? {
        Some(number) => Err(Scan::Shape(number)),
        None => {
            let program = assemble(alloc, lines)?;
            Ok(program)
        }
    }
}

/// The program whose text this is.
///
/// Each program has one text, and no other is taken. A text that isn't one of a program is refused by its first line
/// that is no line form, or else by its first line that breaks a rule of programs, or is missing.
pub fn scan(alloc: Global, bytes: &[u8]) -> Result<GotoProgram, Scan>
    // Ok exactly where the bytes are the text of a program that keeps the rules, which is then the program.
    ensures text { IfOk result (λ p. IsGotoText bytes.now (goto_view p)) }
    ensures every { (p : plain.GotoProgram) → IsGotoText bytes.now p → MatchResult result (λ q. goto_view q ≡ p) IsMemory }

    // A line is refused for its form only where it is the first without one.
    ensures line { (k : ℕ) → IsErrOf result (LineFault k) → FirstFormless bytes.now k }

    // All lines have forms, and this is the first line that breaks a rule, or is missing.
    ensures shape { (k : ℕ) → IsErrOf result (ShapeFault k) → Misshapen bytes.now k }
{
    one_spelling();
    text_has_no_fault();
    scan_text(alloc, bytes)
}
