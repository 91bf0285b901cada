// From a source to the text of its instrumented program.
ghost use Rattle.std.specs.Prelude.{◌≡◌, ◌<◌, ℕ, List, IfOk, length, map};
ghost use Rattle.dc_core.specs.View.{program_view};
ghost use Rattle.dc_core.specs.Whole.{Says as SaysFirst};
ghost use Rattle.dc_program.specs.ProgramView.{program_view as whole_view};
ghost use Rattle.dc_goto.specs.Text.{line_bytes, lines_of};
ghost use Rattle.dc_instrument.specs.Lowering.{goto_of};
ghost use Rattle.dc_top.specs.Answers.{Says, TellsFaults};
ghost use Rattle.dc_top.specs.Table.{Instrument, inputs_of};

use crate::answer::Answer;
use crate::source::read_source;
use dc_core::Name;
use dc_instrument::laws::{lowered_can_be_written, lowered_is_exact};
use dc_instrument::lowered;
use dc_outside::Shelf;
use dc_print::{Lines, text_lines};
use dc_program::Program;
use std::alloc::{AllocError, Global};

// The text of a program.
fn text(alloc: Global, p: &Program) -> Result<Lines, AllocError>
    requires { SaysFirst (program_view p.now) (whole_view p.now) }
    ensures { IfOk result (λ lines. lines ≡ map line_bytes (lines_of (goto_of (program_view p.now)))) }
{
    let lowered = lowered(alloc, p)?;
    text_lines(alloc, &lowered)
}

/// The answer to the source that the word 1 names, and the enforced function's name. It is judged in this order: the
/// read, the form, the name.
pub fn instrument<H: Shelf>(alloc: Global, shelf: &mut H, name: &Name) -> Answer
    requires { 1 < length (H.names shelf.old) }

    ensures names { H.names shelf.new ≡ H.names shelf.old }
    ensures files { H.files shelf.new ≡ H.files shelf.old }
    ensures says { (file : List ℕ) → Says (Instrument file name.now) (inputs_of (H.files shelf.old) (H.names shelf.old)) result }
    ensures faults { TellsFaults result (H.faults shelf.old) (H.faults shelf.new) }
{
    lowered_is_exact();
    lowered_can_be_written();
    match read_source(alloc, shelf, name) {
        Err(answer) => answer,
        Ok(p) => match text(alloc, &p) {
            Ok(lines) => Answer::Output(lines, false),
            Err(_) => Answer::Memory,
        },
    }
}
