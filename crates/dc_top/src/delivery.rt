// Answers that are written to the two sinks.
ghost use Rattle.std.specs.Prelude.{◌≡◌, Bool, false, []};
ghost use Rattle.dc_top.specs.Answers.{is_output, output_of};
ghost use Rattle.dc_top.specs.Delivery.{Complains, Delivers, Says, sunk};

use crate::answer::Answer;
use dc_outside::laws::adds_nothing;
use dc_outside::{Sink, write_all};
use dc_print::{Lines, write_lines};

/// Writes a line that goes with a status, and gives the status, or 7 where the sink failed.
pub fn complain<E: Sink>(line: &[u8], status: u8, err: &mut E) -> u8
    ensures { Complains status line.now result (sunk (E.written err.old) (E.written err.new) (E.faults err.old) (E.faults err.new)) }
{
    match write_all(err, line) {
        Ok(()) => status,
        Err(_) => 7,
    }
}

/// Writes a text as one piece and gives 0, or 7 and a line to the second sink where the first failed.
pub fn say<O: Sink, E: Sink>(text: &[u8], out: &mut O, err: &mut E) -> u8
    ensures { Says text.now result (sunk (O.written out.old) (O.written out.new) (O.faults out.old) (O.faults out.new))
        (sunk (E.written err.old) (E.written err.new) (E.faults err.old) (E.faults err.new)) }
{
    adds_nothing();
    match write_all(out, text) {
        Ok(()) => 0,
        Err(_) => complain(b"dcc: write fault\n", 7, err),
    }
}

// Writes the lines of an output, and a line of its own where that fails.
fn give_output<O: Sink, E: Sink>(answer: &Answer, lines: &Lines, out: &mut O, err: &mut E) -> u8
    requires { (failed : Bool) × (answer.now ≡ Answer.Output lines.now failed) }
    ensures { Delivers answer.now result (sunk (O.written out.old) (O.written out.new) (O.faults out.old) (O.faults out.new))
        (sunk (E.written err.old) (E.written err.new) (E.faults err.old) (E.faults err.new)) }
{
    adds_nothing();
    match write_lines(out, lines.as_slice()) {
        Ok(()) => answer.status(),
        Err(_) => complain(b"dcc: write fault\n", 7, err),
    }
}

// Writes the line of an answer that is no output.
fn give_line<O: Sink, E: Sink>(answer: &Answer, out: &mut O, err: &mut E) -> u8
    requires silent { output_of answer.now ≡ [] }
    requires no_output { is_output answer.now ≡ false }
    ensures { Delivers answer.now result (sunk (O.written out.old) (O.written out.new) (O.faults out.old) (O.faults out.new))
        (sunk (E.written err.old) (E.written err.new) (E.faults err.old) (E.faults err.new)) }
{
    adds_nothing();
    complain(answer.line(), answer.status(), err)
}

/// Writes the answer, an output to the first sink and a line to the second, and gives the status.
pub fn deliver<O: Sink, E: Sink>(answer: &Answer, out: &mut O, err: &mut E) -> u8
    ensures { Delivers answer.now result (sunk (O.written out.old) (O.written out.new) (O.faults out.old) (O.faults out.new))
        (sunk (E.written err.old) (E.written err.new) (E.faults err.old) (E.faults err.new)) }
{
    match answer {
        Answer::Output(lines, _) => give_output(answer, lines, out, err),
        _ => give_line(answer, out, err),
    }
}
