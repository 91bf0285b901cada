// The text of a goto program, written to a sink.
ghost use Rattle.std.specs.Prelude.{◌≡◌, ◌≤◌, flat_map, IfOk, IsErrOf, OnErr, OnOk};
ghost use Rattle.dc_goto.specs.View.{goto_view};
ghost use Rattle.dc_outside.specs.Counts.{Rose};
ghost use Rattle.dc_outside.specs.Sink.{Adds, AddsPrefix};
ghost use Rattle.dc_print.specs.Printed.{AddsText, AddsTextPrefix};
ghost use Rattle.dc_print.specs.declared.fault.Print.TheVariants.{Fault};

use crate::fault::Print;
use crate::lines::text_lines;
use dc_goto::GotoProgram;
use dc_outside::laws::{adds_nothing, adds_twice, prefix_behind};
use dc_outside::{Sink, SinkFault, write_all};
use sqlite_items::Items;
use std::alloc::Global;

/// Writes the lines, each as one piece. After a fault the sink has been given a prefix of them.
pub fn write_lines<S: Sink>(sink: &mut S, lines: &[Items<u8>]) -> Result<(), SinkFault>
    ensures ok { OnOk result (Adds (S.written sink.old) (S.written sink.new) (flat_map (λ line. line) lines.now)) }
    ensures kept { OnOk result (S.faults sink.new ≡ S.faults sink.old) }

    // A fault comes only from the sink.
    ensures prefix { OnErr result (AddsPrefix (S.written sink.old) (S.written sink.new) (flat_map (λ line. line) lines.now)) }
    ensures fault { OnErr result (Rose (S.faults sink.old) (S.faults sink.new)) }
    ensures later { S.faults sink.old ≤ S.faults sink.new }
{
    adds_nothing();
    adds_twice();
    prefix_behind();
    for line in lines {
        if let Err(fault) = write_all(sink, line.as_slice()) {
            return Err(fault);
        }
    }
    Ok(())
}

/// Writes the program's text, each line as one piece. After an error the sink has been given a prefix of the text.
pub fn print<S: Sink>(alloc: Global, p: &GotoProgram, sink: &mut S) -> Result<(), Print>
    ensures ok { OnOk result (AddsText (S.written sink.old) (S.written sink.new) (goto_view p.now)) }
    ensures prefix { OnErr result (AddsTextPrefix (S.written sink.old) (S.written sink.new) (goto_view p.now)) }

    // A fault comes only where the sink's count rose, and nothing else lets it rise.
    ensures fault { IsErrOf result Fault → Rose (S.faults sink.old) (S.faults sink.new) }
    ensures kept { (IsErrOf result Fault → ⊥) → S.faults sink.new ≡ S.faults sink.old }
    ensures later { S.faults sink.old ≤ S.faults sink.new }
{
    adds_nothing();
    let lines = text_lines(alloc, p)?;
    match write_lines(sink, lines.as_slice()) {
        Ok(()) => Ok(()),
        Err(_) => Err(Print::Fault),
    }
}
