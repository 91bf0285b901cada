// From a file and its choices to the report of a run.
ghost use Rattle.std.specs.Prelude.{◌≡◌, ◌≤◌, ◌<◌, ℕ, List, IfOk, length};
ghost use Rattle.dc_core.specs.Outcome.{Outcome};
ghost use Rattle.dc_core.specs.View.{program_view};
ghost use Rattle.dc_core.specs.Whole.{Says as SaysFirst};
ghost use Rattle.dc_program.specs.ProgramView.{program_view as whole_view};
ghost use Rattle.dc_goto.specs.Machine.{goto_run};
ghost use Rattle.dc_goto.specs.View.{goto_view};
ghost use Rattle.dc_top.specs.Answers.{Says, TellsFaults};
ghost use Rattle.dc_top.specs.Row.{asked_by};
ghost use Rattle.dc_top.specs.Stages.{IsReportOf, SaysOfRun, run_by};
ghost use Rattle.dc_top.specs.Table.{Replay, Text, inputs_of};

use crate::answer::Answer;
use crate::choices::read_list;
use crate::report::report;
use crate::source::read_source;
use crate::table::Mode;
use crate::text::read_text;
use dc_choice::{CountWatch, ListChooser};
use dc_core::Name;
use dc_goto::GotoProgram;
use dc_machine::run_goto;
use dc_outside::Shelf;
use dc_program::Program;
use dc_run::{run_contract, run_plain};
use dc_text::Choices;
use dc_world::RunReport;
use std::alloc::{AllocError, Global};

// The report of a goto program's run on a list.
fn text_report(
    alloc: Global,
    p: &GotoProgram,
    list: Choices,
    steps: u64,
) -> Result<RunReport, AllocError>
    ensures { IfOk result (IsReportOf (goto_run (goto_view p.now) steps list)) }
{
    let mut chooser = ListChooser::new(list);
    let mut watch = CountWatch::new();
    run_goto(alloc, p, &mut chooser, &mut watch, steps)
}

// The report of a source's run on a list.
fn source_report(
    alloc: Global,
    p: &Program,
    mode: Mode,
    list: Choices,
    steps: u64,
) -> Result<RunReport, AllocError>
    requires { SaysFirst (program_view p.now) (whole_view p.now) }
    ensures { IfOk result (IsReportOf (run_by mode (program_view p.now) steps list)) }
{
    let mut chooser = ListChooser::new(list);
    let mut watch = CountWatch::new();
    match mode {
        Mode::Contract => run_contract(alloc, p, &mut chooser, &mut watch, steps),
        Mode::Plain => run_plain(alloc, p, &mut chooser, &mut watch, steps),
    }
}

// The answer to a text's program and a list.
fn answer_text(alloc: Global, p: &GotoProgram, list: Choices, steps: u64) -> Answer
    ensures { SaysOfRun (goto_run (goto_view p.now) steps list) result }
{
    match text_report(alloc, p, list, steps) {
        Ok(run) => answer_run(alloc, &run),
        Err(_) => Answer::Memory,
    }
}

// The answer to a source's program and a list.
fn answer_source(alloc: Global, p: &Program, mode: Mode, list: Choices, steps: u64) -> Answer
    requires { SaysFirst (program_view p.now) (whole_view p.now) }
    ensures { SaysOfRun (run_by mode (program_view p.now) steps list) result }
{
    match source_report(alloc, p, mode, list, steps) {
        Ok(run) => answer_run(alloc, &run),
        Err(_) => Answer::Memory,
    }
}

// The answer of a run's report.
fn answer_run(alloc: Global, run: &RunReport) -> Answer
    ensures { (outcome : Outcome) → IsReportOf outcome run.now → SaysOfRun outcome result }
{
    match report(alloc, run) {
        Ok(lines) => Answer::Output(lines, run.failed.len() > 0),
        Err(_) => Answer::Memory,
    }
}

/// The answer to the text that the word 1 names and the choices that the word 2 names, for so many steps. It is judged
/// in this order: the text's read, its lines, its shape, the choices' read, their form.
pub fn replay_text<H: Shelf>(alloc: Global, shelf: &mut H, steps: u64) -> Answer
    requires { 2 < length (H.names shelf.old) }

    ensures names { H.names shelf.new ≡ H.names shelf.old }
    ensures files { H.files shelf.new ≡ H.files shelf.old }
    ensures says { (file choices : List ℕ) → Says (Replay Text file choices steps) (inputs_of (H.files shelf.old) (H.names shelf.old)) result }
    ensures faults { TellsFaults result (H.faults shelf.old) (H.faults shelf.new) }
{
    let p = match read_text(alloc, shelf) {
        Ok(p) => p,
        Err(answer) => return answer,
    };
    match read_list(alloc, shelf) {
        Ok(list) => answer_text(alloc, &p, list, steps),
        Err(answer) => answer,
    }
}

/// The answer to the source that the word 1 names, the function's name, and the choices that the word 2 names, for so
/// many steps. It is judged in this order: the source's read, its form, the name, the choices' read, their form.
pub fn replay_source<H: Shelf>(
    alloc: Global,
    shelf: &mut H,
    mode: Mode,
    steps: u64,
    name: &Name,
) -> Answer
    requires { 2 < length (H.names shelf.old) }

    ensures names { H.names shelf.new ≡ H.names shelf.old }
    ensures files { H.files shelf.new ≡ H.files shelf.old }
    ensures says { (file choices : List ℕ) → Says (Replay (asked_by mode name.now) file choices steps) (inputs_of (H.files shelf.old) (H.names shelf.old)) result }
    ensures faults { TellsFaults result (H.faults shelf.old) (H.faults shelf.new) }
{
    let p = match read_source(alloc, shelf, name) {
        Ok(p) => p,
        Err(answer) => return answer,
    };
    match read_list(alloc, shelf) {
        Ok(list) => answer_source(alloc, &p, mode, list, steps),
        Err(answer) => answer,
    }
}
