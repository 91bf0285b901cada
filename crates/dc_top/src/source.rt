// From a source to its program.
ghost use Rattle.std.specs.Prelude.{◌≡◌, ◌≤◌, ◌<◌, IfErr, IfOk, MatchResult, OnErr, Some, length};
ghost use Rattle.dc_core.specs.Sound.{IsSound};
ghost use Rattle.dc_core.specs.View.{program_view};
ghost use Rattle.dc_core.specs.Whole.{Says as SaysFirst};
ghost use Rattle.dc_program.specs.ProgramView.{program_view as whole_view};
ghost use Rattle.dc_text.specs.Words.{same};
ghost use Rattle.dc_top.specs.Answers.{Says, StageTells, no_form_line, not_function_line as not_function_line_of};
ghost use Rattle.dc_top.specs.Replaying.{IsSourceOf};
ghost use Rattle.dc_top.specs.Stages.{IsRefusal, SaysOfSource, ShortSource};
ghost use Rattle.dc_top.specs.Table.{Command, OfSource, enforced, file_at, inputs_of, source_limit};

use crate::answer::Answer;
use crate::lines::fixed_line;
use dc_core::{Name, function};
use dc_form::{Form, read_form};
use dc_outside::{ReadAll, Shelf, read_all};
use dc_program::Program;
use sqlite_items::Items;
use std::alloc::{AllocError, Global};

// The most bytes that a source may have.
const SOURCE_LIMIT: u64 = 1_048_576;

// The answer that the source isn't of the form.
fn no_form(alloc: Global) -> Answer
    ensures { IsRefusal no_form_line result }
{
    match fixed_line(alloc, b"dcc: refused form") {
        Ok(line) => Answer::Refused(line),
        Err(_) => Answer::Memory,
    }
}

// The line that says that the name is no function.
fn not_function_line(alloc: Global, name: &Name) -> Result<Items<u8>, AllocError>
    ensures { IfOk result (λ line. line ≡ not_function_line_of name.now) }
{
    let mut line = Vec::from_slice(alloc, b"dcc: refused option 1 at ")?;
    line.extend_from_slice(name.as_slice())?;
    line.push(b'\n')?;
    Ok(Items::from_vec(line))
}

// The answer that the name is no function.
fn not_function(alloc: Global, name: &Name) -> Answer
    ensures { IsRefusal (not_function_line_of name.now) result }
{
    match not_function_line(alloc, name) {
        Ok(line) => Answer::Refused(line),
        Err(_) => Answer::Memory,
    }
}

// Whether the program's function has this name. A program without a function is as one whose function has none.
fn is_named(p: &Program, name: &Name) -> bool
    ensures { result ≡ same (program_view p.now).function.name name.now }
{
    match function(p) {
        Some(f) => f.name.is(name.as_slice()),
        None => name.as_slice().is_empty(),
    }
}

// The program of these bytes, or the answer where they give none.
fn program_of(alloc: Global, bytes: &[u8], name: &Name) -> Result<Program, Answer>
    requires short { length bytes.now ≤ source_limit }
    ensures found { MatchResult result (λ p. IsSourceOf bytes.now name.now (program_view p)) (SaysOfSource bytes.now name.now) }
    ensures said { IfOk result (λ p. SaysFirst (program_view p) (whole_view p)) }
{
    match read_form(alloc, bytes) {
        Ok(p) => {
            if is_named(&p, name) {
                Ok(p)
            } else {
                Err(not_function(alloc, name))
            }
        }
        Err(Form::NoForm) => Err(no_form(alloc)),
        Err(Form::Memory(_)) => Err(Answer::Memory),
    }
}

/// The program of the source that the word 1 names, whose function has this name, or the answer where there is none. It
/// is judged in this order: the read, the form, the name.
pub fn read_source<H: Shelf>(alloc: Global, shelf: &mut H, name: &Name) -> Result<Program, Answer>
    requires { 1 < length (H.names shelf.old) }

    ensures names { H.names shelf.new ≡ H.names shelf.old }
    ensures files { H.files shelf.new ≡ H.files shelf.old }
    ensures sound { IfOk result (λ p. IsSound (program_view p)) }
    ensures said { IfOk result (λ p. SaysFirst (program_view p) (whole_view p)) }
    ensures source { IfOk result (λ p. OfSource (file_at (H.files shelf.old) (H.names shelf.old) 1) (λ bytes. ShortSource bytes name.now (program_view p))) }
    ensures says { IfErr result (λ answer. (command : Command) → enforced command ≡ Some name.now → Says command (inputs_of (H.files shelf.old) (H.names shelf.old)) answer) }
    ensures faults { StageTells result (H.faults shelf.old) (H.faults shelf.new) }
{
    match read_all(alloc, shelf, 1, SOURCE_LIMIT) {
        Ok(bytes) => program_of(alloc, &bytes, name),
        Err(ReadAll::Fault) => Err(Answer::ReadFault(1)),
        Err(ReadAll::TooLong) => Err(Answer::TooLong),
        Err(ReadAll::Memory(_)) => Err(Answer::Memory),
    }
}
