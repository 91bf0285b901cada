// From a file of choices to the list.
ghost use Rattle.std.specs.Prelude.{◌≡◌, ◌≤◌, ◌<◌, ℕ, List, IfErr, IfOk, MatchResult, length};
ghost use Rattle.dc_choice.specs.Reading.{numbers};
ghost use Rattle.dc_top.specs.Answers.{Says, StageTells};
ghost use Rattle.dc_top.specs.Replaying.{Given, ShortChoices};
ghost use Rattle.dc_top.specs.Stages.{SaysOfList};
ghost use Rattle.dc_top.specs.Table.{Asked, OfSource, Replay, choices_limit, file_at, inputs_of};

use crate::answer::Answer;
use crate::lines::{fixed_line, numbered_line};
use dc_choice::{ChoiceFault, read_choices};
use dc_outside::{ReadAll, Shelf, read_all};
use dc_text::Choices;
use std::alloc::Global;

// The most bytes that a file of choices may have.
const CHOICES_LIMIT: u64 = 67_108_864;

// The list that the bytes are, or the answer where they are none.
fn list_of(alloc: Global, bytes: &[u8]) -> Result<Choices, Answer>
    requires short { length bytes.now ≤ choices_limit }
    ensures { MatchResult result (λ list. ShortChoices bytes.now (numbers list)) (SaysOfList bytes.now) }
{
    match read_choices(alloc, bytes) {
        Ok(list) => Ok(list),
        Err(ChoiceFault::NotJson) => match fixed_line(alloc, b"dcc: choices not JSON") {
            Ok(line) => Err(Answer::BadChoices(line)),
            Err(_) => Err(Answer::Memory),
        },
        Err(ChoiceFault::NotArray) => match fixed_line(alloc, b"dcc: choices not an array") {
            Ok(line) => Err(Answer::BadChoices(line)),
            Err(_) => Err(Answer::Memory),
        },
        Err(ChoiceFault::NotNumbers(index)) => {
            match numbered_line(alloc, b"dcc: choices at ", index) {
                Ok(line) => Err(Answer::BadChoices(line)),
                Err(_) => Err(Answer::Memory),
            }
        }
        Err(ChoiceFault::Memory(_)) => Err(Answer::Memory),
    }
}

/// The list of choices that the word 2 names, or the answer where there is none, given that the word 1 names a file that
/// can be run. It is judged in this order: the read, the form.
pub fn read_list<H: Shelf>(alloc: Global, shelf: &mut H) -> Result<Choices, Answer>
    requires { 2 < length (H.names shelf.old) }

    ensures names { H.names shelf.new ≡ H.names shelf.old }
    ensures files { H.files shelf.new ≡ H.files shelf.old }
    ensures list { IfOk result (λ list. OfSource (file_at (H.files shelf.old) (H.names shelf.old) 2) (λ bytes. ShortChoices bytes (numbers list))) }
    ensures says { IfErr result (λ answer. (asked : Asked) (file choices : List ℕ) (steps : ℕ) → Given asked (inputs_of (H.files shelf.old) (H.names shelf.old))
        → Says (Replay asked file choices steps) (inputs_of (H.files shelf.old) (H.names shelf.old)) answer) }
    ensures faults { StageTells result (H.faults shelf.old) (H.faults shelf.new) }
{
    match read_all(alloc, shelf, 2, CHOICES_LIMIT) {
        Ok(bytes) => list_of(alloc, &bytes),
        Err(ReadAll::Fault) => Err(Answer::ReadFault(2)),
        Err(ReadAll::TooLong) => Err(Answer::TooLong),
        Err(ReadAll::Memory(_)) => Err(Answer::Memory),
    }
}
