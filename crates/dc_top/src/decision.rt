// From the words and the files to an answer.
ghost use Rattle.std.specs.Prelude.{◌≡◌};
ghost use Rattle.dc_top.specs.Answers.{Justifies, TellsFaults};
ghost use Rattle.dc_top.specs.Table.{inputs_of};

use crate::answer::Answer;
use crate::instrument::instrument;
use crate::replay::{replay_source, replay_text};
use crate::table::{Row, row_of};
use dc_core::Name;
use dc_outside::Shelf;
use std::alloc::Global;

/// The answer to the words and the files that they name. The words are judged first.
pub fn decide<H: Shelf>(alloc: Global, words: &[Name], shelf: &mut H) -> Answer
    requires { H.names shelf.old ≡ words.now }

    ensures names { H.names shelf.new ≡ H.names shelf.old }
    ensures files { H.files shelf.new ≡ H.files shelf.old }
    ensures says { Justifies words.now (inputs_of (H.files shelf.old) words.now) result }

    // A file's fault is the answer exactly where the count of its word rose.
    ensures faults { TellsFaults result (H.faults shelf.old) (H.faults shelf.new) }
{
    match row_of(words) {
        None => Answer::Usage,
        Some(Row::Instrument(name)) => instrument(alloc, shelf, name),
        Some(Row::ReplayText(steps)) => replay_text(alloc, shelf, steps),
        Some(Row::ReplaySource(mode, steps, name)) => {
            replay_source(alloc, shelf, mode, steps, name)
        }
    }
}
