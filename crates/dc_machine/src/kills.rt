// The objects of a running function that die.
ghost use Rattle.std.specs.Prelude.{◌≡◌, ◌<◌, ◌≤◌, ◌++◌, ◌∷◌, [], List, ℕ, length, map, None, IfSome};
ghost use Rattle.dc_core.specs.Event.{Kill};
ghost use Rattle.dc_core.specs.Run.{Did};
ghost use Rattle.dc_core.specs.World.{left as left_world, kill_events};
ghost use Rattle.dc_goto.specs.Program as plain;
ghost use Rattle.dc_goto.specs.Program.{GotoProgram};
ghost use Rattle.dc_machine.specs.Step.{IsAlone, acting};
ghost use Rattle.dc_goto.specs.Acts.{act, newer, without_locals};
ghost use Rattle.dc_machine.specs.View.{now_view};
ghost use Rattle.dc_world.specs.Told.{told};
ghost use Rattle.dc_world.specs.Log.{hearing};

use crate::now::Now;
use dc_choice::Watch;
use dc_text::Event;
use dc_world::{End, Log, let_die};
use std::alloc::AllocError;

// Takes the newest away where there are more than the first so many.
fn pop_newer(locals: &mut Vec<u64>, first: u64) -> Option<u64>
    ensures taken { IfSome result (λ object. locals.old.items ≡ locals.new.items ++ object ∷ []) }
    ensures more { IfSome result (λ object. first < length locals.old.items) }
    ensures kept { result ≡ None → locals.new.items ≡ locals.old.items }
    ensures few { result ≡ None → length locals.old.items ≤ first }
{
    if locals.len() as u64 <= first {
        None
    } else {
        locals.pop()
    }
}

impl Now {
    /// The running function's objects beyond the first so many die, the newest first.
    pub fn kill_newer<W: Watch>(&mut self, first: u64, watch: &mut W, log: &mut Log)
        ensures left { (choices : List ℕ) → now_view self.new choices ≡ record (now_view self.old choices) { world = without_locals first (now_view self.old choices).world } }
        ensures told { hearing (W.records watch.new) (W.parts watch.new) log.new
            ≡ told (map (λ object. Did (Kill object)) (newer first (now_view self.old []).world.locals)) (hearing (W.records watch.old) (W.parts watch.old) log.old) }
    {
        while let Some(object) = pop_newer(&mut self.locals, first) {
            let_die(&mut self.memory, object);
            log.tell(watch, Event::Kill(object));
        }
    }

    /// The running function's objects die, the newest first.
    pub fn kill_locals<W: Watch>(&mut self, watch: &mut W, log: &mut Log)
        ensures left { (choices : List ℕ) → now_view self.new choices ≡ record (now_view self.old choices) { world = left_world [] (now_view self.old choices).world } }
        ensures told { hearing (W.records watch.new) (W.parts watch.new) log.new
            ≡ told (map Did (kill_events (now_view self.old []).world)) (hearing (W.records watch.old) (W.parts watch.old) log.old) }
    {
        self.kill_newer(0, watch, log);
    }

    /// The running function's objects beyond the first so many die, the newest first.
    pub fn kill<W: Watch>(
        &mut self,
        first: u64,
        watch: &mut W,
        log: &mut Log,
    ) -> Result<Option<End>, AllocError>
        ensures { (p : GotoProgram) (name : List ℕ) →
            IsAlone acting (λ choices. act p name (plain.Kill first) (now_view self.old choices)) (now_view self.new) result
            (hearing (W.records watch.old) (W.parts watch.old) log.old)
            (hearing (W.records watch.new) (W.parts watch.new) log.new) }
    {
        self.kill_newer(first, watch, log);
        Ok(None)
    }
}
