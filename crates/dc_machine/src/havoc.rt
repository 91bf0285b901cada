// The instructions that change what the innermost write set names.
ghost use Rattle.std.specs.Prelude.{◌≡◌, ◌==◌, ◌&&◌, List, ℕ, [], ◌∷◌, map, OnErr, OnOk};
ghost use Rattle.dc_core.specs.Event.{Kill};
ghost use Rattle.dc_goto.specs.Acts.{act, freed, havocked, some_killed};
ghost use Rattle.dc_goto.specs.Program as plain;
ghost use Rattle.dc_goto.specs.Program.{GotoProgram};
ghost use Rattle.dc_machine.specs.Step.{IsStep, acting};
ghost use Rattle.dc_machine.specs.View.{now_view};
ghost use Rattle.dc_memory.specs.Objects.{is_live as lives};
ghost use Rattle.dc_world.specs.Drawing.{IsDrawing};
ghost use Rattle.dc_world.specs.Told.{happens, supply};
ghost use Rattle.dc_world.specs.Log.{hearing};
ghost use Rattle.dc_writeset.specs.Sets.{innermost, ranges_of};

use crate::now::Now;
use crate::over::draw_over;
use dc_choice::{Chooser, Watch};
use dc_memory::Store;
use dc_text::Event;
use dc_world::{End, Log, draw, let_die};
use dc_writeset::WriteSets;
use std::alloc::AllocError;

// Whether the object of the number lives.
fn is_live(memory: &Store, object: u64) -> bool
    ensures { result ≡ lives memory.now object }
{
    match memory.look(object) {
        None => false,
        Some((_, live, _)) => live,
    }
}

// Whether an object dies for which this number was drawn.
fn dies(memory: &Store, object: u64, number: u64) -> bool
    ensures { result ≡ (number == 1 && lives memory.now object) }
{
    number == 1 && is_live(memory, object)
}

// Draws bytes of a live object; one that doesn't live is passed over.
fn havoc_range<C: Chooser, W: Watch>(
    memory: &mut Store,
    object: u64,
    from: u64,
    len: u64,
    chooser: &mut C,
    used: &mut Vec<u64>,
    watch: &mut W,
    log: &mut Log,
) -> Result<Option<()>, AllocError>
    ensures { IsDrawing (λ u. memory.new) (havocked (record { object = object; from = from; len = len } ∷ []) memory.old) result
        (supply (C.left chooser.old) (C.given chooser.old) (C.dry chooser.old) used.old.items)
        (supply (C.left chooser.new) (C.given chooser.new) (C.dry chooser.new) used.new.items)
        (hearing (W.records watch.old) (W.parts watch.old) log.old)
        (hearing (W.records watch.new) (W.parts watch.new) log.new) }
{
    if !is_live(memory, object) {
        return Ok(Some(()));
    }
    draw_over(memory, object, from, len, chooser, used, watch, log)
}

// Draws the bytes of the innermost set's ranges, in their order.
fn havoc_ranges<C: Chooser, W: Watch>(
    memory: &mut Store,
    sets: &WriteSets,
    chooser: &mut C,
    used: &mut Vec<u64>,
    watch: &mut W,
    log: &mut Log,
) -> Result<Option<()>, AllocError>
    ensures { IsDrawing (λ u. memory.new) (havocked (map (λ r. r.range) (ranges_of (innermost sets.now.sets))) memory.old) result
        (supply (C.left chooser.old) (C.given chooser.old) (C.dry chooser.old) used.old.items)
        (supply (C.left chooser.new) (C.given chooser.new) (C.dry chooser.new) used.new.items)
        (hearing (W.records watch.old) (W.parts watch.old) log.old)
        (hearing (W.records watch.new) (W.parts watch.new) log.new) }
{
    for at in 0..sets.range_count() {
        let Some((object, from, len)) = sets.range_at(at) else {
            return Ok(Some(()));
        };
        let drawn = havoc_range(memory, object, from, len, chooser, used, watch, log)?;
        let Some(()) = drawn else {
            return Ok(None);
        };
    }
    Ok(Some(()))
}

impl Now {
    /// Draws the bytes of the innermost set's ranges, in their order.
    pub fn havoc<C: Chooser, W: Watch>(
        &mut self,
        chooser: &mut C,
        used: &mut Vec<u64>,
        watch: &mut W,
        log: &mut Log,
    ) -> Result<Option<End>, AllocError>
        ensures { (p : GotoProgram) (name : List ℕ) →
            IsStep acting (λ choices. act p name plain.Havoc (now_view self.old choices)) (now_view self.new) result
            (supply (C.left chooser.old) (C.given chooser.old) (C.dry chooser.old) used.old.items)
            (supply (C.left chooser.new) (C.given chooser.new) (C.dry chooser.new) used.new.items)
            (hearing (W.records watch.old) (W.parts watch.old) log.old)
            (hearing (W.records watch.new) (W.parts watch.new) log.new) }
    {
        let drawn = havoc_ranges(&mut self.memory, &self.sets, chooser, used, watch, log)?;
        let Some(()) = drawn else {
            return Ok(Some(End::ChoicesEnded));
        };
        Ok(None)
    }

    // An object dies, and is noted as freed.
    fn kill_freed<W: Watch>(
        &mut self,
        object: u64,
        watch: &mut W,
        log: &mut Log,
    ) -> Result<(), AllocError>
        ensures freed { OnOk result ((choices : List ℕ) → now_view self.new choices ≡ freed object (now_view self.old choices)) }
        ensures told { OnOk result (hearing (W.records watch.new) (W.parts watch.new) log.new
            ≡ happens (Kill object) (hearing (W.records watch.old) (W.parts watch.old) log.old)) }
        ensures refused { OnErr result (hearing (W.records watch.new) (W.parts watch.new) log.new
            ≡ hearing (W.records watch.old) (W.parts watch.old) log.old) }
    {
        self.sets.note_freed(object)?;
        let_die(&mut self.memory, object);
        log.tell(watch, Event::Kill(object));
        Ok(())
    }

    // An object dies, where it lives and 1 is drawn for it.
    fn kill_if_drawn<C: Chooser, W: Watch>(
        &mut self,
        object: u64,
        chooser: &mut C,
        used: &mut Vec<u64>,
        watch: &mut W,
        log: &mut Log,
    ) -> Result<Option<End>, AllocError>
        ensures step { IsStep acting (λ choices. some_killed (object ∷ []) (now_view self.old choices)) (now_view self.new) result
            (supply (C.left chooser.old) (C.given chooser.old) (C.dry chooser.old) used.old.items)
            (supply (C.left chooser.new) (C.given chooser.new) (C.dry chooser.new) used.new.items)
            (hearing (W.records watch.old) (W.parts watch.old) log.old)
            (hearing (W.records watch.new) (W.parts watch.new) log.new) }
        ensures sets { OnOk result (self.new.sets.sets ≡ self.old.sets.sets) }
    {
        let Some(number) = draw(2, chooser, used, watch, log)? else {
            return Ok(Some(End::ChoicesEnded));
        };
        if dies(&self.memory, object, number) {
            self.kill_freed(object, watch, log)?;
            return Ok(None);
        }
        Ok(None)
    }

    /// Of the objects of the innermost set that may be freed, those die that live and for which 1 is drawn.
    pub fn kill_frees<C: Chooser, W: Watch>(
        &mut self,
        chooser: &mut C,
        used: &mut Vec<u64>,
        watch: &mut W,
        log: &mut Log,
    ) -> Result<Option<End>, AllocError>
        ensures { (p : GotoProgram) (name : List ℕ) →
            IsStep acting (λ choices. act p name plain.Frees (now_view self.old choices)) (now_view self.new) result
            (supply (C.left chooser.old) (C.given chooser.old) (C.dry chooser.old) used.old.items)
            (supply (C.left chooser.new) (C.given chooser.new) (C.dry chooser.new) used.new.items)
            (hearing (W.records watch.old) (W.parts watch.old) log.old)
            (hearing (W.records watch.new) (W.parts watch.new) log.new) }
    {
        for at in 0..self.sets.free_count() {
            let Some(object) = self.sets.free_at(at) else {
                return Ok(None);
            };
            let end = self.kill_if_drawn(object, chooser, used, watch, log)?;
            if let Some(end) = end {
                return Ok(Some(end));
            }
        }
        Ok(None)
    }
}
