// The instructions on write sets.
ghost use Rattle.std.specs.Prelude.{◌≡◌, List, ℕ, OnOk};
ghost use Rattle.dc_core.specs.View.{term_view};
ghost use Rattle.dc_goto.specs.Acts.{act, denotes as range_denoted, is_covered as covered, may_be_freed, ranged, targeted, with_sets};
ghost use Rattle.dc_goto.specs.Program as plain;
ghost use Rattle.dc_goto.specs.Program.{GotoProgram};
ghost use Rattle.dc_machine.specs.Step.{IsAlone, acting};
ghost use Rattle.dc_machine.specs.View.{now_view};
ghost use Rattle.dc_world.specs.Told.{Hearing};
ghost use Rattle.dc_world.specs.Log.{hearing};

use crate::now::Now;
use dc_choice::Watch;
use dc_core::{NumKind, Term};
use dc_memory::{object_number, offset};
use dc_num::bits;
use dc_value::{holds, is_heap_start, points_to_data};
use dc_world::{End, Log};
use std::alloc::{AllocError, Global};

impl Now {
    /// A new innermost write set.
    pub fn push_set(&mut self) -> Result<Option<End>, AllocError>
        ensures { (p : GotoProgram) (name : List ℕ) (h : Hearing) →
            IsAlone acting (λ choices. act p name plain.Push (now_view self.old choices)) (now_view self.new) result h h }
    {
        self.sets.push(self.memory.count())?;
        Ok(None)
    }

    /// Away with the innermost set.
    pub fn pop_set(&mut self) -> Result<Option<End>, AllocError>
        ensures { (p : GotoProgram) (name : List ℕ) (h : Hearing) →
            IsAlone acting (λ choices. act p name plain.Pop (now_view self.old choices)) (now_view self.new) result h h }
    {
        self.sets.pop();
        Ok(None)
    }

    // Whether a target denotes bytes.
    fn denotes(&self, test: bool, pointer: u64, len: u64) -> bool
        ensures { result ≡ range_denoted self.now.memory test pointer len }
    {
        test && len > 0 && points_to_data(&self.memory, pointer) && self.memory.inside(pointer, len)
    }

    // Adds what a target denotes to the innermost set.
    fn add_range(
        &mut self,
        tag: u64,
        test: Option<i128>,
        place: Option<i128>,
        len: Option<i128>,
    ) -> Result<(), AllocError>
        ensures { OnOk result ((choices : List ℕ) → now_view self.new choices ≡ with_sets (ranged tag test place len (now_view self.old choices)) (now_view self.old choices)) }
    {
        let (Some(place), Some(len)) = (place, len) else {
            return Ok(());
        };
        let pointer = bits(NumKind::Ptr, place);
        let len = bits(NumKind::U64, len);
        if self.sets.mark().is_some() && self.denotes(holds(test), pointer, len) {
            self.sets
                .add_range(tag, object_number(pointer), offset(pointer), len)?;
        }
        Ok(())
    }

    /// Adds a range with a tag to the innermost set.
    pub fn range(
        &mut self,
        tag: u64,
        condition: &Term,
        place: &Term,
        len: &Term,
    ) -> Result<Option<End>, AllocError>
        ensures { (p : GotoProgram) (name : List ℕ) (h : Hearing) →
            IsAlone acting (λ choices. act p name (plain.Range tag (term_view condition.now) (term_view place.now) (term_view len.now)) (now_view self.old choices)) (now_view self.new) result h h }
    {
        let (test, place, len) = self.asked_three(condition, place, len)?;
        self.add_range(tag, test, place, len)?;
        Ok(None)
    }

    // Adds the object of a target to those of the innermost set that may be freed.
    fn add_free(
        &mut self,
        tag: u64,
        test: Option<i128>,
        place: Option<i128>,
    ) -> Result<(), AllocError>
        ensures { OnOk result ((choices : List ℕ) → now_view self.new choices ≡ with_sets (targeted tag test place (now_view self.old choices)) (now_view self.old choices)) }
    {
        let Some(place) = place else {
            return Ok(());
        };
        let pointer = bits(NumKind::Ptr, place);
        if self.sets.mark().is_some() && holds(test) && is_heap_start(&self.memory, pointer) {
            self.sets.add_free(tag, object_number(pointer))?;
        }
        Ok(())
    }

    /// Adds an object that may be freed with a tag to the innermost set.
    pub fn target(
        &mut self,
        tag: u64,
        condition: &Term,
        pointer: &Term,
    ) -> Result<Option<End>, AllocError>
        ensures { (p : GotoProgram) (name : List ℕ) (h : Hearing) →
            IsAlone acting (λ choices. act p name (plain.Target tag (term_view condition.now) (term_view pointer.now)) (now_view self.old choices)) (now_view self.new) result h h }
    {
        let (test, place) = self.asked_two(condition, pointer)?;
        self.add_free(tag, test, place)?;
        Ok(None)
    }

    // Whether a write of that length at the place is allowed by the innermost set. One that isn't inside a live object, or is
    // empty, is no write.
    fn is_covered(&self, place: Option<i128>, len: Option<i128>) -> bool
        ensures { (choices : List ℕ) → result ≡ covered place len (now_view self.now choices) }
    {
        let (Some(place), Some(len)) = (place, len) else {
            return true;
        };
        let pointer = bits(NumKind::Ptr, place);
        let len = bits(NumKind::U64, len);
        !(len > 0 && self.memory.inside(pointer, len))
            || self
                .sets
                .covers(object_number(pointer), offset(pointer), len)
    }

    /// Fails the name where a write of that length at the address isn't allowed.
    pub fn covers<W: Watch>(
        &mut self,
        alloc: Global,
        check: &[u8],
        place: &Term,
        len: &Term,
        watch: &mut W,
        log: &mut Log,
    ) -> Result<Option<End>, AllocError>
        ensures { (p : GotoProgram) (name : List ℕ) →
            IsAlone acting (λ choices. act p name (plain.Covers check.now (term_view place.now) (term_view len.now)) (now_view self.old choices)) (now_view self.new) result
            (hearing (W.records watch.old) (W.parts watch.old) log.old)
            (hearing (W.records watch.new) (W.parts watch.new) log.new) }
    {
        let (place, len) = self.asked_two(place, len)?;
        let held = self.is_covered(place, len);
        log.check(alloc, watch, check, held)?;
        Ok(None)
    }

    // Whether a free of the pointer is allowed by the innermost set. One that isn't the start of a live heap object is none.
    fn may_free(&self, place: Option<i128>) -> bool
        ensures { (choices : List ℕ) → result ≡ may_be_freed place (now_view self.now choices) }
    {
        let Some(place) = place else {
            return true;
        };
        let pointer = bits(NumKind::Ptr, place);
        !is_heap_start(&self.memory, pointer) || self.sets.may_free(object_number(pointer))
    }

    /// Fails the name where a free of the pointer isn't allowed.
    pub fn check_free<W: Watch>(
        &mut self,
        alloc: Global,
        check: &[u8],
        pointer: &Term,
        watch: &mut W,
        log: &mut Log,
    ) -> Result<Option<End>, AllocError>
        ensures { (p : GotoProgram) (name : List ℕ) →
            IsAlone acting (λ choices. act p name (plain.MayFree check.now (term_view pointer.now)) (now_view self.old choices)) (now_view self.new) result
            (hearing (W.records watch.old) (W.parts watch.old) log.old)
            (hearing (W.records watch.new) (W.parts watch.new) log.new) }
    {
        let place = self.asked(pointer)?;
        let held = self.may_free(place);
        log.check(alloc, watch, check, held)?;
        Ok(None)
    }

    /// Fails the name where what has the tag in the innermost set isn't inside the next.
    pub fn inside<W: Watch>(
        &mut self,
        alloc: Global,
        check: &[u8],
        tag: u64,
        watch: &mut W,
        log: &mut Log,
    ) -> Result<Option<End>, AllocError>
        ensures { (p : GotoProgram) (name : List ℕ) →
            IsAlone acting (λ choices. act p name (plain.Inside check.now tag) (now_view self.old choices)) (now_view self.new) result
            (hearing (W.records watch.old) (W.parts watch.old) log.old)
            (hearing (W.records watch.new) (W.parts watch.new) log.new) }
    {
        let held = self.sets.inside_below(tag);
        log.check(alloc, watch, check, held)?;
        Ok(None)
    }
}
