// The instructions that write bytes of objects.
ghost use Rattle.std.specs.Prelude.{◌≡◌, List, ℕ, []};
ghost use Rattle.dc_core.specs.View.{term_view};
ghost use Rattle.dc_goto.specs.Acts as plain_acts;
ghost use Rattle.dc_goto.specs.Acts.{Next, act, are_apart as lie_apart, defined, may_copy as may_be_copied, may_share as may_be_shared, put, unless_undefined, with_memory};
ghost use Rattle.dc_num.specs.Conversions.{bits as bits_in};
ghost use Rattle.dc_goto.specs.Program as plain;
ghost use Rattle.dc_goto.specs.Program.{GotoProgram};
ghost use Rattle.dc_machine.specs.Step.{IsAlone, acting};
ghost use Rattle.dc_machine.specs.View.{now_view};
ghost use Rattle.dc_memory.specs.Access.{copied, filled, store as stored};
ghost use Rattle.dc_memory.specs.Kinds.{size_of};
ghost use Rattle.dc_program.specs.Kinds.{mem_kind as kind_in_memory};
ghost use Rattle.dc_world.specs.Told.{Hearing};
ghost use Rattle.dc_world.specs.Log.{hearing};

use crate::act::undefined;
use crate::now::Now;
use dc_choice::Watch;
use dc_core::{NumKind, Term};
use dc_goto::Sharing;
use dc_memory::{object_number, offset};
use dc_num::bits;
use dc_program::mem_kind;
use dc_text::Event;
use dc_world::{End, Log, size};
use std::alloc::{AllocError, Global};

impl Now {
    // Writes a value of the kind at a place.
    fn store_at<W: Watch>(
        &mut self,
        alloc: Global,
        name: &[u8],
        kind: NumKind,
        pointer: u64,
        value: i128,
        watch: &mut W,
        log: &mut Log,
    ) -> Result<Option<End>, AllocError>
        ensures { IsAlone acting
            (λ choices. put name.now pointer (size_of (kind_in_memory kind)) (stored (kind_in_memory kind) pointer value self.old.memory) (now_view self.old choices))
            (now_view self.new) result
            (hearing (W.records watch.old) (W.parts watch.old) log.old)
            (hearing (W.records watch.new) (W.parts watch.new) log.new) }
    {
        if !self.memory.store(pointer, mem_kind(kind), value) {
            return undefined(alloc, name);
        }
        let object = object_number(pointer);
        let from = offset(pointer);
        let len = size(kind);
        log.tell(watch, Event::Write { object, from, len });
        Ok(None)
    }

    /// Writes a value of the kind at an address.
    pub fn store<W: Watch>(
        &mut self,
        alloc: Global,
        name: &[u8],
        kind: NumKind,
        place: &Term,
        value: &Term,
        watch: &mut W,
        log: &mut Log,
    ) -> Result<Option<End>, AllocError>
        ensures { (p : GotoProgram) →
            IsAlone acting (λ choices. act p name.now (plain.Store kind (term_view place.now) (term_view value.now)) (now_view self.old choices)) (now_view self.new) result
            (hearing (W.records watch.old) (W.parts watch.old) log.old)
            (hearing (W.records watch.new) (W.parts watch.new) log.new) }
    {
        match self.given_two(place, value)? {
            None => undefined(alloc, name),
            Some((place, value)) => {
                self.store_at(
                    alloc,
                    name,
                    kind,
                    bits(NumKind::Ptr, place),
                    value,
                    watch,
                    log,
                )
            }
        }
    }

    // Writes a value of the kind at a place, and tells nothing.
    fn init_at(
        &mut self,
        alloc: Global,
        name: &[u8],
        kind: NumKind,
        pointer: u64,
        value: i128,
    ) -> Result<Option<End>, AllocError>
        ensures { (h : Hearing) →
            IsAlone acting
            (λ choices. defined name.now (stored (kind_in_memory kind) pointer value self.old.memory) (now_view self.old choices) (λ memory. Next [] (with_memory memory (now_view self.old choices))))
            (now_view self.new) result h h }
    {
        if self.memory.store(pointer, mem_kind(kind), value) {
            Ok(None)
        } else {
            undefined(alloc, name)
        }
    }

    /// Writes likewise, and tells nothing.
    pub fn init(
        &mut self,
        alloc: Global,
        name: &[u8],
        kind: NumKind,
        place: &Term,
        value: &Term,
    ) -> Result<Option<End>, AllocError>
        ensures { (p : GotoProgram) (h : Hearing) →
            IsAlone acting (λ choices. act p name.now (plain.Init kind (term_view place.now) (term_view value.now)) (now_view self.old choices)) (now_view self.new) result h h }
    {
        match self.given_two(place, value)? {
            None => undefined(alloc, name),
            Some((place, value)) => {
                self.init_at(alloc, name, kind, bits(NumKind::Ptr, place), value)
            }
        }
    }

    // Writes so many bytes, of those at the second place.
    fn copy_at<W: Watch>(
        &mut self,
        alloc: Global,
        name: &[u8],
        to: u64,
        from: u64,
        len: u64,
        watch: &mut W,
        log: &mut Log,
    ) -> Result<Option<End>, AllocError>
        ensures { IsAlone acting
            (λ choices. put name.now to len (copied to from len self.old.memory) (now_view self.old choices))
            (now_view self.new) result
            (hearing (W.records watch.old) (W.parts watch.old) log.old)
            (hearing (W.records watch.new) (W.parts watch.new) log.new) }
    {
        if len == 0 {
            return Ok(None);
        }
        if !self.memory.copy(to, from, len) {
            return undefined(alloc, name);
        }
        let object = object_number(to);
        let from = offset(to);
        log.tell(watch, Event::Write { object, from, len });
        Ok(None)
    }

    /// Writes so many bytes at the first address, of those at the second.
    pub fn copy<W: Watch>(
        &mut self,
        alloc: Global,
        name: &[u8],
        to: &Term,
        from: &Term,
        len: &Term,
        watch: &mut W,
        log: &mut Log,
    ) -> Result<Option<End>, AllocError>
        ensures { (p : GotoProgram) →
            IsAlone acting (λ choices. act p name.now (plain.Copy (term_view to.now) (term_view from.now) (term_view len.now)) (now_view self.old choices)) (now_view self.new) result
            (hearing (W.records watch.old) (W.parts watch.old) log.old)
            (hearing (W.records watch.new) (W.parts watch.new) log.new) }
    {
        match self.given_three(to, from, len)? {
            None => undefined(alloc, name),
            Some((to, from, len)) => {
                let to = bits(NumKind::Ptr, to);
                let from = bits(NumKind::Ptr, from);
                let len = bits(NumKind::U64, len);
                self.copy_at(alloc, name, to, from, len, watch, log)
            }
        }
    }

    // Writes a byte at a place, so often.
    fn fill_at<W: Watch>(
        &mut self,
        alloc: Global,
        name: &[u8],
        to: u64,
        byte: u8,
        len: u64,
        watch: &mut W,
        log: &mut Log,
    ) -> Result<Option<End>, AllocError>
        ensures { IsAlone acting
            (λ choices. put name.now to len (filled to byte len self.old.memory) (now_view self.old choices))
            (now_view self.new) result
            (hearing (W.records watch.old) (W.parts watch.old) log.old)
            (hearing (W.records watch.new) (W.parts watch.new) log.new) }
    {
        if len == 0 {
            return Ok(None);
        }
        if !self.memory.fill(to, byte, len) {
            return undefined(alloc, name);
        }
        let object = object_number(to);
        let from = offset(to);
        log.tell(watch, Event::Write { object, from, len });
        Ok(None)
    }

    /// Writes a byte at an address, so often.
    pub fn fill<W: Watch>(
        &mut self,
        alloc: Global,
        name: &[u8],
        to: &Term,
        byte: &Term,
        len: &Term,
        watch: &mut W,
        log: &mut Log,
    ) -> Result<Option<End>, AllocError>
        ensures { (p : GotoProgram) →
            IsAlone acting (λ choices. act p name.now (plain.Fill (term_view to.now) (term_view byte.now) (term_view len.now)) (now_view self.old choices)) (now_view self.new) result
            (hearing (W.records watch.old) (W.parts watch.old) log.old)
            (hearing (W.records watch.new) (W.parts watch.new) log.new) }
    {
        match self.given_three(to, byte, len)? {
            None => undefined(alloc, name),
            Some((to, byte, len)) => {
                let to = bits(NumKind::Ptr, to);
                let byte = as_byte(byte);
                let len = bits(NumKind::U64, len);
                self.fill_at(alloc, name, to, byte, len, watch, log)
            }
        }
    }

    // Whether so many bytes may be copied from one place to the other.
    fn may_copy(&self, sharing: Sharing, to: u64, from: u64, len: u64) -> bool
        ensures { result ≡ may_be_copied sharing self.now.memory to from len }
    {
        len == 0
            || self.memory.inside(to, len)
                && self.memory.inside(from, len)
                && may_share(sharing, to, from, len)
    }

    /// Ends the run as undefined where so many bytes at the two addresses can't be copied from one to the other.
    pub fn probe(
        &mut self,
        alloc: Global,
        name: &[u8],
        sharing: Sharing,
        to: &Term,
        from: &Term,
        len: &Term,
    ) -> Result<Option<End>, AllocError>
        ensures { (p : GotoProgram) (h : Hearing) →
            IsAlone acting (λ choices. act p name.now (plain.Probe sharing (term_view to.now) (term_view from.now) (term_view len.now)) (now_view self.old choices)) (now_view self.new) result h h }
    {
        let Some((to, from, len)) = self.given_three(to, from, len)? else {
            return undefined(alloc, name);
        };
        let to = bits(NumKind::Ptr, to);
        let from = bits(NumKind::Ptr, from);
        let len = bits(NumKind::U64, len);
        unless(alloc, name, self.may_copy(sharing, to, from, len))
    }
}

// A number as a byte.
fn as_byte(z: i128) -> u8
    ensures { result ≡ bits_in NumKind.U8 z }
{
    bits(NumKind::U8, z) as u8
}

// Whether two ranges of so many bytes have none in common.
fn are_apart(p: u64, q: u64, len: u64) -> bool
    ensures { result ≡ lie_apart p q len }
{
    object_number(p) != object_number(q)
        || offset(p) as u128 + len as u128 <= offset(q) as u128
        || offset(q) as u128 + len as u128 <= offset(p) as u128
}

// Whether they have none in common, where that is asked for.
fn may_share(sharing: Sharing, p: u64, q: u64, len: u64) -> bool
    ensures { result ≡ may_be_shared sharing p q len }
{
    match sharing {
        Sharing::Any => true,
        Sharing::Apart => are_apart(p, q, len),
    }
}

/// Ends the run as undefined in the function of this name, unless something holds.
pub fn unless(alloc: Global, name: &[u8], holds: bool) -> Result<Option<End>, AllocError>
    ensures { (s : List ℕ → plain_acts.Now) (h : Hearing) → ((choices : List ℕ) → (s choices).world.choices ≡ choices) →
        IsAlone acting (λ choices. unless_undefined name.now holds (s choices)) s result h h }
{
    if holds {
        Ok(None)
    } else {
        undefined(alloc, name)
    }
}
