// The instructions on registers, tests and jumps, which take no number and change no object.
ghost use Rattle.std.specs.Prelude.{◌≡◌, List, ℕ, Some, IfOk};
ghost use Rattle.dc_core.specs.View.{term_view};
ghost use Rattle.dc_goto.specs.Acts.{act};
ghost use Rattle.dc_goto.specs.Program as plain;
ghost use Rattle.dc_goto.specs.Program.{GotoProgram};
ghost use Rattle.dc_machine.specs.Step.{IsAlone, acting};
ghost use Rattle.dc_machine.specs.View.{now_view};
ghost use Rattle.dc_world.specs.Told.{Hearing};
ghost use Rattle.dc_world.specs.Log.{hearing};

use crate::now::Now;
use dc_choice::Watch;
use dc_core::Term;
use dc_text::Name;
use dc_value::{holds, is_true};
use dc_world::{End, Log};
use std::alloc::{AllocError, Global};

/// The end of a run that came to something without meaning in the function of this name.
pub fn undefined(alloc: Global, name: &[u8]) -> Result<Option<End>, AllocError>
    ensures { IfOk result (λ o. o ≡ Some (End.Undefined name.now)) }
{
    let name = Name::copied(alloc, name)?;
    Ok(Some(End::Undefined(name)))
}

/// The end of a run that came to a function of this name, which has no body.
pub fn no_body(alloc: Global, name: &[u8]) -> Result<Option<End>, AllocError>
    ensures { IfOk result (λ o. o ≡ Some (End.NoBody name.now)) }
{
    let name = Name::copied(alloc, name)?;
    Ok(Some(End::NoBody(name)))
}

impl Now {
    /// The register takes the value of the expression.
    pub fn set(
        &mut self,
        alloc: Global,
        name: &[u8],
        register: u64,
        value: &Term,
    ) -> Result<Option<End>, AllocError>
        ensures { (p : GotoProgram) (h : Hearing) →
            IsAlone acting (λ choices. act p name.now (plain.Set register (term_view value.now)) (now_view self.old choices)) (now_view self.new) result h h }
    {
        let held = self.asked(value)?;
        match held {
            None => undefined(alloc, name),
            Some(_) => {
                self.put(register, held)?;
                Ok(None)
            }
        }
    }

    /// The register takes the value of the expression, or none where it has none.
    pub fn keep(&mut self, register: u64, value: &Term) -> Result<Option<End>, AllocError>
        ensures { (p : GotoProgram) (name : List ℕ) (h : Hearing) →
            IsAlone acting (λ choices. act p name (plain.Keep register (term_view value.now)) (now_view self.old choices)) (now_view self.new) result h h }
    {
        let held = self.asked(value)?;
        self.put(register, held)?;
        Ok(None)
    }

    /// Fails the name where the value is 0; without one the run ends as undefined.
    pub fn assert<W: Watch>(
        &mut self,
        alloc: Global,
        name: &[u8],
        check: &[u8],
        test: &Term,
        watch: &mut W,
        log: &mut Log,
    ) -> Result<Option<End>, AllocError>
        ensures { (p : GotoProgram) →
            IsAlone acting (λ choices. act p name.now (plain.Assert check.now (term_view test.now)) (now_view self.old choices)) (now_view self.new) result
            (hearing (W.records watch.old) (W.parts watch.old) log.old)
            (hearing (W.records watch.new) (W.parts watch.new) log.new) }
    {
        match self.asked(test)? {
            None => undefined(alloc, name),
            Some(z) => {
                log.check(alloc, watch, check, is_true(z))?;
                Ok(None)
            }
        }
    }

    /// Fails the name where the value is 0 or there is none.
    pub fn check<W: Watch>(
        &mut self,
        alloc: Global,
        check: &[u8],
        test: &Term,
        watch: &mut W,
        log: &mut Log,
    ) -> Result<Option<End>, AllocError>
        ensures { (p : GotoProgram) (name : List ℕ) →
            IsAlone acting (λ choices. act p name (plain.Check check.now (term_view test.now)) (now_view self.old choices)) (now_view self.new) result
            (hearing (W.records watch.old) (W.parts watch.old) log.old)
            (hearing (W.records watch.new) (W.parts watch.new) log.new) }
    {
        let held = holds(self.asked(test)?);
        log.check(alloc, watch, check, held)?;
        Ok(None)
    }

    /// Blocks the run where the value is 0; without one it ends as undefined.
    pub fn assume(
        &mut self,
        alloc: Global,
        name: &[u8],
        test: &Term,
    ) -> Result<Option<End>, AllocError>
        ensures { (p : GotoProgram) (h : Hearing) →
            IsAlone acting (λ choices. act p name.now (plain.Assume (term_view test.now)) (now_view self.old choices)) (now_view self.new) result h h }
    {
        let Some(z) = self.asked(test)? else {
            return undefined(alloc, name);
        };
        if is_true(z) {
            Ok(None)
        } else {
            Ok(Some(End::Blocked))
        }
    }

    /// Blocks the run where the value is 0 or there is none.
    pub fn require(&mut self, test: &Term) -> Result<Option<End>, AllocError>
        ensures { (p : GotoProgram) (name : List ℕ) (h : Hearing) →
            IsAlone acting (λ choices. act p name (plain.Require (term_view test.now)) (now_view self.old choices)) (now_view self.new) result h h }
    {
        if holds(self.asked(test)?) {
            Ok(None)
        } else {
            Ok(Some(End::Blocked))
        }
    }

    /// Nothing has been seen any more.
    pub fn forget_seen(&mut self) -> Result<Option<End>, AllocError>
        ensures { (p : GotoProgram) (name : List ℕ) (h : Hearing) →
            IsAlone acting (λ choices. act p name plain.Seen (now_view self.old choices)) (now_view self.new) result h h }
    {
        self.seen.clear();
        Ok(None)
    }
}
