// The instructions that draw.
ghost use Rattle.std.specs.Prelude.{◌≡◌, List, ℕ, length};
ghost use Rattle.dc_goto.specs.Acts.{act, static_sizes};
ghost use Rattle.dc_goto.specs.Program as plain;
ghost use Rattle.dc_goto.specs.Program.{GotoProgram};
ghost use Rattle.dc_machine.specs.Step.{IsStep, acting};
ghost use Rattle.dc_machine.specs.View.{now_view};
ghost use Rattle.dc_world.specs.Told.{supply};
ghost use Rattle.dc_world.specs.Log.{hearing};

use crate::now::Now;
use crate::over::draw_all_over;
use dc_choice::{Chooser, Watch};
use dc_core::NumKind;
use dc_goto::Sig;
use dc_world::{End, Log, draw_value, with_new, with_outside};
use std::alloc::{AllocError, Global};

impl Now {
    /// Draws the bytes of all variables of file scope, which stand behind the functions.
    pub fn draw_statics<C: Chooser, W: Watch>(
        &mut self,
        functions: &[Sig],
        sizes: &[u64],
        chooser: &mut C,
        used: &mut Vec<u64>,
        watch: &mut W,
        log: &mut Log,
    ) -> Result<Option<End>, AllocError>
        ensures { (p : GotoProgram) (name : List ℕ) → length p.functions ≡ length functions.now → static_sizes p ≡ sizes.now →
            IsStep acting (λ choices. act p name plain.Statics (now_view self.old choices)) (now_view self.new) result
            (supply (C.left chooser.old) (C.given chooser.old) (C.dry chooser.old) used.old.items)
            (supply (C.left chooser.new) (C.given chooser.new) (C.dry chooser.new) used.new.items)
            (hearing (W.records watch.old) (W.parts watch.old) log.old)
            (hearing (W.records watch.new) (W.parts watch.new) log.new) }
    {
        let count = functions.len();
        let drawn = draw_all_over(&mut self.memory, count, sizes, chooser, used, watch, log)?;
        let Some(()) = drawn else {
            return Ok(Some(End::ChoicesEnded));
        };
        Ok(None)
    }

    /// Draws the outside objects.
    pub fn draw_outside<C: Chooser, W: Watch>(
        &mut self,
        alloc: Global,
        chooser: &mut C,
        used: &mut Vec<u64>,
        watch: &mut W,
        log: &mut Log,
    ) -> Result<Option<End>, AllocError>
        ensures { (p : GotoProgram) (name : List ℕ) →
            IsStep acting (λ choices. act p name plain.OutsideObjects (now_view self.old choices)) (now_view self.new) result
            (supply (C.left chooser.old) (C.given chooser.old) (C.dry chooser.old) used.old.items)
            (supply (C.left chooser.new) (C.given chooser.new) (C.dry chooser.new) used.new.items)
            (hearing (W.records watch.old) (W.parts watch.old) log.old)
            (hearing (W.records watch.new) (W.parts watch.new) log.new) }
    {
        let Some(()) = with_outside(alloc, &mut self.memory, chooser, used, watch, log)? else {
            return Ok(Some(End::ChoicesEnded));
        };
        Ok(None)
    }

    /// Draws the new objects of a replaced call or a contract loop.
    pub fn draw_new<C: Chooser, W: Watch>(
        &mut self,
        alloc: Global,
        chooser: &mut C,
        used: &mut Vec<u64>,
        watch: &mut W,
        log: &mut Log,
    ) -> Result<Option<End>, AllocError>
        ensures { (p : GotoProgram) (name : List ℕ) →
            IsStep acting (λ choices. act p name plain.NewObjects (now_view self.old choices)) (now_view self.new) result
            (supply (C.left chooser.old) (C.given chooser.old) (C.dry chooser.old) used.old.items)
            (supply (C.left chooser.new) (C.given chooser.new) (C.dry chooser.new) used.new.items)
            (hearing (W.records watch.old) (W.parts watch.old) log.old)
            (hearing (W.records watch.new) (W.parts watch.new) log.new) }
    {
        let Some(()) = with_new(alloc, &mut self.memory, chooser, used, watch, log)? else {
            return Ok(Some(End::ChoicesEnded));
        };
        Ok(None)
    }

    /// Draws a value of a kind into the register.
    pub fn draw_register<C: Chooser, W: Watch>(
        &mut self,
        register: u64,
        kind: NumKind,
        chooser: &mut C,
        used: &mut Vec<u64>,
        watch: &mut W,
        log: &mut Log,
    ) -> Result<Option<End>, AllocError>
        ensures { (p : GotoProgram) (name : List ℕ) →
            IsStep acting (λ choices. act p name (plain.Draw register kind) (now_view self.old choices)) (now_view self.new) result
            (supply (C.left chooser.old) (C.given chooser.old) (C.dry chooser.old) used.old.items)
            (supply (C.left chooser.new) (C.given chooser.new) (C.dry chooser.new) used.new.items)
            (hearing (W.records watch.old) (W.parts watch.old) log.old)
            (hearing (W.records watch.new) (W.parts watch.new) log.new) }
    {
        let held = draw_value(kind, chooser, used, watch, log)?;
        match held {
            None => Ok(Some(End::ChoicesEnded)),
            Some(_) => {
                self.put(register, held)?;
                Ok(None)
            }
        }
    }
}
