// The instructions that go on to the next.
ghost use Rattle.std.specs.Prelude.{◌≡◌, true};
ghost use Rattle.dc_goto.specs.Acts.{act};
ghost use Rattle.dc_goto.specs.View.{instr_view};
ghost use Rattle.dc_machine.specs.Linked.{linked_view, IsLinked};
ghost use Rattle.dc_machine.specs.Step.{IsStep, acting, goes_on};
ghost use Rattle.dc_machine.specs.View.{now_view};
ghost use Rattle.dc_world.specs.Told.{supply};
ghost use Rattle.dc_world.specs.Log.{hearing};

use crate::act::undefined;
use crate::now::Now;
use crate::program::Linked;
use dc_choice::{Chooser, Watch};
use dc_goto::Instr;
use dc_world::{End, Log};
use std::alloc::{AllocError, Global};

impl Now {
    /// One instruction that is no call, no return and no jump.
    pub fn act<C: Chooser, W: Watch>(
        &mut self,
        alloc: Global,
        p: &Linked,
        name: &[u8],
        instr: &Instr,
        chooser: &mut C,
        used: &mut Vec<u64>,
        watch: &mut W,
        log: &mut Log,
    ) -> Result<Option<End>, AllocError>
        requires { IsLinked p.now }
        ensures { goes_on (instr_view instr.now) ≡ true →
            IsStep acting (λ choices. act (linked_view p.now) name.now (instr_view instr.now) (now_view self.old choices)) (now_view self.new) result
            (supply (C.left chooser.old) (C.given chooser.old) (C.dry chooser.old) used.old.items)
            (supply (C.left chooser.new) (C.given chooser.new) (C.dry chooser.new) used.new.items)
            (hearing (W.records watch.old) (W.parts watch.old) log.old)
            (hearing (W.records watch.new) (W.parts watch.new) log.new) }
    {
        match instr {
            Instr::Set(register, value) => self.set(alloc, name, *register, value),
            Instr::Keep(register, value) => self.keep(*register, value),
            Instr::Draw(register, kind) => self.draw_register(
                *register, *kind, chooser, used, watch, log,
            ),
            Instr::Store(kind, place, value) => self.store(
                alloc, name, *kind, place, value, watch, log,
            ),
            Instr::Init(kind, place, value) => self.init(alloc, name, *kind, place, value),
            Instr::Copy(to, from, len) => self.copy(alloc, name, to, from, len, watch, log),
            Instr::Fill(to, byte, len) => self.fill(alloc, name, to, byte, len, watch, log),
            Instr::Probe(sharing, to, from, len) => {
                self.probe(alloc, name, *sharing, to, from, len)
            }
            Instr::Local(register, size, bytes) => self.local(
                alloc, *register, *size, *bytes, chooser, used, watch, log,
            ),
            Instr::Kill(first) => self.kill(*first, watch, log),
            Instr::Alloc(register, count, size, bytes) => self.allocate(
                alloc, name, *register, count, size, *bytes, chooser, used, watch, log,
            ),
            Instr::Free(pointer) => self.free(alloc, name, pointer, watch, log),
            Instr::Trap => undefined(alloc, name),
            Instr::Assert(check, test) => {
                self.assert(alloc, name, check.as_slice(), test, watch, log)
            }
            Instr::Check(check, test) => self.check(alloc, check.as_slice(), test, watch, log),
            Instr::Assume(test) => self.assume(alloc, name, test),
            Instr::Require(test) => self.require(test),
            Instr::Push => self.push_set(),
            Instr::Pop => self.pop_set(),
            Instr::Range(tag, condition, place, len) => self.range(*tag, condition, place, len),
            Instr::Target(tag, condition, pointer) => self.target(*tag, condition, pointer),
            Instr::Covers(check, place, len) => {
                self.covers(alloc, check.as_slice(), place, len, watch, log)
            }
            Instr::MayFree(check, pointer) => {
                self.check_free(alloc, check.as_slice(), pointer, watch, log)
            }
            Instr::Inside(check, tag) => self.inside(alloc, check.as_slice(), *tag, watch, log),
            Instr::Seen => self.forget_seen(),
            Instr::Havoc => self.havoc(chooser, used, watch, log),
            Instr::Frees => self.kill_frees(chooser, used, watch, log),
            Instr::Statics => self.draw_statics(
                p.goto.functions.as_slice(),
                p.sizes.as_slice(),
                chooser,
                used,
                watch,
                log,
            ),
            Instr::OutsideObjects => self.draw_outside(alloc, chooser, used, watch, log),
            Instr::NewObjects => self.draw_new(alloc, chooser, used, watch, log),
            Instr::Goto(_) => Ok(None),
            Instr::IfNot(_, _) => Ok(None),
            Instr::Call(_, _, _) => Ok(None),
            Instr::CallThrough(_, _, _, _, _) => Ok(None),
            Instr::Return(_) => Ok(None),
        }
    }
}
