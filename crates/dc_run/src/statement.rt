// Statements.
ghost use Rattle.std.specs.Prelude.{◌≡◌, ◌≤◌, [], ◌∷◌, ◌++◌, length, map, OnOk, OnErr};
ghost use Rattle.dc_core.specs.Assertion.{assigns_name as name_of_write};
ghost use Rattle.dc_core.specs.Contract.{WriteSet as PlainSet, claimed};
ghost use Rattle.dc_core.specs.Event.{Write};
ghost use Rattle.dc_core.specs.Run.{Did, Failed, contract_mode, tick, write as written, perform as performed, run as run_of};
ghost use Rattle.dc_core.specs.Program as plain;
ghost use Rattle.dc_core.specs.View.{expr_view, stmt_view};
ghost use Rattle.dc_world.specs.Log.{hearing};
ghost use Rattle.dc_world.specs.Sets.{set_view};
ghost use Rattle.dc_world.specs.Told.{Hearing, told};
ghost use Rattle.dc_run.specs.Part.{IsPart};
ghost use Rattle.dc_run.specs.View.{state_view};

use crate::act::{Act, act_of};
use crate::assertion::assigns_name;
use crate::state::{Flow, State, undefined};
use crate::value::{Scope, place, store_int, value};
use dc_choice::Watch;
use dc_memory::{object_number, offset};
use dc_program::{Expr, Stmt};
use dc_text::Event;
use dc_world::{Log, WriteSet};
use std::alloc::{AllocError, Global};

// Notes the name of a write at a site as failed.
fn fail_write(alloc: Global, name: &[u8], site: u64, log: &mut Log) -> Result<(), AllocError>
    ensures failed { OnOk result (log.new.failed ≡ log.old.failed ++ name_of_write name.now site ∷ []) }
    ensures refused { OnErr result (log.new.failed ≡ log.old.failed) }
    ensures counts { log.new.counts ≡ log.old.counts }
{
    let check = assigns_name(alloc, name, site)?;
    log.fail(alloc, check.as_slice())
}

// Tells of a write of an int at a site, whose name fails where it isn't allowed. A refused call tells nothing.
fn tell_write<W: Watch>(
    alloc: Global,
    name: &[u8],
    site: u64,
    object: u64,
    from: u64,
    allowed: bool,
    watch: &mut W,
    log: &mut Log,
) -> Result<(), AllocError>
    ensures ok { OnOk result (hearing (W.records watch.new) (W.parts watch.new) log.new
        ≡ told (Did (Write object from 4) ∷ map Failed (claimed (name_of_write name.now site) allowed)) (hearing (W.records watch.old) (W.parts watch.old) log.old)) }
    ensures refused { OnErr result (hearing (W.records watch.new) (W.parts watch.new) log.new
        ≡ hearing (W.records watch.old) (W.parts watch.old) log.old) }
{
    if !allowed {
        fail_write(alloc, name, site, log)?;
    }
    log.tell(
        watch,
        Event::Write {
            object,
            from,
            len: 4,
        },
    );
    Ok(())
}

impl State {
    // Writes an int at a place, at a site of the function of this name.
    fn write<W: Watch>(
        &mut self,
        alloc: Global,
        name: &[u8],
        set: &WriteSet,
        site: u64,
        place: u128,
        value: i128,
        watch: &mut W,
        log: &mut Log,
    ) -> Result<Flow, AllocError>
        requires { length self.old.memory ≤ 65535 }
        ensures part { IsPart (λ choices. written contract_mode name.now (set_view set.now) site place value (state_view self.old choices)) (state_view self.new) result
            (hearing (W.records watch.old) (W.parts watch.old) log.old)
            (hearing (W.records watch.new) (W.parts watch.new) log.new) }
        ensures few { length self.new.memory ≤ 65535 }
    {
        let Some(pointer) = store_int(&mut self.memory, place, value) else {
            return undefined(alloc, name);
        };
        let object = object_number(pointer);
        let from = offset(pointer);
        let allowed = set.allows(object, from, 4);
        tell_write(alloc, name, site, object, from, allowed, watch, log)?;
        Ok(Flow::Normal)
    }

    // An assignment of an expression's value at a site.
    fn assign<W: Watch>(
        &mut self,
        alloc: Global,
        name: &[u8],
        set: &WriteSet,
        places: &[u128],
        site: u64,
        target: &Expr,
        e: &Expr,
        watch: &mut W,
        log: &mut Log,
    ) -> Result<Flow, AllocError>
        requires { length self.old.memory ≤ 65535 }
        ensures part { IsPart (λ choices. performed contract_mode name.now (set_view set.now) places.now (plain.Assign site (expr_view target.now) (expr_view e.now)) (state_view self.old choices)) (state_view self.new) result
            (hearing (W.records watch.old) (W.parts watch.old) log.old)
            (hearing (W.records watch.new) (W.parts watch.new) log.new) }
        ensures few { length self.new.memory ≤ 65535 }
    {
        let scope = Scope::Body(places);
        let Some(value) = value(&scope, &self.memory, e) else {
            return undefined(alloc, name);
        };
        let Some(pointer) = place(&scope, target) else {
            return undefined(alloc, name);
        };
        self.write(alloc, name, set, site, pointer, value, watch, log)
    }

    // A return of an expression's value.
    fn give(
        &self,
        alloc: Global,
        name: &[u8],
        places: &[u128],
        e: &Expr,
    ) -> Result<Flow, AllocError>
        requires { length self.now.memory ≤ 65535 }
        ensures { (set : PlainSet) (h : Hearing) →
            IsPart (λ choices. performed contract_mode name.now set places.now (plain.Return (expr_view e.now)) (state_view self.now choices)) (state_view self.now) result h h }
    {
        match value(&Scope::Body(places), &self.memory, e) {
            None => undefined(alloc, name),
            Some(value) => Ok(Flow::Returned(Some(value))),
        }
    }

    // A statement of the function of this name. One that isn't of the first form has no value.
    fn perform<W: Watch>(
        &mut self,
        alloc: Global,
        name: &[u8],
        set: &WriteSet,
        places: &[u128],
        stmt: &Stmt,
        watch: &mut W,
        log: &mut Log,
    ) -> Result<Flow, AllocError>
        requires { length self.old.memory ≤ 65535 }
        ensures part { IsPart (λ choices. performed contract_mode name.now (set_view set.now) places.now (stmt_view stmt.now) (state_view self.old choices)) (state_view self.new) result
            (hearing (W.records watch.old) (W.parts watch.old) log.old)
            (hearing (W.records watch.new) (W.parts watch.new) log.new) }
        ensures few { length self.new.memory ≤ 65535 }
    {
        match act_of(stmt) {
            Act::Assign(site, target, e) => {
                self.assign(alloc, name, set, places, site, target, e, watch, log)
            }
            Act::Return(e) => self.give(alloc, name, places, e),
            Act::Nothing => undefined(alloc, name),
        }
    }

    // A statement as a step, where one is left.
    fn step<W: Watch>(
        &mut self,
        alloc: Global,
        name: &[u8],
        set: &WriteSet,
        places: &[u128],
        stmt: &Stmt,
        watch: &mut W,
        log: &mut Log,
    ) -> Result<Flow, AllocError>
        requires { length self.old.memory ≤ 65535 }
        ensures part { IsPart (λ choices. tick (state_view self.old choices) (performed contract_mode name.now (set_view set.now) places.now (stmt_view stmt.now))) (state_view self.new) result
            (hearing (W.records watch.old) (W.parts watch.old) log.old)
            (hearing (W.records watch.new) (W.parts watch.new) log.new) }
        ensures few { length self.new.memory ≤ 65535 }
    {
        if self.left == 0 {
            return Ok(Flow::Cut);
        }
        self.left -= 1;
        self.perform(alloc, name, set, places, stmt, watch, log)
    }

    /// The statements in their order, each of them a step.
    pub fn run<W: Watch>(
        &mut self,
        alloc: Global,
        name: &[u8],
        set: &WriteSet,
        places: &[u128],
        body: &[Stmt],
        watch: &mut W,
        log: &mut Log,
    ) -> Result<Flow, AllocError>
        requires { length self.old.memory ≤ 65535 }
        ensures part { IsPart (λ choices. run_of contract_mode name.now (set_view set.now) places.now (map stmt_view body.now) (state_view self.old choices)) (state_view self.new) result
            (hearing (W.records watch.old) (W.parts watch.old) log.old)
            (hearing (W.records watch.new) (W.parts watch.new) log.new) }
        ensures few { length self.new.memory ≤ 65535 }
    {
        for stmt in body {
            let flow = self.step(alloc, name, set, places, stmt, watch, log)?;
            if !flow.goes_on() {
                return Ok(flow);
            }
        }
        Ok(Flow::Normal)
    }
}
