// Calls.
ghost use Rattle.std.specs.Prelude.{◌≡◌, ◌<◌, ◌≤◌, [], ◌∷◌, ◌++◌, ℕ, List, length, map, reverse, true, IfOk, OnOk, OnErr};
ghost use Rattle.dc_core.specs.Event.{Create};
ghost use Rattle.dc_memory.specs.Places.{start_of};
ghost use Rattle.dc_core.specs.Run.{Out, Note, State as PlainState, with_parameter, with_parameters, Did, finished as finished_out, call as called, run as run_of, tested, ensured, contract_mode};
ghost use Rattle.dc_core.specs.View.{clause_view, function_view};
ghost use Rattle.dc_core.specs.World.{next_object, left as left_world, kill_events};
ghost use Rattle.dc_world.specs.Log.{hearing};
ghost use Rattle.dc_world.specs.Reported.{dry_at};
ghost use Rattle.dc_world.specs.Sets.{set_view};
ghost use Rattle.dc_world.specs.Told.{happens, told};
ghost use Rattle.dc_run.specs.Part.{end_of, out_of, IsPart, IsBegun, HasLeft, HasTested, IsToldInPart};
ghost use Rattle.dc_run.specs.View.{scope_view, state_view};

use crate::assertion::postcondition_name;
use crate::clause::holds;
use crate::state::{Flow, State, undefined};
use crate::value::{Scope, start, value};
use dc_choice::Watch;
use dc_core::{body, ensured as ensures_of, gives_int};
use dc_memory::{MemKind, Store};
use dc_program::{Clause, Function};
use dc_text::Event;
use dc_world::{End, Log, Storage, Which, WriteSet, add_zeros, let_die};
use std::alloc::{AllocError, Global};
use std::mem;

// The end of a body: an int function that falls off its end is undefined.
fn finished(alloc: Global, f: &Function, flow: Flow) -> Result<Flow, AllocError>
    ensures finishes { IfOk result (λ after. (notes : List Note) (st : PlainState) →
        finished_out (function_view f.now) (out_of flow notes st) ≡ out_of after notes st) }
    ensures dry { IfOk result (λ after. dry_at (end_of flow) ≡ 0 → dry_at (end_of after) ≡ 0) }
{
    if !flow.goes_on() {
        return Ok(flow);
    }
    if gives_int(f) {
        undefined(alloc, f.name.as_slice())
    } else {
        Ok(Flow::Returned(None))
    }
}

// Tests the ensures in their order, from number 1 on.
fn test_ensures<W: Watch>(
    alloc: Global,
    name: &[u8],
    scope: &Scope,
    memory: &Store,
    clauses: &[Clause],
    watch: &mut W,
    log: &mut Log,
) -> Result<(), AllocError>
    requires { length memory.now ≤ 65535 }
    ensures ok { OnOk result (hearing (W.records watch.new) (W.parts watch.new) log.new
        ≡ told (tested name.now 1 (scope_view scope.now) memory.now (map clause_view clauses.now)) (hearing (W.records watch.old) (W.parts watch.old) log.old)) }
    ensures refused { OnErr result (IsToldInPart (tested name.now 1 (scope_view scope.now) memory.now (map clause_view clauses.now))
        (hearing (W.records watch.old) (W.parts watch.old) log.old)
        (hearing (W.records watch.new) (W.parts watch.new) log.new)) }
{
    let mut number = 0;
    for clause in clauses {
        number += 1;
        let held = holds(value(scope, memory, &clause.condition));
        let check = postcondition_name(alloc, name, number)?;
        log.check(alloc, watch, check.as_slice(), held)?;
    }
    Ok(())
}

impl State {
    // A stack object of an int behind the others, its place behind the places. A refused call tells nothing.
    fn push_parameter<W: Watch>(
        &mut self,
        argument: i128,
        places: &mut Vec<u128>,
        watch: &mut W,
        log: &mut Log,
    ) -> Result<(), AllocError>
        requires { length self.old.memory < 65535 }
        ensures state { OnOk result ((choices : List ℕ) → state_view self.new choices ≡ with_parameter argument (state_view self.old choices)) }
        ensures places { OnOk result (places.new.items ≡ places.old.items ++ start_of (next_object (state_view self.old []).world) ∷ []) }
        ensures told { OnOk result (hearing (W.records watch.new) (W.parts watch.new) log.new
            ≡ happens (Create (next_object (state_view self.old []).world)) (hearing (W.records watch.old) (W.parts watch.old) log.old)) }
        ensures refused { OnErr result (hearing (W.records watch.new) (W.parts watch.new) log.new ≡ hearing (W.records watch.old) (W.parts watch.old) log.old) }
        ensures few { length self.new.memory ≤ 65535 }
    {
        let number = self.memory.count() + 1;
        self.locals.try_reserve(1)?;
        places.try_reserve(1)?;
        add_zeros(&mut self.memory, Storage::Stack, 4)?;
        self.memory
            .store(number * 281474976710656, MemKind::S32, argument);
        self.locals.push_reserved(number);
        places.push_reserved(start(number));
        log.tell(watch, Event::Create(number));
        Ok(())
    }

    // A stack object for each argument, where there is room for all.
    fn push_parameters<W: Watch>(
        &mut self,
        arguments: &[i128],
        places: &mut Vec<u128>,
        watch: &mut W,
        log: &mut Log,
    ) -> Result<bool, AllocError>
        requires { length self.old.memory ≤ 65535 }
        ensures part { (go : List ℕ → PlainState → Out Note) →
            IsBegun (λ choices. with_parameters contract_mode arguments.now places.old.items (state_view self.old choices) go)
            (λ choices. go places.new.items (state_view self.new choices)) (state_view self.new) result
            (hearing (W.records watch.old) (W.parts watch.old) log.old)
            (hearing (W.records watch.new) (W.parts watch.new) log.new) }
        ensures few { length self.new.memory ≤ 65535 }
    {
        for argument in arguments {
            if self.memory.count() >= 65535 {
                return Ok(false);
            }
            self.push_parameter(*argument, places, watch, log)?;
        }
        Ok(true)
    }

    // The parameters, and then the body.
    fn enter<W: Watch>(
        &mut self,
        alloc: Global,
        f: &Function,
        set: &WriteSet,
        arguments: &[i128],
        watch: &mut W,
        log: &mut Log,
    ) -> Result<Flow, AllocError>
        requires { length self.old.memory ≤ 65535 }
        ensures part { IsPart (λ choices. with_parameters contract_mode arguments.now [] (state_view self.old choices) (λ places t. run_of contract_mode f.now.name (set_view set.now) places (function_view f.now).body t)) (state_view self.new) result
            (hearing (W.records watch.old) (W.parts watch.old) log.old)
            (hearing (W.records watch.new) (W.parts watch.new) log.new) }
        ensures few { length self.new.memory ≤ 65535 }
    {
        let mut places = Vec::new(alloc);
        if !self.push_parameters(arguments, &mut places, watch, log)? {
            return Ok(Flow::Ended(End::Limit(Which::Objects)));
        }
        self.run(
            alloc,
            f.name.as_slice(),
            set,
            places.as_slice(),
            body(f),
            watch,
            log,
        )
    }

    // The running function's objects die, the newest first.
    fn kill_locals<W: Watch>(&mut self, watch: &mut W, log: &mut Log)
        ensures left { (choices : List ℕ) → state_view self.new choices ≡ record (state_view self.old choices) { world = left_world [] (state_view self.old choices).world } }
        ensures told { hearing (W.records watch.new) (W.parts watch.new) log.new
            ≡ told (map Did (kill_events (state_view self.old []).world)) (hearing (W.records watch.old) (W.parts watch.old) log.old) }
    {
        while let Some(object) = self.locals.pop() {
            let_die(&mut self.memory, object);
            log.tell(watch, Event::Kill(object));
        }
    }

    // The function is left, if by a return: its objects die, and the caller's are in force again.
    fn leave<W: Watch>(&mut self, outer: Vec<u64>, flow: &Flow, watch: &mut W, log: &mut Log)
        requires { length self.old.memory ≤ 65535 }
        ensures left { HasLeft (reverse outer.items) flow.now (state_view self.old) (state_view self.new)
            (hearing (W.records watch.old) (W.parts watch.old) log.old)
            (hearing (W.records watch.new) (W.parts watch.new) log.new) }
        ensures few { length self.new.memory ≤ 65535 }
    {
        if !flow.is_return() {
            return;
        }
        self.kill_locals(watch, log);
        log.tell(watch, Event::Return);
        self.locals = outer;
    }

    // The body of a call, up to its end.
    fn call_body<W: Watch>(
        &mut self,
        alloc: Global,
        f: &Function,
        set: &WriteSet,
        arguments: &[i128],
        watch: &mut W,
        log: &mut Log,
    ) -> Result<Flow, AllocError>
        requires { length self.old.memory ≤ 65535 }
        ensures part { IsPart (λ choices. finished_out (function_view f.now) (with_parameters contract_mode arguments.now [] (state_view self.old choices) (λ places t. run_of contract_mode f.now.name (set_view set.now) places (function_view f.now).body t))) (state_view self.new) result
            (hearing (W.records watch.old) (W.parts watch.old) log.old)
            (hearing (W.records watch.new) (W.parts watch.new) log.new) }
        ensures few { length self.new.memory ≤ 65535 }
    {
        let flow = self.enter(alloc, f, set, arguments, watch, log)?;
        finished(alloc, f, flow)
    }

    /// A call of the program's function with this set.
    pub fn call<W: Watch>(
        &mut self,
        alloc: Global,
        f: &Function,
        set: &WriteSet,
        arguments: &[i128],
        watch: &mut W,
        log: &mut Log,
    ) -> Result<Flow, AllocError>
        requires { length self.old.memory ≤ 65535 }
        ensures part { IsPart (λ choices. called contract_mode (function_view f.now) (set_view set.now) arguments.now (state_view self.old choices)) (state_view self.new) result
            (hearing (W.records watch.old) (W.parts watch.old) log.old)
            (hearing (W.records watch.new) (W.parts watch.new) log.new) }
        ensures few { length self.new.memory ≤ 65535 }
    {
        log.tell(watch, Event::Call(1));
        let outer = mem::replace(&mut self.locals, Vec::new(alloc));
        let flow = self.call_body(alloc, f, set, arguments, watch, log)?;
        self.leave(outer, &flow, watch, log);
        Ok(flow)
    }

    /// The ensures of a call that returned are tested.
    pub fn ensure<W: Watch>(
        &self,
        alloc: Global,
        f: &Function,
        arguments: &[i128],
        flow: &Flow,
        watch: &mut W,
        log: &mut Log,
    ) -> Result<(), AllocError>
        requires { length self.now.memory ≤ 65535 }
        ensures { HasTested (λ notes choices. ensured (function_view f.now) arguments.now (out_of flow.now notes (state_view self.now choices))) (state_view self.now) flow.now result
            (hearing (W.records watch.old) (W.parts watch.old) log.old)
            (hearing (W.records watch.new) (W.parts watch.new) log.new) }
    {
        let Flow::Returned(result) = flow else {
            return Ok(());
        };
        let scope = Scope::Clause(arguments, *result);
        test_ensures(
            alloc,
            f.name.as_slice(),
            &scope,
            &self.memory,
            ensures_of(f),
            watch,
            log,
        )
    }
}
