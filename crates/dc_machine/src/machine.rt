// The machine.
ghost use Rattle.std.specs.Prelude.{◌≡◌, ◌<◌, ◌^◌, ◌+◌, ◌-◌, ◌∷◌, ◌++◌, [], reverse, List, ℕ, ℤ, Option, Some, None, pos, map, length, replicate, nat_lt, true, OnOk, IfOk, slice_get, option_map};
ghost use Rattle.dc_core.specs.Objects.{function_object};
ghost use Rattle.dc_core.specs.View.{term_view};
ghost use Rattle.dc_goto.specs.Acts.{Enters, act as acted, called, defined};
ghost use Rattle.dc_goto.specs.Machine.{proceed, step as plain_step, entered, entered_body, body_of, with_result, caller, left_body, depth_limit, first_registers as registers_of, first_memory as memory_of, first_world};
ghost use Rattle.dc_goto.specs.Program as plain;
ghost use Rattle.dc_goto.specs.View.{instr_view, body_view, goto_view};
ghost use Rattle.dc_memory.specs.declared.object.ObjKind.TheVariants.{Static};
ghost use Rattle.dc_memory.specs.Objects.{holding};
ghost use Rattle.dc_machine.specs.Linked.{linked_view, IsLinked};
ghost use Rattle.dc_machine.specs.Step.{IsStep, IsAlone, running, goes_on};
ghost use Rattle.dc_machine.specs.View.{now_view, name_at, code_at, machine_view};
ghost use Rattle.dc_world.specs.Told.{Hearing, supply};
ghost use Rattle.dc_world.specs.Log.{hearing};
ghost use Rattle.dc_writeset.specs.Sets.{no_sets};

use crate::act::{no_body, undefined};
use crate::now::Now;
use crate::program::Linked;
use dc_choice::{Chooser, Watch};
use dc_core::{NumKind, Term};
use dc_goto::{Body, Instr};
use dc_memory::Store;
use dc_num::bits;
use dc_text::Event;
use dc_value::{Registers, is_true};
use dc_world::{End, Log, Storage, Which, add_function, add_zeros};
use dc_writeset::WriteSets;
use sqlite_items::at;
use std::alloc::{AllocError, Global};
use std::mem;

/// A caller: the number of its body, the place behind its call, its registers and objects, and the register for the result.
#[derive(Drop)]
pub struct Frame {
    pub body: usize,
    pub place: usize,
    pub regs: Registers,
    pub locals: Vec<u64>,
    pub result: Option<u64>,
}

impl Frame {
    // The register for the result takes a value.
    fn take(&mut self, value: Option<i128>) -> Result<(), AllocError>
        ensures { OnOk result (self.new ≡ record self.old { regs = with_result self.old.result value self.old.regs }) }
    {
        if let (Some(register), Some(_)) = (self.result, value) {
            self.regs.put(register, value)?;
        }
        Ok(())
    }
}

/// The running body's number, the place of the next instruction, the callers (innermost last), and what instructions
/// read and change.
#[derive(Drop)]
pub struct Machine {
    pub body: usize,
    pub place: usize,
    pub frames: Vec<Frame>,
    pub now: Now,
}

// That many functions behind the objects of a memory.
fn push_functions(memory: &mut Store, count: usize) -> Result<(), AllocError>
    ensures { OnOk result (memory.new ≡ memory.old ++ replicate count function_object) }
{
    for _at in 0..count {
        add_function(memory)?;
    }
    Ok(())
}

// Variables of zero bytes of these sizes behind the objects of a memory.
fn push_variables(memory: &mut Store, sizes: &[u64]) -> Result<(), AllocError>
    ensures { OnOk result (memory.new ≡ memory.old ++ map (λ size. holding Static (replicate size 0)) sizes.now) }
{
    for size in sizes {
        add_zeros(memory, Storage::Static, *size)?;
    }
    Ok(())
}

// The memory of the start: functions, and variables of zero bytes.
fn first_memory(alloc: Global, p: &Linked) -> Result<Store, AllocError>
    requires { IsLinked p.now }
    ensures { IfOk result (λ memory. memory ≡ memory_of (linked_view p.now)) }
{
    let mut memory = Store::new(alloc);
    push_functions(&mut memory, p.goto.functions.len())?;
    push_variables(&mut memory, p.sizes.as_slice())?;
    Ok(memory)
}

impl Machine {
    /// The start of a body.
    pub fn start(
        alloc: Global,
        p: &Linked,
        number: usize,
        body: &Body,
    ) -> Result<Machine, AllocError>
        requires { IsLinked p.now }
        ensures { IfOk result (λ m. (bodies : List plain.Body) (choices : List ℕ) →
            machine_view bodies m choices
            ≡ record {
              name = name_at (slice_get bodies number);
              code = code_at (slice_get bodies number);
              place = 0;
              frames = [];
              now = record { regs = registers_of (body_view body.now) []; sets = no_sets; seen = []; world = first_world (linked_view p.now) choices };
            }) }
    {
        let memory = first_memory(alloc, p)?;
        let regs = Registers::new(Vec::new(alloc), body.regs);
        Ok(Machine {
            body: number,
            place: 0,
            frames: Vec::new(alloc),
            now: Now {
                regs,
                sets: WriteSets::new(alloc),
                seen: Vec::new(alloc),
                memory,
                locals: Vec::new(alloc),
            },
        })
    }

    // The called body begins.
    fn enter(
        &mut self,
        alloc: Global,
        number: usize,
        body: &Body,
        register: Option<u64>,
        arguments: Vec<Option<i128>>,
    ) -> Result<(), AllocError>
        requires { self.old.place + 1 < 2 ^ 64 }
        ensures { OnOk result ((bodies : List plain.Body) (values : List ℤ) (choices : List ℕ) → arguments.items ≡ map Some values →
            machine_view bodies self.new choices
            ≡ record {
              name = name_at (slice_get bodies number);
              code = code_at (slice_get bodies number);
              place = 0;
              frames = caller (machine_view bodies self.old choices) (now_view self.old.now choices) register ∷ (machine_view bodies self.old choices).frames;
              now =
                  record (now_view self.old.now choices) {
                    regs = registers_of (body_view body.now) values;
                    world = record (now_view self.old.now choices).world { locals = [] };
                  };
            }) }
    {
        self.frames.try_reserve(1)?;
        let regs = Registers::new(arguments, body.regs);
        let frame = Frame {
            body: self.body,
            place: self.place + 1,
            regs: mem::replace(&mut self.now.regs, regs),
            locals: mem::replace(&mut self.now.locals, Vec::new(alloc)),
            result: register,
        };
        self.frames.push_reserved(frame);
        self.body = number;
        self.place = 0;
        Ok(())
    }

    // Enters the body of this name, or ends where there is none.
    fn enter_named(
        &mut self,
        alloc: Global,
        p: &Linked,
        register: Option<u64>,
        callee: &[u8],
        arguments: Vec<Option<i128>>,
    ) -> Result<Option<End>, AllocError>
        requires linked { IsLinked p.now }
        requires place { self.old.place + 1 < 2 ^ 64 }
        ensures { (values : List ℤ) (h : Hearing) → arguments.items ≡ map Some values →
            IsAlone running
            (λ choices. entered_body (machine_view (linked_view p.now).bodies self.old choices) (now_view self.old.now choices) register callee.now values (body_of (linked_view p.now).bodies callee.now))
            (machine_view (linked_view p.now).bodies self.new) result h h }
    {
        let Some(number) = p.bodies.find(callee) else {
            return no_body(alloc, callee);
        };
        let Some(body) = at(p.goto.bodies.as_slice(), number) else {
            return no_body(alloc, callee);
        };
        self.enter(alloc, number, body, register, arguments)?;
        Ok(None)
    }

    // Calls the function of this name with these values.
    fn call_values<W: Watch>(
        &mut self,
        alloc: Global,
        p: &Linked,
        register: Option<u64>,
        callee: &[u8],
        arguments: Vec<Option<i128>>,
        watch: &mut W,
        log: &mut Log,
    ) -> Result<Option<End>, AllocError>
        requires linked { IsLinked p.now }
        requires place { self.old.place + 1 < 2 ^ 64 }
        ensures { (values : List ℤ) → arguments.items ≡ map Some values →
            IsAlone running
            (λ choices. entered (linked_view p.now) (machine_view (linked_view p.now).bodies self.old choices) (now_view self.old.now choices) register callee.now values (nat_lt (length (machine_view (linked_view p.now).bodies self.old choices).frames) depth_limit))
            (machine_view (linked_view p.now).bodies self.new) result
            (hearing (W.records watch.old) (W.parts watch.old) log.old)
            (hearing (W.records watch.new) (W.parts watch.new) log.new) }
    {
        if self.frames.len() >= 1024 {
            return Ok(Some(End::Limit(Which::Depth)));
        }
        let function = p.function_number(callee);
        let end = self.enter_named(alloc, p, register, callee, arguments)?;
        log.tell(watch, Event::Call(function));
        Ok(end)
    }

    // A call with arguments.
    fn call<W: Watch>(
        &mut self,
        alloc: Global,
        p: &Linked,
        name: &[u8],
        register: Option<u64>,
        callee: &[u8],
        arguments: &[Term],
        watch: &mut W,
        log: &mut Log,
    ) -> Result<Option<End>, AllocError>
        requires linked { IsLinked p.now }
        requires place { self.old.place + 1 < 2 ^ 64 }
        ensures { IsAlone running
            (λ choices. proceed (linked_view p.now) (machine_view (linked_view p.now).bodies self.old choices) (acted (linked_view p.now) name.now (plain.Call register callee.now (map term_view arguments.now)) (now_view self.old.now choices)))
            (machine_view (linked_view p.now).bodies self.new) result
            (hearing (W.records watch.old) (W.parts watch.old) log.old)
            (hearing (W.records watch.new) (W.parts watch.new) log.new) }
    {
        match self.now.all_given(alloc, arguments)? {
            None => undefined(alloc, name),
            Some(values) => self.call_values(alloc, p, register, callee, values, watch, log),
        }
    }

    // A call of the function that a pointer is, with these values.
    fn call_pointer<W: Watch>(
        &mut self,
        alloc: Global,
        p: &Linked,
        name: &[u8],
        register: Option<u64>,
        pointer: u64,
        result_kind: Option<NumKind>,
        params: &[NumKind],
        arguments: Vec<Option<i128>>,
        watch: &mut W,
        log: &mut Log,
    ) -> Result<Option<End>, AllocError>
        requires linked { IsLinked p.now }
        requires place { self.old.place + 1 < 2 ^ 64 }
        ensures { (values : List ℤ) → arguments.items ≡ map Some values →
            IsAlone running
            (λ choices. proceed (linked_view p.now) (machine_view (linked_view p.now).bodies self.old choices) (defined name.now (called (linked_view p.now) result_kind params.now pointer) (now_view self.old.now choices) (λ function. Enters register function values (now_view self.old.now choices))))
            (machine_view (linked_view p.now).bodies self.new) result
            (hearing (W.records watch.old) (W.parts watch.old) log.old)
            (hearing (W.records watch.new) (W.parts watch.new) log.new) }
    {
        match p.called(result_kind, params, pointer) {
            None => undefined(alloc, name),
            Some(callee) => self.call_values(alloc, p, register, callee, arguments, watch, log),
        }
    }

    // A call through a pointer, with arguments.
    fn call_through<W: Watch>(
        &mut self,
        alloc: Global,
        p: &Linked,
        name: &[u8],
        register: Option<u64>,
        pointer: &Term,
        result_kind: Option<NumKind>,
        params: &[NumKind],
        arguments: &[Term],
        watch: &mut W,
        log: &mut Log,
    ) -> Result<Option<End>, AllocError>
        requires linked { IsLinked p.now }
        requires place { self.old.place + 1 < 2 ^ 64 }
        ensures { IsAlone running
            (λ choices. proceed (linked_view p.now) (machine_view (linked_view p.now).bodies self.old choices) (acted (linked_view p.now) name.now (plain.CallThrough register (term_view pointer.now) result_kind params.now (map term_view arguments.now)) (now_view self.old.now choices)))
            (machine_view (linked_view p.now).bodies self.new) result
            (hearing (W.records watch.old) (W.parts watch.old) log.old)
            (hearing (W.records watch.new) (W.parts watch.new) log.new) }
    {
        let Some(pointer) = self.now.asked(pointer)? else {
            return undefined(alloc, name);
        };
        let pointer = bits(NumKind::Ptr, pointer);
        match self.now.all_given(alloc, arguments)? {
            None => undefined(alloc, name),
            Some(values) => self.call_pointer(
                alloc,
                p,
                name,
                register,
                pointer,
                result_kind,
                params,
                values,
                watch,
                log,
            ),
        }
    }

    // Back in a caller.
    fn resume(&mut self, frame: Frame)
        ensures { (bodies : List plain.Body) (choices : List ℕ) →
            machine_view bodies self.new choices
            ≡ record {
              name = name_at (slice_get bodies frame.body);
              code = code_at (slice_get bodies frame.body);
              place = frame.place;
              frames = (machine_view bodies self.old choices).frames;
              now =
                  record (now_view self.old.now choices) {
                    regs = frame.regs;
                    world = record (now_view self.old.now choices).world { locals = reverse frame.locals.items };
                  };
            } }
    {
        let Frame {
            body,
            place,
            regs,
            locals,
            result: _,
        } = frame;
        self.body = body;
        self.place = place;
        self.now.regs = regs;
        self.now.locals = locals;
    }

    // The running body is left with a value or none.
    fn leave<W: Watch>(
        &mut self,
        value: Option<i128>,
        watch: &mut W,
        log: &mut Log,
    ) -> Result<Option<End>, AllocError>
        ensures { (bodies : List plain.Body) →
            IsAlone running (λ choices. left_body (now_view self.old.now choices) value (machine_view bodies self.old choices).frames) (machine_view bodies self.new) result
            (hearing (W.records watch.old) (W.parts watch.old) log.old)
            (hearing (W.records watch.new) (W.parts watch.new) log.new) }
    {
        let Some(mut frame) = self.frames.pop() else {
            self.now.kill_locals(watch, log);
            return Ok(Some(End::Returned(value)));
        };
        frame.take(value)?;
        self.now.kill_locals(watch, log);
        log.tell(watch, Event::Return);
        self.resume(frame);
        Ok(None)
    }

    // A return.
    fn return_value<W: Watch>(
        &mut self,
        alloc: Global,
        name: &[u8],
        value: &Option<Term>,
        watch: &mut W,
        log: &mut Log,
    ) -> Result<Option<End>, AllocError>
        ensures { (p : plain.GotoProgram) →
            IsAlone running
            (λ choices. proceed p (machine_view p.bodies self.old choices) (acted p name.now (plain.Return (option_map term_view value.now)) (now_view self.old.now choices)))
            (machine_view p.bodies self.new) result
            (hearing (W.records watch.old) (W.parts watch.old) log.old)
            (hearing (W.records watch.new) (W.parts watch.new) log.new) }
    {
        match value {
            None => self.leave(None, watch, log),
            Some(term) => {
                let held = self.now.asked(term)?;
                match held {
                    None => undefined(alloc, name),
                    Some(_) => self.leave(held, watch, log),
                }
            }
        }
    }

    // A jump.
    fn jump(&mut self, place: u64) -> Result<Option<End>, AllocError>
        ensures { (p : plain.GotoProgram) (name : List ℕ) (h : Hearing) →
            IsAlone running
            (λ choices. proceed p (machine_view p.bodies self.old choices) (acted p name (plain.Goto place) (now_view self.old.now choices)))
            (machine_view p.bodies self.new) result h h }
    {
        self.place = place as usize;
        Ok(None)
    }

    // A jump where the value is 0, and on to the next place where it isn't.
    fn branch(
        &mut self,
        alloc: Global,
        name: &[u8],
        test: &Term,
        place: u64,
    ) -> Result<Option<End>, AllocError>
        requires { self.old.place + 1 < 2 ^ 64 }
        ensures { (p : plain.GotoProgram) (h : Hearing) →
            IsAlone running
            (λ choices. proceed p (machine_view p.bodies self.old choices) (acted p name.now (plain.IfNot (term_view test.now) place) (now_view self.old.now choices)))
            (machine_view p.bodies self.new) result h h }
    {
        match self.now.asked(test)? {
            None => undefined(alloc, name),
            Some(z) => {
                if is_true(z) {
                    self.place += 1;
                    return Ok(None);
                }
                self.place = place as usize;
                Ok(None)
            }
        }
    }

    // An instruction that goes on to the next place.
    fn act<C: Chooser, W: Watch>(
        &mut self,
        alloc: Global,
        p: &Linked,
        name: &[u8],
        instr: &Instr,
        chooser: &mut C,
        used: &mut Vec<u64>,
        watch: &mut W,
        log: &mut Log,
    ) -> Result<Option<End>, AllocError>
        requires linked { IsLinked p.now }
        requires place { self.old.place + 1 < 2 ^ 64 }
        ensures { goes_on (instr_view instr.now) ≡ true →
            IsStep running
            (λ choices. proceed (linked_view p.now) (machine_view (linked_view p.now).bodies self.old choices) (acted (linked_view p.now) name.now (instr_view instr.now) (now_view self.old.now choices)))
            (machine_view (linked_view p.now).bodies self.new) result
            (supply (C.left chooser.old) (C.given chooser.old) (C.dry chooser.old) used.old.items)
            (supply (C.left chooser.new) (C.given chooser.new) (C.dry chooser.new) used.new.items)
            (hearing (W.records watch.old) (W.parts watch.old) log.old)
            (hearing (W.records watch.new) (W.parts watch.new) log.new) }
    {
        let end = self
            .now
            .act(alloc, p, name, instr, chooser, used, watch, log)?;
        match end {
            None => {
                self.place += 1;
                Ok(None)
            }
            Some(end) => Ok(Some(end)),
        }
    }

    // An instruction of the body of this name.
    fn perform<C: Chooser, W: Watch>(
        &mut self,
        alloc: Global,
        p: &Linked,
        name: &[u8],
        instr: &Instr,
        chooser: &mut C,
        used: &mut Vec<u64>,
        watch: &mut W,
        log: &mut Log,
    ) -> Result<Option<End>, AllocError>
        requires linked { IsLinked p.now }
        requires place { self.old.place + 1 < 2 ^ 64 }
        ensures { IsStep running
            (λ choices. proceed (linked_view p.now) (machine_view (linked_view p.now).bodies self.old choices) (acted (linked_view p.now) name.now (instr_view instr.now) (now_view self.old.now choices)))
            (machine_view (linked_view p.now).bodies self.new) result
            (supply (C.left chooser.old) (C.given chooser.old) (C.dry chooser.old) used.old.items)
            (supply (C.left chooser.new) (C.given chooser.new) (C.dry chooser.new) used.new.items)
            (hearing (W.records watch.old) (W.parts watch.old) log.old)
            (hearing (W.records watch.new) (W.parts watch.new) log.new) }
    {
        match instr {
            Instr::Call(register, callee, arguments) => {
                self.call(
                    alloc,
                    p,
                    name,
                    *register,
                    callee.as_slice(),
                    arguments.as_slice(),
                    watch,
                    log,
                )
            }
            Instr::CallThrough(register, pointer, result, params, arguments) => {
                self.call_through(
                    alloc,
                    p,
                    name,
                    *register,
                    pointer,
                    *result,
                    params.as_slice(),
                    arguments.as_slice(),
                    watch,
                    log,
                )
            }
            Instr::Return(value) => self.return_value(alloc, name, value, watch, log),
            Instr::Goto(place) => self.jump(*place),
            Instr::IfNot(test, place) => self.branch(alloc, name, test, *place),
            other => self.act(alloc, p, name, other, chooser, used, watch, log),
        }
    }

    /// One step.
    pub fn step<C: Chooser, W: Watch>(
        &mut self,
        alloc: Global,
        p: &Linked,
        chooser: &mut C,
        used: &mut Vec<u64>,
        watch: &mut W,
        log: &mut Log,
    ) -> Result<Option<End>, AllocError>
        requires { IsLinked p.now }
        ensures { IsStep running (λ choices. plain_step (linked_view p.now) (machine_view (linked_view p.now).bodies self.old choices)) (machine_view (linked_view p.now).bodies self.new) result
            (supply (C.left chooser.old) (C.given chooser.old) (C.dry chooser.old) used.old.items)
            (supply (C.left chooser.new) (C.given chooser.new) (C.dry chooser.new) used.new.items)
            (hearing (W.records watch.old) (W.parts watch.old) log.old)
            (hearing (W.records watch.new) (W.parts watch.new) log.new) }
    {
        let Some(body) = at(p.goto.bodies.as_slice(), self.body) else {
            return undefined(alloc, b"");
        };
        match at(body.code.as_slice(), self.place) {
            None => undefined(alloc, body.name.as_slice()),
            Some(instr) => self.perform(
                alloc,
                p,
                body.name.as_slice(),
                instr,
                chooser,
                used,
                watch,
                log,
            ),
        }
    }
}
