// The rules for single instructions.
ghost use Rattle.std.specs.Prelude.{◌≡◌};
ghost use Rattle.std.specs.Option.{option_map};
ghost use Rattle.dc_core.specs.View.{term_view};
ghost use Rattle.dc_goto.specs.Shape.{leaves as instr_leaves, may_act as acts, may_call as calls, may_pass as passes, may_return as returns, may_take as takes};
ghost use Rattle.dc_goto.specs.View.{instr_view, sig_view};
ghost use Rattle.dc_scan.specs.View.{head_view};

use crate::functions::Functions;
use crate::lines::BodyHead;
use crate::term_rules::{all_mean, is_size, may_give, may_mean, three_mean, two_mean};
use dc_core::{NumKind, Term};
use dc_goto::{Instr, Sig};

// Whether the register, which may be left away, is one of the body's.
fn may_take(regs: u64, register: &Option<u64>) -> bool
    ensures { result ≡ takes regs register.now }
{
    match register {
        None => true,
        Some(register) => *register < regs,
    }
}

// Whether a call has as many arguments as there are parameters, and no register where nothing is given.
fn may_pass(
    gives: &Option<NumKind>,
    params: &[NumKind],
    register: &Option<u64>,
    arguments: usize,
) -> bool
    ensures { result ≡ passes gives.now params.now register.now arguments }
{
    arguments == params.len() && (gives.is_some() || !register.is_some())
}

// Whether the called function is listed, and its call passes what it takes.
fn may_call(function: Option<&Sig>, register: &Option<u64>, arguments: usize) -> bool
    ensures { result ≡ calls (option_map (λ sig. sig_view sig.now) function.entry) register.now arguments }
{
    match function {
        Some(sig) => may_pass(&sig.result, sig.params.as_slice(), register, arguments),
        None => false,
    }
}

// Whether a return has a value exactly where the function gives one.
fn may_return(function: Option<&Sig>, value: &Option<Term>) -> bool
    ensures { result ≡ returns (option_map (λ sig. sig_view sig.now) function.entry) (option_map term_view value.now) }
{
    let Some(sig) = function else {
        return true;
    };
    match value {
        None => !sig.result.is_some(),
        Some(_) => sig.result.is_some(),
    }
}

/// Whether an instruction keeps the rules in a body of so many instructions, where those functions and that many objects are.
pub fn may_act<'a>(
    functions: &Functions<'a>,
    objects: u64,
    head: &'a BodyHead,
    count: u64,
    instr: &'a Instr,
) -> bool
    ensures { result ≡ acts functions.now objects (head_view head.now) count (instr_view instr.now) }
{
    let regs = head.regs;
    match instr {
        Instr::Set(register, value) => *register < regs && may_mean(objects, regs, value),
        Instr::Keep(register, value) => *register < regs && may_mean(objects, regs, value),
        Instr::Draw(register, _) => *register < regs,
        Instr::Store(_, address, value) => two_mean(objects, regs, address, value),
        Instr::Init(_, address, value) => two_mean(objects, regs, address, value),
        Instr::Copy(to, from, len) => three_mean(objects, regs, to, from, len),
        Instr::Fill(to, byte, len) => three_mean(objects, regs, to, byte, len),
        Instr::Probe(_, one, other, len) => three_mean(objects, regs, one, other, len),
        Instr::Local(register, size, _) => *register < regs && is_size(*size),
        Instr::Alloc(register, count, size, _) => {
            *register < regs && two_mean(objects, regs, count, size)
        }
        Instr::Free(pointer) => may_mean(objects, regs, pointer),
        Instr::Goto(place) => *place < count,
        Instr::IfNot(test, place) => may_mean(objects, regs, test) && *place < count,
        Instr::Call(register, name, arguments) => {
            may_call(functions.find(name.as_slice()), register, arguments.len())
                && may_take(regs, register)
                && all_mean(objects, regs, arguments.as_slice())
        }
        Instr::CallThrough(register, pointer, result, params, arguments) => {
            may_pass(result, params.as_slice(), register, arguments.len())
                && may_take(regs, register)
                && may_mean(objects, regs, pointer)
                && all_mean(objects, regs, arguments.as_slice())
        }
        Instr::Return(value) => {
            may_return(functions.find(head.name.as_slice()), value)
                && may_give(objects, regs, value)
        }
        Instr::Assert(_, test) => may_mean(objects, regs, test),
        Instr::Check(_, test) => may_mean(objects, regs, test),
        Instr::Assume(test) => may_mean(objects, regs, test),
        Instr::Require(test) => may_mean(objects, regs, test),
        Instr::Range(_, condition, address, len) => {
            three_mean(objects, regs, condition, address, len)
        }
        Instr::Target(_, condition, pointer) => two_mean(objects, regs, condition, pointer),
        Instr::Covers(_, address, len) => two_mean(objects, regs, address, len),
        Instr::MayFree(_, pointer) => may_mean(objects, regs, pointer),
        Instr::Kill(_)
        | Instr::Trap
        | Instr::Push
        | Instr::Pop
        | Instr::Inside(_, _)
        | Instr::Seen
        | Instr::Havoc
        | Instr::Frees
        | Instr::Statics
        | Instr::OutsideObjects
        | Instr::NewObjects => true,
    }
}

/// Whether the instruction leaves its body, or the place behind it.
pub fn leaves(instr: &Instr) -> bool
    ensures { result ≡ instr_leaves (instr_view instr.now) }
{
    match instr {
        Instr::Return(_) | Instr::Goto(_) | Instr::Trap => true,
        _ => false,
    }
}
