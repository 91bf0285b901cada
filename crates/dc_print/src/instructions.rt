// Instructions as text.
ghost use Rattle.std.specs.Prelude.{◌≡◌, ◌++◌, OnOk};
ghost use Rattle.dc_goto.specs.View.{instr_view};
ghost use Rattle.dc_goto.specs.Text.{instr_line};

use crate::checks::{put_assert, put_assume, put_check, put_require};
use crate::flow::{put_call, put_call_through, put_goto, put_if_not, put_return};
use crate::memory::{put_copy, put_fill, put_init, put_probe, put_store};
use crate::objects::{put_alloc, put_free, put_kill, put_local};
use crate::registers::{put_draw, put_keep, put_set};
use crate::sets::{put_covers, put_inside, put_may_free, put_range, put_target};
use dc_goto::Instr;
use std::alloc::{AllocError, Global};

/// Adds the line of an instruction.
pub fn put_instr(alloc: Global, out: &mut Vec<u8>, instr: &Instr) -> Result<(), AllocError>
    ensures { OnOk result (out.new.items ≡ out.old.items ++ instr_line (instr_view instr.now)) }
{
    match instr {
        Instr::Set(r, value) => put_set(alloc, out, *r, value),
        Instr::Keep(r, value) => put_keep(alloc, out, *r, value),
        Instr::Draw(r, kind) => put_draw(alloc, out, *r, *kind),
        Instr::Store(kind, address, value) => put_store(alloc, out, *kind, address, value),
        Instr::Init(kind, address, value) => put_init(alloc, out, *kind, address, value),
        Instr::Copy(to, from, len) => put_copy(alloc, out, to, from, len),
        Instr::Fill(to, byte, len) => put_fill(alloc, out, to, byte, len),
        Instr::Probe(sharing, one, other, len) => put_probe(alloc, out, *sharing, one, other, len),
        Instr::Local(r, size, bytes) => put_local(alloc, out, *r, *size, *bytes),
        Instr::Kill(locals) => put_kill(alloc, out, *locals),
        Instr::Alloc(r, count, size, bytes) => put_alloc(alloc, out, *r, count, size, *bytes),
        Instr::Free(pointer) => put_free(alloc, out, pointer),
        Instr::Trap => out.extend_from_slice(b"trap"),
        Instr::Goto(place) => put_goto(alloc, out, *place),
        Instr::IfNot(test, place) => put_if_not(alloc, out, test, *place),
        Instr::Call(r, name, arguments) => put_call(
            alloc,
            out,
            r,
            name.as_slice(),
            arguments.as_slice(),
        ),
        Instr::CallThrough(r, pointer, result_kind, params, arguments) => put_call_through(
            alloc,
            out,
            r,
            pointer,
            result_kind,
            params.as_slice(),
            arguments.as_slice(),
        ),
        Instr::Return(value) => put_return(alloc, out, value),
        Instr::Assert(name, test) => put_assert(alloc, out, name.as_slice(), test),
        Instr::Check(name, test) => put_check(alloc, out, name.as_slice(), test),
        Instr::Assume(test) => put_assume(alloc, out, test),
        Instr::Require(test) => put_require(alloc, out, test),
        Instr::Push => out.extend_from_slice(b"push"),
        Instr::Pop => out.extend_from_slice(b"pop"),
        Instr::Range(tag, condition, address, len) => put_range(
            alloc, out, *tag, condition, address, len,
        ),
        Instr::Target(tag, condition, pointer) => put_target(alloc, out, *tag, condition, pointer),
        Instr::Covers(name, address, len) => put_covers(alloc, out, name.as_slice(), address, len),
        Instr::MayFree(name, pointer) => put_may_free(alloc, out, name.as_slice(), pointer),
        Instr::Inside(name, tag) => put_inside(alloc, out, name.as_slice(), *tag),
        Instr::Seen => out.extend_from_slice(b"seen"),
        Instr::Havoc => out.extend_from_slice(b"havoc"),
        Instr::Frees => out.extend_from_slice(b"frees"),
        Instr::Statics => out.extend_from_slice(b"statics"),
        Instr::OutsideObjects => out.extend_from_slice(b"objects 4"),
        Instr::NewObjects => out.extend_from_slice(b"objects 3"),
    }
}
