// Instructions of a text that say where the run goes on.
ghost use Rattle.std.specs.Prelude.{◌≡◌, IfOk, IsErrOf, None};
ghost use Rattle.dc_text.specs.Words.{is_word};
ghost use Rattle.dc_goto.specs.Program as plain;
ghost use Rattle.dc_goto.specs.Reading.{got, read_call_through as call_through_read, read_control as control_read, read_list, read_low, read_name, read_number, read_one, read_return as return_read, read_two, read_word, register_of};
ghost use Rattle.dc_goto.specs.View.{instr_view};
ghost use Rattle.dc_scan.specs.declared.form.Form.TheVariants.{NoForm};

use crate::checks::read_test;
use crate::cursor::Cursor;
use crate::expressions::{next_term, next_terms};
use crate::form::Form;
use crate::pieces::{next_name, next_number, next_register};
use crate::sequence::both;
use crate::signatures::{Signature, next_signature};
use dc_goto::Instr;
use std::alloc::Global;

// Another place is next.
fn read_goto(cursor: &mut Cursor) -> Result<Instr, Form>
    ensures found { IfOk result (λ i. read_one read_number plain.Goto cursor.old ≡ got (instr_view i) cursor.new) }
    ensures none { IsErrOf result NoForm → read_one read_number plain.Goto cursor.old ≡ None }
{
    let place = next_number(cursor)?;
    Ok(Instr::Goto(place))
}

// Another place is next where the value is 0.
fn read_if_not(alloc: Global, cursor: &mut Cursor) -> Result<Instr, Form>
    ensures found { IfOk result (λ i. read_two read_low read_number plain.IfNot cursor.old ≡ got (instr_view i) cursor.new) }
    ensures none { IsErrOf result NoForm → read_two read_low read_number plain.IfNot cursor.old ≡ None }
{
    let test = next_term(alloc, cursor)?;
    let (test, place) = both(test, next_number(cursor))?;
    Ok(Instr::IfNot(test, place))
}

// A call.
fn read_call(alloc: Global, cursor: &mut Cursor) -> Result<Instr, Form>
    ensures found { IfOk result (λ i. read_list (read_word register_of) (read_name is_word) read_low plain.Call cursor.old ≡ got (instr_view i) cursor.new) }
    ensures none { IsErrOf result NoForm → read_list (read_word register_of) (read_name is_word) read_low plain.Call cursor.old ≡ None }
{
    let register = next_register(cursor)?;
    let name = next_name(alloc, cursor)?;
    let (name, arguments) = both(name, next_terms(alloc, cursor))?;
    Ok(Instr::Call(register, name, arguments))
}

// A call through a pointer.
fn read_call_through(alloc: Global, cursor: &mut Cursor) -> Result<Instr, Form>
    ensures found { IfOk result (λ i. call_through_read cursor.old ≡ got (instr_view i) cursor.new) }
    ensures none { IsErrOf result NoForm → call_through_read cursor.old ≡ None }
{
    let register = next_register(cursor)?;
    let pointer = next_term(alloc, cursor)?;
    let (pointer, signature) = both(pointer, next_signature(alloc, cursor))?;
    let ((pointer, signature), arguments) = both((pointer, signature), next_terms(alloc, cursor))?;
    let Signature { result, params } = signature;
    Ok(Instr::CallThrough(register, pointer, result, params, arguments))
}

// Back to the caller.
fn read_return(alloc: Global, cursor: &mut Cursor) -> Result<Instr, Form>
    ensures found { IfOk result (λ i. return_read cursor.old ≡ got (instr_view i) cursor.new) }
    ensures none { IsErrOf result NoForm → return_read cursor.old ≡ None }
{
    if !cursor.begins_with(b' ') {
        return Ok(Instr::Return(None));
    }
    let value = next_term(alloc, cursor)?;
    Ok(Instr::Return(Some(value)))
}

/// An instruction that says where the run goes on, or one of tests, the outside and write sets, behind its first word.
pub fn read_control(alloc: Global, word: &[u8], cursor: &mut Cursor) -> Result<Instr, Form>
    ensures found { IfOk result (λ i. control_read word.now cursor.old ≡ got (instr_view i) cursor.new) }
    ensures none { IsErrOf result NoForm → control_read word.now cursor.old ≡ None }
{
    if word == b"trap".as_slice() {
        Ok(Instr::Trap)
    } else if word == b"goto".as_slice() {
        read_goto(cursor)
    } else if word == b"ifnot".as_slice() {
        read_if_not(alloc, cursor)
    } else if word == b"call".as_slice() {
        read_call(alloc, cursor)
    } else if word == b"callp".as_slice() {
        read_call_through(alloc, cursor)
    } else if word == b"return".as_slice() {
        read_return(alloc, cursor)
    } else {
        read_test(alloc, word, cursor)
    }
}
