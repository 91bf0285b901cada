// Instructions of a text on write sets.
ghost use Rattle.std.specs.Prelude.{◌≡◌, IfOk, IsErrOf, None};
ghost use Rattle.dc_goto.specs.Program as plain;
ghost use Rattle.dc_goto.specs.Reading.{got, read_check_name, read_four, read_low, read_number, read_set_word as set_read, read_three, read_two};
ghost use Rattle.dc_goto.specs.View.{instr_view};
ghost use Rattle.dc_scan.specs.declared.form.Form.TheVariants.{NoForm};

use crate::cursor::Cursor;
use crate::expressions::next_term;
use crate::form::Form;
use crate::pieces::{next_check_name, next_number};
use crate::sequence::both;
use dc_goto::Instr;
use std::alloc::Global;

// A range of the innermost set.
fn read_range(alloc: Global, cursor: &mut Cursor) -> Result<Instr, Form>
    ensures found { IfOk result (λ i. read_four read_number read_low read_low read_low plain.Range cursor.old ≡ got (instr_view i) cursor.new) }
    ensures none { IsErrOf result NoForm → read_four read_number read_low read_low read_low plain.Range cursor.old ≡ None }
{
    let tag = next_number(cursor)?;
    let condition = next_term(alloc, cursor)?;
    let (condition, address) = both(condition, next_term(alloc, cursor))?;
    let ((condition, address), len) = both((condition, address), next_term(alloc, cursor))?;
    Ok(Instr::Range(tag, condition, address, len))
}

// An object of the innermost set that may be freed.
fn read_target(alloc: Global, cursor: &mut Cursor) -> Result<Instr, Form>
    ensures found { IfOk result (λ i. read_three read_number read_low read_low plain.Target cursor.old ≡ got (instr_view i) cursor.new) }
    ensures none { IsErrOf result NoForm → read_three read_number read_low read_low plain.Target cursor.old ≡ None }
{
    let tag = next_number(cursor)?;
    let condition = next_term(alloc, cursor)?;
    let (condition, pointer) = both(condition, next_term(alloc, cursor))?;
    Ok(Instr::Target(tag, condition, pointer))
}

// The write of a length at an address is allowed.
fn read_covers(alloc: Global, cursor: &mut Cursor) -> Result<Instr, Form>
    ensures found { IfOk result (λ i. read_three read_check_name read_low read_low plain.Covers cursor.old ≡ got (instr_view i) cursor.new) }
    ensures none { IsErrOf result NoForm → read_three read_check_name read_low read_low plain.Covers cursor.old ≡ None }
{
    let name = next_check_name(alloc, cursor)?;
    let (name, address) = both(name, next_term(alloc, cursor))?;
    let ((name, address), len) = both((name, address), next_term(alloc, cursor))?;
    Ok(Instr::Covers(name, address, len))
}

// The free of a pointer is allowed.
fn read_may_free(alloc: Global, cursor: &mut Cursor) -> Result<Instr, Form>
    ensures found { IfOk result (λ i. read_two read_check_name read_low plain.MayFree cursor.old ≡ got (instr_view i) cursor.new) }
    ensures none { IsErrOf result NoForm → read_two read_check_name read_low plain.MayFree cursor.old ≡ None }
{
    let name = next_check_name(alloc, cursor)?;
    let (name, pointer) = both(name, next_term(alloc, cursor))?;
    Ok(Instr::MayFree(name, pointer))
}

// What has the tag is inside the next set.
fn read_inside(alloc: Global, cursor: &mut Cursor) -> Result<Instr, Form>
    ensures found { IfOk result (λ i. read_two read_check_name read_number plain.Inside cursor.old ≡ got (instr_view i) cursor.new) }
    ensures none { IsErrOf result NoForm → read_two read_check_name read_number plain.Inside cursor.old ≡ None }
{
    let name = next_check_name(alloc, cursor)?;
    let (name, tag) = both(name, next_number(cursor))?;
    Ok(Instr::Inside(name, tag))
}

/// An instruction on write sets, behind its first word.
pub fn read_set_word(alloc: Global, word: &[u8], cursor: &mut Cursor) -> Result<Instr, Form>
    ensures found { IfOk result (λ i. set_read word.now cursor.old ≡ got (instr_view i) cursor.new) }
    ensures none { IsErrOf result NoForm → set_read word.now cursor.old ≡ None }
{
    if word == b"push".as_slice() {
        Ok(Instr::Push)
    } else if word == b"pop".as_slice() {
        Ok(Instr::Pop)
    } else if word == b"range".as_slice() {
        read_range(alloc, cursor)
    } else if word == b"target".as_slice() {
        read_target(alloc, cursor)
    } else if word == b"covers".as_slice() {
        read_covers(alloc, cursor)
    } else if word == b"mayfree".as_slice() {
        read_may_free(alloc, cursor)
    } else if word == b"inside".as_slice() {
        read_inside(alloc, cursor)
    } else if word == b"seen".as_slice() {
        Ok(Instr::Seen)
    } else if word == b"havoc".as_slice() {
        Ok(Instr::Havoc)
    } else if word == b"frees".as_slice() {
        Ok(Instr::Frees)
    } else {
        Err(Form::NoForm)
    }
}
