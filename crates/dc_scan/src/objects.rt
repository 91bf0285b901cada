// Instructions of a text on objects.
ghost use Rattle.std.specs.Prelude.{◌≡◌, IfOk, IsErrOf, None};
ghost use Rattle.dc_goto.specs.Program as plain;
ghost use Rattle.dc_goto.specs.Reading.{bytes_of, got, read_four, read_low, read_number, read_object_word as object_read, read_one, read_three, read_word};
ghost use Rattle.dc_goto.specs.View.{instr_view};
ghost use Rattle.dc_scan.specs.declared.form.Form.TheVariants.{NoForm};

use crate::control::read_control;
use crate::cursor::Cursor;
use crate::expressions::next_term;
use crate::form::Form;
use crate::pieces::{next_bytes, next_number};
use crate::sequence::both;
use dc_goto::Instr;
use std::alloc::Global;

// A stack object.
fn read_local(cursor: &mut Cursor) -> Result<Instr, Form>
    ensures found { IfOk result (λ i. read_three read_number read_number (read_word bytes_of) plain.Local cursor.old ≡ got (instr_view i) cursor.new) }
    ensures none { IsErrOf result NoForm → read_three read_number read_number (read_word bytes_of) plain.Local cursor.old ≡ None }
{
    let register = next_number(cursor)?;
    let size = next_number(cursor)?;
    let bytes = next_bytes(cursor)?;
    Ok(Instr::Local(register, size, bytes))
}

// The locals beyond the first so many die.
fn read_kill(cursor: &mut Cursor) -> Result<Instr, Form>
    ensures found { IfOk result (λ i. read_one read_number plain.Kill cursor.old ≡ got (instr_view i) cursor.new) }
    ensures none { IsErrOf result NoForm → read_one read_number plain.Kill cursor.old ≡ None }
{
    let locals = next_number(cursor)?;
    Ok(Instr::Kill(locals))
}

// A heap object.
fn read_alloc(alloc: Global, cursor: &mut Cursor) -> Result<Instr, Form>
    ensures found { IfOk result (λ i. read_four read_number read_low read_low (read_word bytes_of) plain.Alloc cursor.old ≡ got (instr_view i) cursor.new) }
    ensures none { IsErrOf result NoForm → read_four read_number read_low read_low (read_word bytes_of) plain.Alloc cursor.old ≡ None }
{
    let register = next_number(cursor)?;
    let count = next_term(alloc, cursor)?;
    let (count, size) = both(count, next_term(alloc, cursor))?;
    let ((count, size), bytes) = both((count, size), next_bytes(cursor))?;
    Ok(Instr::Alloc(register, count, size, bytes))
}

// A heap object dies.
fn read_free(alloc: Global, cursor: &mut Cursor) -> Result<Instr, Form>
    ensures found { IfOk result (λ i. read_one read_low plain.Free cursor.old ≡ got (instr_view i) cursor.new) }
    ensures none { IsErrOf result NoForm → read_one read_low plain.Free cursor.old ≡ None }
{
    let pointer = next_term(alloc, cursor)?;
    Ok(Instr::Free(pointer))
}

/// An instruction on objects, or another that isn't on registers and bytes, behind its first word.
pub fn read_object_word(alloc: Global, word: &[u8], cursor: &mut Cursor) -> Result<Instr, Form>
    ensures found { IfOk result (λ i. object_read word.now cursor.old ≡ got (instr_view i) cursor.new) }
    ensures none { IsErrOf result NoForm → object_read word.now cursor.old ≡ None }
{
    if word == b"local".as_slice() {
        read_local(cursor)
    } else if word == b"kill".as_slice() {
        read_kill(cursor)
    } else if word == b"alloc".as_slice() {
        read_alloc(alloc, cursor)
    } else if word == b"free".as_slice() {
        read_free(alloc, cursor)
    } else {
        read_control(alloc, word, cursor)
    }
}
