// Instructions of a text: those on registers and bytes.
ghost use Rattle.std.specs.Prelude.{◌≡◌, IfOk, IsErrOf, None};
ghost use Rattle.dc_goto.specs.Program as plain;
ghost use Rattle.dc_goto.specs.Reading.{got, read_four, read_instr as instr_read, read_kind, read_low, read_number, read_three, read_two, read_word, sharing_of};
ghost use Rattle.dc_goto.specs.View.{instr_view};
ghost use Rattle.dc_scan.specs.declared.form.Form.TheVariants.{NoForm};

use crate::cursor::Cursor;
use crate::expressions::next_term;
use crate::form::Form;
use crate::objects::read_object_word;
use crate::pieces::{next_kind, next_number, next_sharing};
use crate::sequence::both;
use dc_goto::Instr;
use std::alloc::Global;

// A value put into a register.
fn read_set(alloc: Global, cursor: &mut Cursor) -> Result<Instr, Form>
    ensures found { IfOk result (λ i. read_two read_number read_low plain.Set cursor.old ≡ got (instr_view i) cursor.new) }
    ensures none { IsErrOf result NoForm → read_two read_number read_low plain.Set cursor.old ≡ None }
{
    let register = next_number(cursor)?;
    let value = next_term(alloc, cursor)?;
    Ok(Instr::Set(register, value))
}

// A value, or none, kept in a register.
fn read_keep(alloc: Global, cursor: &mut Cursor) -> Result<Instr, Form>
    ensures found { IfOk result (λ i. read_two read_number read_low plain.Keep cursor.old ≡ got (instr_view i) cursor.new) }
    ensures none { IsErrOf result NoForm → read_two read_number read_low plain.Keep cursor.old ≡ None }
{
    let register = next_number(cursor)?;
    let value = next_term(alloc, cursor)?;
    Ok(Instr::Keep(register, value))
}

// A value of a kind drawn into a register.
fn read_draw(cursor: &mut Cursor) -> Result<Instr, Form>
    ensures found { IfOk result (λ i. read_two read_number read_kind plain.Draw cursor.old ≡ got (instr_view i) cursor.new) }
    ensures none { IsErrOf result NoForm → read_two read_number read_kind plain.Draw cursor.old ≡ None }
{
    let register = next_number(cursor)?;
    let kind = next_kind(cursor)?;
    Ok(Instr::Draw(register, kind))
}

// A value written at an address.
fn read_store(alloc: Global, cursor: &mut Cursor) -> Result<Instr, Form>
    ensures found { IfOk result (λ i. read_three read_kind read_low read_low plain.Store cursor.old ≡ got (instr_view i) cursor.new) }
    ensures none { IsErrOf result NoForm → read_three read_kind read_low read_low plain.Store cursor.old ≡ None }
{
    let kind = next_kind(cursor)?;
    let address = next_term(alloc, cursor)?;
    let (address, value) = both(address, next_term(alloc, cursor))?;
    Ok(Instr::Store(kind, address, value))
}

// A value written at an address, which is no event.
fn read_init(alloc: Global, cursor: &mut Cursor) -> Result<Instr, Form>
    ensures found { IfOk result (λ i. read_three read_kind read_low read_low plain.Init cursor.old ≡ got (instr_view i) cursor.new) }
    ensures none { IsErrOf result NoForm → read_three read_kind read_low read_low plain.Init cursor.old ≡ None }
{
    let kind = next_kind(cursor)?;
    let address = next_term(alloc, cursor)?;
    let (address, value) = both(address, next_term(alloc, cursor))?;
    Ok(Instr::Init(kind, address, value))
}

// Bytes copied from one address to another.
fn read_copy(alloc: Global, cursor: &mut Cursor) -> Result<Instr, Form>
    ensures found { IfOk result (λ i. read_three read_low read_low read_low plain.Copy cursor.old ≡ got (instr_view i) cursor.new) }
    ensures none { IsErrOf result NoForm → read_three read_low read_low read_low plain.Copy cursor.old ≡ None }
{
    let to = next_term(alloc, cursor)?;
    let (to, from) = both(to, next_term(alloc, cursor))?;
    let ((to, from), len) = both((to, from), next_term(alloc, cursor))?;
    Ok(Instr::Copy(to, from, len))
}

// A byte written so often at an address.
fn read_fill(alloc: Global, cursor: &mut Cursor) -> Result<Instr, Form>
    ensures found { IfOk result (λ i. read_three read_low read_low read_low plain.Fill cursor.old ≡ got (instr_view i) cursor.new) }
    ensures none { IsErrOf result NoForm → read_three read_low read_low read_low plain.Fill cursor.old ≡ None }
{
    let to = next_term(alloc, cursor)?;
    let (to, byte) = both(to, next_term(alloc, cursor))?;
    let ((to, byte), len) = both((to, byte), next_term(alloc, cursor))?;
    Ok(Instr::Fill(to, byte, len))
}

// Whether so many bytes could be copied.
fn read_probe(alloc: Global, cursor: &mut Cursor) -> Result<Instr, Form>
    ensures found { IfOk result (λ i. read_four (read_word sharing_of) read_low read_low read_low plain.Probe cursor.old ≡ got (instr_view i) cursor.new) }
    ensures none { IsErrOf result NoForm → read_four (read_word sharing_of) read_low read_low read_low plain.Probe cursor.old ≡ None }
{
    let sharing = next_sharing(cursor)?;
    let one = next_term(alloc, cursor)?;
    let (one, other) = both(one, next_term(alloc, cursor))?;
    let ((one, other), len) = both((one, other), next_term(alloc, cursor))?;
    Ok(Instr::Probe(sharing, one, other, len))
}

/// An instruction, behind its first word.
pub fn read_instr(alloc: Global, word: &[u8], cursor: &mut Cursor) -> Result<Instr, Form>
    ensures found { IfOk result (λ i. instr_read word.now cursor.old ≡ got (instr_view i) cursor.new) }
    ensures none { IsErrOf result NoForm → instr_read word.now cursor.old ≡ None }
{
    if word == b"set".as_slice() {
        read_set(alloc, cursor)
    } else if word == b"keep".as_slice() {
        read_keep(alloc, cursor)
    } else if word == b"draw".as_slice() {
        read_draw(cursor)
    } else if word == b"store".as_slice() {
        read_store(alloc, cursor)
    } else if word == b"init".as_slice() {
        read_init(alloc, cursor)
    } else if word == b"copy".as_slice() {
        read_copy(alloc, cursor)
    } else if word == b"fill".as_slice() {
        read_fill(alloc, cursor)
    } else if word == b"probe".as_slice() {
        read_probe(alloc, cursor)
    } else {
        read_object_word(alloc, word, cursor)
    }
}
