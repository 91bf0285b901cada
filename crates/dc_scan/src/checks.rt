// Tests of a text, and its instructions on the outside.
ghost use Rattle.std.specs.Prelude.{◌≡◌, IfOk, IsErrOf, None};
ghost use Rattle.dc_goto.specs.Program as plain;
ghost use Rattle.dc_goto.specs.Reading.{drawn_objects as objects_drawn, got, read_check_name, read_low, read_objects as objects_read, read_one, read_test as test_read, read_two};
ghost use Rattle.dc_goto.specs.View.{instr_view};
ghost use Rattle.dc_scan.specs.declared.form.Form.TheVariants.{NoForm};

use crate::cursor::Cursor;
use crate::expressions::next_term;
use crate::form::Form;
use crate::pieces::{next_check_name, next_outside};
use crate::sequence::both;
use crate::sets::read_set_word;
use dc_goto::Instr;
use std::alloc::Global;

// A test with a value, without which the name fails.
fn read_assert(alloc: Global, cursor: &mut Cursor) -> Result<Instr, Form>
    ensures found { IfOk result (λ i. read_two read_check_name read_low plain.Assert cursor.old ≡ got (instr_view i) cursor.new) }
    ensures none { IsErrOf result NoForm → read_two read_check_name read_low plain.Assert cursor.old ≡ None }
{
    let name = next_check_name(alloc, cursor)?;
    let (name, test) = both(name, next_term(alloc, cursor))?;
    Ok(Instr::Assert(name, test))
}

// A test without which the name fails.
fn read_check(alloc: Global, cursor: &mut Cursor) -> Result<Instr, Form>
    ensures found { IfOk result (λ i. read_two read_check_name read_low plain.Check cursor.old ≡ got (instr_view i) cursor.new) }
    ensures none { IsErrOf result NoForm → read_two read_check_name read_low plain.Check cursor.old ≡ None }
{
    let name = next_check_name(alloc, cursor)?;
    let (name, test) = both(name, next_term(alloc, cursor))?;
    Ok(Instr::Check(name, test))
}

// A test with a value, without which the run is blocked.
fn read_assume(alloc: Global, cursor: &mut Cursor) -> Result<Instr, Form>
    ensures found { IfOk result (λ i. read_one read_low plain.Assume cursor.old ≡ got (instr_view i) cursor.new) }
    ensures none { IsErrOf result NoForm → read_one read_low plain.Assume cursor.old ≡ None }
{
    let test = next_term(alloc, cursor)?;
    Ok(Instr::Assume(test))
}

// A test without which the run is blocked.
fn read_require(alloc: Global, cursor: &mut Cursor) -> Result<Instr, Form>
    ensures found { IfOk result (λ i. read_one read_low plain.Require cursor.old ≡ got (instr_view i) cursor.new) }
    ensures none { IsErrOf result NoForm → read_one read_low plain.Require cursor.old ≡ None }
{
    let test = next_term(alloc, cursor)?;
    Ok(Instr::Require(test))
}

// Draws the outside objects, or new ones.
fn drawn_objects(outside: bool) -> Instr
    ensures { instr_view result ≡ objects_drawn outside }
{
    if outside {
        Instr::OutsideObjects
    } else {
        Instr::NewObjects
    }
}

// Drawn objects.
fn read_objects(cursor: &mut Cursor) -> Result<Instr, Form>
    ensures found { IfOk result (λ i. objects_read cursor.old ≡ got (instr_view i) cursor.new) }
    ensures none { IsErrOf result NoForm → objects_read cursor.old ≡ None }
{
    let outside = next_outside(cursor)?;
    Ok(drawn_objects(outside))
}

/// A test, one on the outside, or one on write sets, behind its first word.
pub fn read_test(alloc: Global, word: &[u8], cursor: &mut Cursor) -> Result<Instr, Form>
    ensures found { IfOk result (λ i. test_read word.now cursor.old ≡ got (instr_view i) cursor.new) }
    ensures none { IsErrOf result NoForm → test_read word.now cursor.old ≡ None }
{
    if word == b"assert".as_slice() {
        read_assert(alloc, cursor)
    } else if word == b"check".as_slice() {
        read_check(alloc, cursor)
    } else if word == b"assume".as_slice() {
        read_assume(alloc, cursor)
    } else if word == b"require".as_slice() {
        read_require(alloc, cursor)
    } else if word == b"statics".as_slice() {
        Ok(Instr::Statics)
    } else if word == b"objects".as_slice() {
        read_objects(cursor)
    } else {
        read_set_word(alloc, word, cursor)
    }
}
