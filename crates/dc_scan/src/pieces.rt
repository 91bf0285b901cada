// Pieces of a line, each behind a space.
ghost use Rattle.std.specs.Prelude.{◌≡◌, IfOk, IsErrOf, None};
ghost use Rattle.dc_text.specs.Words.{is_word};
ghost use Rattle.dc_goto.specs.Lines.{is_body_name as body_name, is_check_name as check_name};
ghost use Rattle.dc_goto.specs.Reading.{are_outside as outside_in, bytes_of as bytes_in, constant_of as constant_in, got, literal, read_kind, read_name, read_number, read_word, register_of as register_in, result_of as result_in, sharing_of as sharing_in, spaced_read};
ghost use Rattle.dc_scan.specs.declared.form.Form.TheVariants.{NoForm};

use crate::cursor::Cursor;
use crate::form::Form;
use crate::numbers::{constant_of, number_of};
use crate::words::{
    are_outside, bytes_of, is_body_name, is_check_name, kind_of, register_of, result_of, sharing_of,
};
use dc_core::{Name, NumKind};
use dc_goto::{Bytes, Sharing};
use dc_text::is_formed;
use std::alloc::Global;

/// The number behind a space.
pub fn next_number(cursor: &mut Cursor) -> Result<u64, Form>
    ensures found { IfOk result (λ n. spaced_read read_number cursor.old ≡ got n cursor.new) }
    ensures none { IsErrOf result NoForm → spaced_read read_number cursor.old ≡ None }
{
    cursor.expect(b' ')?;
    match number_of(cursor.word()) {
        Some(number) => Ok(number),
        None => Err(Form::NoForm),
    }
}

/// The constant behind a space.
pub fn next_constant(cursor: &mut Cursor) -> Result<i128, Form>
    ensures found { IfOk result (λ z. spaced_read (read_word constant_in) cursor.old ≡ got z cursor.new) }
    ensures none { IsErrOf result NoForm → spaced_read (read_word constant_in) cursor.old ≡ None }
{
    cursor.expect(b' ')?;
    match constant_of(cursor.word()) {
        Some(number) => Ok(number),
        None => Err(Form::NoForm),
    }
}

/// The kind behind a space.
pub fn next_kind(cursor: &mut Cursor) -> Result<NumKind, Form>
    ensures found { IfOk result (λ kind. spaced_read read_kind cursor.old ≡ got kind cursor.new) }
    ensures none { IsErrOf result NoForm → spaced_read read_kind cursor.old ≡ None }
{
    cursor.expect(b' ')?;
    match kind_of(cursor.word()) {
        Some(kind) => Ok(kind),
        None => Err(Form::NoForm),
    }
}

/// The kind of a result behind a space.
pub fn next_result(cursor: &mut Cursor) -> Result<Option<NumKind>, Form>
    ensures found { IfOk result (λ kind. spaced_read (read_word result_in) cursor.old ≡ got kind cursor.new) }
    ensures none { IsErrOf result NoForm → spaced_read (read_word result_in) cursor.old ≡ None }
{
    cursor.expect(b' ')?;
    match result_of(cursor.word()) {
        Some(kind) => Ok(kind),
        None => Err(Form::NoForm),
    }
}

/// The register, or `-`, behind a space.
pub fn next_register(cursor: &mut Cursor) -> Result<Option<u64>, Form>
    ensures found { IfOk result (λ register. spaced_read (read_word register_in) cursor.old ≡ got register cursor.new) }
    ensures none { IsErrOf result NoForm → spaced_read (read_word register_in) cursor.old ≡ None }
{
    cursor.expect(b' ')?;
    match register_of(cursor.word()) {
        Some(register) => Ok(register),
        None => Err(Form::NoForm),
    }
}

/// The first bytes of an object, behind a space.
pub fn next_bytes(cursor: &mut Cursor) -> Result<Bytes, Form>
    ensures found { IfOk result (λ bytes. spaced_read (read_word bytes_in) cursor.old ≡ got bytes cursor.new) }
    ensures none { IsErrOf result NoForm → spaced_read (read_word bytes_in) cursor.old ≡ None }
{
    cursor.expect(b' ')?;
    match bytes_of(cursor.word()) {
        Some(bytes) => Ok(bytes),
        None => Err(Form::NoForm),
    }
}

/// Whether two ranges may share bytes, behind a space.
pub fn next_sharing(cursor: &mut Cursor) -> Result<Sharing, Form>
    ensures found { IfOk result (λ sharing. spaced_read (read_word sharing_in) cursor.old ≡ got sharing cursor.new) }
    ensures none { IsErrOf result NoForm → spaced_read (read_word sharing_in) cursor.old ≡ None }
{
    cursor.expect(b' ')?;
    match sharing_of(cursor.word()) {
        Some(sharing) => Ok(sharing),
        None => Err(Form::NoForm),
    }
}

/// Whether drawn objects are the outside ones, behind a space.
pub fn next_outside(cursor: &mut Cursor) -> Result<bool, Form>
    ensures found { IfOk result (λ outside. spaced_read (read_word outside_in) cursor.old ≡ got outside cursor.new) }
    ensures none { IsErrOf result NoForm → spaced_read (read_word outside_in) cursor.old ≡ None }
{
    cursor.expect(b' ')?;
    match are_outside(cursor.word()) {
        Some(outside) => Ok(outside),
        None => Err(Form::NoForm),
    }
}

/// The name behind a space.
pub fn next_name(alloc: Global, cursor: &mut Cursor) -> Result<Name, Form>
    ensures found { IfOk result (λ name. spaced_read (read_name is_word) cursor.old ≡ got name cursor.new) }
    ensures none { IsErrOf result NoForm → spaced_read (read_name is_word) cursor.old ≡ None }
{
    cursor.expect(b' ')?;
    let word = cursor.word();
    if !is_formed(word) {
        return Err(Form::NoForm);
    }
    let name = Name::copied(alloc, word)?;
    Ok(name)
}

/// The name of a check behind a space.
pub fn next_check_name(alloc: Global, cursor: &mut Cursor) -> Result<Name, Form>
    ensures found { IfOk result (λ name. spaced_read (read_name check_name) cursor.old ≡ got name cursor.new) }
    ensures none { IsErrOf result NoForm → spaced_read (read_name check_name) cursor.old ≡ None }
{
    cursor.expect(b' ')?;
    let word = cursor.word();
    if !is_check_name(word) {
        return Err(Form::NoForm);
    }
    let name = Name::copied(alloc, word)?;
    Ok(name)
}

/// The name of a body behind a space.
pub fn next_body_name(alloc: Global, cursor: &mut Cursor) -> Result<Name, Form>
    ensures found { IfOk result (λ name. spaced_read (read_name body_name) cursor.old ≡ got name cursor.new) }
    ensures none { IsErrOf result NoForm → spaced_read (read_name body_name) cursor.old ≡ None }
{
    cursor.expect(b' ')?;
    let word = cursor.word();
    if !is_body_name(word) {
        return Err(Form::NoForm);
    }
    let name = Name::copied(alloc, word)?;
    Ok(name)
}

/// Passes over a space and this word.
pub fn expect_word(cursor: &mut Cursor, word: &[u8]) -> Result<(), Form>
    ensures found { IfOk result (λ done. spaced_read (read_word (literal word.now)) cursor.old ≡ got tt cursor.new) }
    ensures none { IsErrOf result NoForm → spaced_read (read_word (literal word.now)) cursor.old ≡ None }
{
    cursor.expect(b' ')?;
    if cursor.word() != word {
        return Err(Form::NoForm);
    }
    Ok(())
}
