// Kinds of results and parameters in a text.
ghost use Rattle.std.specs.Prelude.{◌≡◌, IfOk, IsErrOf, None, length, []};
ghost use Rattle.dc_goto.specs.Reading.{got, read_kind, read_kinds as kinds_read, read_many, read_signature as signature_read, spaced_read};
ghost use Rattle.dc_scan.specs.View.{signature_view};
ghost use Rattle.dc_scan.specs.declared.form.Form.TheVariants.{NoForm};

use crate::cursor::Cursor;
use crate::form::Form;
use crate::pieces::{next_kind, next_result};
use crate::sequence::followed;
use dc_core::NumKind;
use sqlite_items::Items;
use std::alloc::Global;

/// The signature of a call through a pointer: the kind of the result, if there is one, and those of the parameters.
#[derive(Drop)]
pub struct Signature {
    pub result: Option<NumKind>,
    pub params: Items<NumKind>,
}

/// As many kinds as stand there, each behind a space.
pub fn read_params(alloc: Global, cursor: &mut Cursor) -> Result<Items<NumKind>, Form>
    ensures found { IfOk result (λ kinds. read_many read_kind (length cursor.old) [] cursor.old ≡ got kinds cursor.new) }
    ensures none { IsErrOf result NoForm → read_many read_kind (length cursor.old) [] cursor.old ≡ None }
{
    let mut kinds = Items::new(alloc);
    'each: while cursor.begins_with(b' ') {
        let kind = next_kind(cursor)?;
        kinds.push(kind)?;
    }
    Ok(kinds)
}

// The kinds of a signature, behind its first word.
fn read_kinds(alloc: Global, cursor: &mut Cursor) -> Result<Signature, Form>
    ensures found { IfOk result (λ sig. kinds_read cursor.old ≡ got (signature_view sig) cursor.new) }
    ensures none { IsErrOf result NoForm → kinds_read cursor.old ≡ None }
{
    let result = next_result(cursor)?;
    let params = read_params(alloc, cursor)?;
    Ok(Signature { result, params })
}

// A signature in its parentheses.
fn read_signature(alloc: Global, cursor: &mut Cursor) -> Result<Signature, Form>
    ensures found { IfOk result (λ sig. signature_read cursor.old ≡ got (signature_view sig) cursor.new) }
    ensures none { IsErrOf result NoForm → signature_read cursor.old ≡ None }
{
    cursor.expect(b'(')?;
    if cursor.word() != b"sig".as_slice() {
        return Err(Form::NoForm);
    }
    let signature = read_kinds(alloc, cursor)?;
    followed(signature, cursor.expect(b')'))
}

/// The signature behind a space.
pub fn next_signature(alloc: Global, cursor: &mut Cursor) -> Result<Signature, Form>
    ensures found { IfOk result (λ sig. spaced_read signature_read cursor.old ≡ got (signature_view sig) cursor.new) }
    ensures none { IsErrOf result NoForm → spaced_read signature_read cursor.old ≡ None }
{
    cursor.expect(b' ')?;
    read_signature(alloc, cursor)
}
