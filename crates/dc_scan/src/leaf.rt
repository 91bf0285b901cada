// Expressions of a text that have no parts.
ghost use Rattle.std.specs.Prelude.{◌≡◌, IfOk, IsErrOf, None};
ghost use Rattle.dc_core.specs.View.{term_view};
ghost use Rattle.dc_goto.specs.Reading.{got, read_constant as constant_read, read_leaf as leaf_read};
ghost use Rattle.dc_scan.specs.declared.form.Form.TheVariants.{NoForm};

use crate::cursor::Cursor;
use crate::form::Form;
use crate::pieces::{next_constant, next_number};
use crate::words::kind_of;
use dc_core::{NumKind, Term};

// The constant of a kind, behind the kind's word.
fn read_constant(kind: Option<NumKind>, cursor: &mut Cursor) -> Result<Term, Form>
    ensures found { IfOk result (λ t. constant_read kind cursor.old ≡ got (term_view t) cursor.new) }
    ensures none { IsErrOf result NoForm → constant_read kind cursor.old ≡ None }
{
    let Some(kind) = kind else {
        return Err(Form::NoForm);
    };
    let number = next_constant(cursor)?;
    Ok(Term::Constant(kind, number))
}

/// An expression without parts, behind its first word.
pub fn read_leaf(word: &[u8], cursor: &mut Cursor) -> Result<Term, Form>
    ensures found { IfOk result (λ t. leaf_read word.now cursor.old ≡ got (term_view t) cursor.new) }
    ensures none { IsErrOf result NoForm → leaf_read word.now cursor.old ≡ None }
{
    if word == b"reg".as_slice() {
        let register = next_number(cursor)?;
        return Ok(Term::Register(register));
    }
    if word == b"var".as_slice() {
        let nesting = next_number(cursor)?;
        return Ok(Term::Variable(nesting));
    }
    if word == b"obj".as_slice() {
        let object = next_number(cursor)?;
        return Ok(Term::Object(object));
    }
    read_constant(kind_of(word), cursor)
}
