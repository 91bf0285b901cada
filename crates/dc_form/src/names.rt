// The names that a source has declared.
ghost use Rattle.std.specs.Prelude.{◌≡◌, ◌++◌, [], ◌∷◌, OnOk, IsErrOf, true, false};
ghost use Rattle.dc_form.specs.Form.{is_new};
ghost use Rattle.dc_form.specs.declared.reader.Form.TheVariants.{NoForm};

use crate::reader::Form;
use crate::tokens::Token;
use crate::words::is_name_word;
use dc_names::Names;

/// Declares a name that may be declared and isn't among these yet.
pub fn declare<'a>(names: &mut Names<'a>, name: &Token<'a>) -> Result<(), Form>
    ensures new { OnOk result (is_new names.old name.now ≡ true) }
    ensures found { OnOk result (names.new ≡ names.old ++ name.now ∷ []) }
    ensures none { IsErrOf result NoForm → is_new names.old name.now ≡ false }
{
    if !is_name_word(name.as_slice()) {
        return Err(Form::NoForm);
    }
    if names.has(name.as_slice()) {
        return Err(Form::NoForm);
    }
    names.push(name.as_slice())?;
    Ok(())
}
