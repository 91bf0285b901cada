// What stands in front of a function's clauses.
ghost use Rattle.std.specs.Prelude.{◌≡◌, ◌≤◌, ◌<◌, ◌++◌, [], ◌∷◌, length, All, IfOk, OnOk, IsErrOf, nat_le, None, Some, true, false};
ghost use Rattle.dc_form.specs.Form.{is_new};
ghost use Rattle.dc_form.specs.Read.Cursor.{front, tail};
ghost use Rattle.dc_form.specs.Read.Reading.{got};
ghost use Rattle.dc_form.specs.Read.HeadView.{head_view, names_of};
ghost use Rattle.dc_form.specs.Read.Signature as signature;
ghost use Rattle.dc_form.specs.Read.Whole.{IsInt};
ghost use Rattle.dc_form.specs.declared.reader.Form.TheVariants.{NoForm};

use crate::cursor::Cursor;
use crate::names::declare;
use crate::reader::Form;
use crate::tokens::Token;
use dc_core::Name;
use dc_layout::LayKind;
use dc_names::Names;
use dc_program::{CType, StaticVariable};
use sqlite_items::Items;
use std::alloc::{AllocError, Global};

/// The function that is declared behind the variables.
#[derive(Drop)]
pub struct Head {
    pub statics: Items<StaticVariable>,
    pub gives_int: bool,
    pub name: Name,
}

// One more variable behind the others.
fn push_variable(
    alloc: Global,
    statics: &mut Items<StaticVariable>,
    name: &Token,
) -> Result<(), AllocError>
    ensures found { OnOk result (names_of statics.new ≡ names_of statics.old ++ name.now ∷ []) }
    ensures whole { OnOk result (All IsInt statics.old → All IsInt statics.new) }
{
    let name = Name::copied(alloc, name.as_slice())?;
    let ty = CType::Num(LayKind::S32);
    statics.push(StaticVariable { name, ty })
}

// The name in front, which is declared behind the others.
fn read_name<'t, 'a>(
    names: &mut Names<'a>,
    tokens: &mut Cursor<'t, 'a>,
) -> Result<&'t Token<'a>, Form>
    ensures found { IfOk result (λ name. (tokens.old ≡ name.now ∷ tokens.new) × (is_new names.old name.now ≡ true) × (names.new ≡ names.old ++ name.now ∷ [])) }
    ensures shorter { OnOk result (length tokens.new < length tokens.old) }
    ensures none { IsErrOf result NoForm → is_new names.old (front tokens.old) ≡ false }
{
    let Some(name) = tokens.next() else {
        return Err(Form::NoForm);
    };
    declare(names, name)?;
    Ok(name)
}

// Whether there is room for no more variables.
fn is_full(statics: &Items<StaticVariable>) -> bool
    ensures { result ≡ nat_le 32766 (length statics.now) }
{
    statics.len() >= 32766
}

// Whether a function gives an int, by the word in front.
fn read_result(tokens: &mut Cursor) -> Result<bool, Form>
    ensures found { IfOk result (λ gives_int. signature.result_of (front tokens.old) ≡ Some gives_int) }
    ensures rest { OnOk result (tokens.new ≡ tail tokens.old) }
    ensures some { OnOk result (tokens.old ≡ front tokens.old ∷ tokens.new) }
    ensures none { IsErrOf result NoForm → signature.result_of (front tokens.old) ≡ None }
{
    let Some(word) = tokens.next() else {
        return Err(Form::NoForm);
    };
    if word.as_slice() == b"void".as_slice() {
        return Ok(false);
    }
    if word.as_slice() == b"int".as_slice() {
        return Ok(true);
    }
    Err(Form::NoForm)
}

// A function behind these variables.
fn head_of(
    alloc: Global,
    statics: Items<StaticVariable>,
    gives_int: bool,
    token: &Token,
) -> Result<Head, Form>
    ensures found { IfOk result (λ h. head_view h ≡ signature.head (names_of statics) gives_int token.now) }
    ensures declared { IfOk result (λ h. names_of h.statics ++ h.name ∷ [] ≡ names_of statics ++ token.now ∷ []) }
    ensures whole { IfOk result (λ h. h.statics ≡ statics) }
    ensures none { IsErrOf result NoForm → ⊥ }
{
    let name = Name::copied(alloc, token.as_slice())?;
    Ok(Head {
        statics,
        gives_int,
        name,
    })
}

/// The variables in front, and the result and the name of the function behind them.
pub fn read_head<'t, 'a>(
    alloc: Global,
    names: &mut Names<'a>,
    tokens: &mut Cursor<'t, 'a>,
) -> Result<Head, Form>
    requires { names.old ≡ [] }
    ensures found { IfOk result (λ h. signature.read_head [] tokens.old ≡ got (head_view h) tokens.new) }
    ensures declared { IfOk result (λ h. names.new ≡ names_of h.statics ++ h.name ∷ []) }
    ensures whole { IfOk result (λ h. All IsInt h.statics) }
    ensures none { IsErrOf result NoForm → signature.read_head [] tokens.old ≡ None }
{
    let mut statics = Items::new(alloc);
    loop {
        let gives_int = match read_result(tokens) {
            Ok(gives_int) => gives_int,
            Err(error) => return Err(error),
        };
        let token = match read_name(names, tokens) {
            Ok(token) => token,
            Err(error) => return Err(error),
        };
        if !gives_int {
            return head_of(alloc, statics, false, token);
        }
        if !tokens.take(b";") {
            return head_of(alloc, statics, true, token);
        }
        if is_full(&statics) {
            return Err(Form::NoForm);
        }
        push_variable(alloc, &mut statics, token)?;
    }
}

// The parameters in front, behind these names.
fn read_each<'t, 'a>(names: &mut Names<'a>, tokens: &mut Cursor<'t, 'a>) -> Result<(), Form>
    ensures found { OnOk result (signature.read_each names.old tokens.old ≡ got names.new tokens.new) }
    ensures none { IsErrOf result NoForm → signature.read_each names.old tokens.old ≡ None }
{
    loop {
        if let Err(error) = tokens.expect(b"int") {
            return Err(error);
        }
        if let Err(error) = read_name(names, tokens) {
            return Err(error);
        }
        if !tokens.take(b",") {
            return Ok(());
        }
    }
}

// The parameters in front, or `void`, behind these names.
fn read_params<'t, 'a>(names: &mut Names<'a>, tokens: &mut Cursor<'t, 'a>) -> Result<(), Form>
    ensures found { OnOk result (signature.read_params names.old tokens.old ≡ got names.new tokens.new) }
    ensures none { IsErrOf result NoForm → signature.read_params names.old tokens.old ≡ None }
{
    if tokens.take(b"void") {
        return Ok(());
    }
    read_each(names, tokens)
}

/// The parameters in parentheses in front, behind these names.
pub fn read_list<'t, 'a>(names: &mut Names<'a>, tokens: &mut Cursor<'t, 'a>) -> Result<(), Form>
    ensures found { OnOk result (signature.read_list names.old tokens.old ≡ got names.new tokens.new) }
    ensures none { IsErrOf result NoForm → signature.read_list names.old tokens.old ≡ None }
{
    tokens.expect(b"(")?;
    read_params(names, tokens)?;
    tokens.expect(b")")?;
    Ok(())
}
