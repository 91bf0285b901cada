// Expressions of a source.
ghost use Rattle.std.specs.Prelude.{◌≡◌, ◌≤◌, ◌<◌, length, IfOk, IfSome, OnOk, IsErrOf, None, Some};
ghost use Rattle.std.specs.Option.{option_map};
ghost use Rattle.dc_core.specs.Program as plain;
ghost use Rattle.dc_core.specs.View.{expr_view, form_view};
ghost use Rattle.dc_core.specs.Whole.{Where, InClause, parameter_form};
ghost use Rattle.dc_program.specs.View as whole;
ghost use Rattle.dc_form.specs.Read.Cursor.{front, tail};
ghost use Rattle.dc_form.specs.Read.Expressions as expressions;
ghost use Rattle.dc_form.specs.Read.Reading.{got};
ghost use Rattle.dc_form.specs.Read.Whole.{IsWhole, IsWholeForm, is_valued, where_of};
ghost use Rattle.dc_form.specs.declared.reader.Form.TheVariants.{NoForm};

use crate::cursor::Cursor;
use crate::numbers::number_of;
use crate::reader::Form;
use crate::text::Text;
use crate::tokens::Token;
use dc_layout::LayKind;
use dc_names::Names;
use dc_program::{BinOp, CType, Expr, Form as ExprForm};
use std::alloc::{AllocError, Global};

// An expression of type int.
fn int(alloc: Global, form: ExprForm) -> Result<Expr, AllocError>
    ensures found { IfOk result (λ e. expr_view e ≡ form_view form) }
    ensures whole { IfOk result (λ e. (at : Where) → IsWholeForm at form → IsWhole at e) }
{
    Expr::new(alloc, CType::Num(LayKind::S32), form)
}

/// A number of the typed program, or no memory: no source has that many names.
pub fn small(number: u64) -> Result<u32, AllocError>
    ensures { IfOk result (λ n. n ≡ number) }
{
    match u32::try_from(number) {
        Ok(number) => Ok(number),
        Err(_) => Err(AllocError),
    }
}

// The parameter of this number: in a clause, the argument at entry.
fn parameter(text: Text, number: u32) -> ExprForm
    ensures { whole.form_view result ≡ parameter_form (where_of text) number }
{
    match text {
        Text::Body => ExprForm::Local(number),
        Text::Clause(_) => ExprForm::Argument(number),
    }
}

/// What has this number among the names, where so many variables stand first.
pub fn place_at(text: Text, statics: u64, number: u64) -> Result<Option<ExprForm>, AllocError>
    ensures found { IfOk result (λ o. option_map form_view o ≡ expressions.place_at statics number) }
    ensures whole { IfOk result (λ o. IfSome o (IsWholeForm (where_of text))) }
{
    if number < statics {
        Ok(Some(ExprForm::Static(small(number)?)))
    } else if number == statics {
        Ok(None)
    } else {
        let number = small(number - statics - 1)?;
        Ok(Some(parameter(text, number)))
    }
}

// What a word that isn't declared means.
fn value_of(text: Text, word: &[u8]) -> Option<ExprForm>
    ensures found { option_map form_view result ≡ expressions.value_of (is_valued text) word.now }
    ensures whole { IfSome result (IsWholeForm (where_of text)) }
{
    if text.is_valued() && word == b"__CPROVER_return_value".as_slice() {
        return Some(ExprForm::ReturnValue);
    }
    match number_of(word) {
        Some(number) => Some(ExprForm::Literal(number as i128)),
        None => None,
    }
}

// What a word means.
fn term_of(
    names: &Names,
    statics: u64,
    text: Text,
    word: &Token,
) -> Result<Option<ExprForm>, AllocError>
    ensures found { IfOk result (λ o. option_map form_view o ≡ expressions.term_of names.now statics (is_valued text) word.now) }
    ensures whole { IfOk result (λ o. IfSome o (IsWholeForm (where_of text))) }
{
    match names.find(word.as_slice()) {
        Some(number) => place_at(text, statics, number as u64),
        None => Ok(value_of(text, word.as_slice())),
    }
}

/// The expression of this form, if there is one.
pub fn given(alloc: Global, form: Option<ExprForm>) -> Result<Expr, Form>
    ensures found { IfOk result (λ e. option_map form_view form ≡ Some (expr_view e)) }
    ensures whole { IfOk result (λ e. (at : Where) → IfSome form (IsWholeForm at) → IsWhole at e) }
    ensures none { IsErrOf result NoForm → option_map form_view form ≡ None }
{
    let Some(form) = form else {
        return Err(Form::NoForm);
    };
    let e = int(alloc, form)?;
    Ok(e)
}

/// The name or number in front.
pub fn read_term(
    alloc: Global,
    names: &Names,
    statics: u64,
    text: Text,
    tokens: &mut Cursor,
) -> Result<Expr, Form>
    ensures found { IfOk result (λ e. expressions.read_term names.now statics (is_valued text) tokens.old ≡ got (expr_view e) tokens.new) }
    ensures whole { IfOk result (IsWhole (where_of text)) }
    ensures shorter { OnOk result (length tokens.new < length tokens.old) }
    ensures none { IsErrOf result NoForm → expressions.read_term names.now statics (is_valued text) tokens.old ≡ None }
{
    let Some(word) = tokens.next() else {
        return Err(Form::NoForm);
    };
    let form = term_of(names, statics, text, word)?;
    given(alloc, form)
}

// An operator on two expressions.
fn binary(alloc: Global, operator: BinOp, left: Expr, right: Expr) -> Result<Expr, AllocError>
    ensures found { IfOk result (λ e. expr_view e ≡ plain.Binary operator (expr_view left) (expr_view right)) }
    ensures whole { IfOk result (λ e. (at : Where) → IsWhole at left → IsWhole at right → IsWhole at e) }
{
    int(alloc, ExprForm::Binary(operator, left, right))
}

// The operator of a sum.
fn sum_operator(word: &[u8]) -> Option<BinOp>
    ensures { result ≡ expressions.sum_operator word.now }
{
    if word == b"+".as_slice() {
        Some(BinOp::Add)
    } else if word == b"-".as_slice() {
        Some(BinOp::Sub)
    } else {
        None
    }
}

// The operator of a comparison.
fn test_operator(word: &[u8]) -> Option<BinOp>
    ensures { result ≡ expressions.test_operator word.now }
{
    if word == b"==".as_slice() {
        Some(BinOp::Eq)
    } else if word == b"!=".as_slice() {
        Some(BinOp::Ne)
    } else if word == b"<".as_slice() {
        Some(BinOp::Lt)
    } else if word == b"<=".as_slice() {
        Some(BinOp::Le)
    } else {
        None
    }
}

/// The sum in front.
pub fn read_sum(
    alloc: Global,
    names: &Names,
    statics: u64,
    text: Text,
    tokens: &mut Cursor,
) -> Result<Expr, Form>
    ensures found { IfOk result (λ e. expressions.read_sum names.now statics (is_valued text) tokens.old ≡ got (expr_view e) tokens.new) }
    ensures whole { IfOk result (IsWhole (where_of text)) }
    ensures shorter { OnOk result (length tokens.new < length tokens.old) }
    ensures none { IsErrOf result NoForm → expressions.read_sum names.now statics (is_valued text) tokens.old ≡ None }
{
    let left = read_term(alloc, names, statics, text, tokens)?;
    let Some(operator) = sum_operator(tokens.front()) else {
        return Ok(left);
    };
    tokens.advance();
    let right = read_term(alloc, names, statics, text, tokens)?;
    let sum = binary(alloc, operator, left, right)?;
    Ok(sum)
}

/// The comparison in front.
pub fn read_test(
    alloc: Global,
    names: &Names,
    statics: u64,
    valued: bool,
    tokens: &mut Cursor,
) -> Result<Expr, Form>
    ensures found { IfOk result (λ e. expressions.read_test names.now statics valued tokens.old ≡ got (expr_view e) tokens.new) }
    ensures whole { IfOk result (IsWhole InClause) }
    ensures shorter { OnOk result (length tokens.new < length tokens.old) }
    ensures none { IsErrOf result NoForm → expressions.read_test names.now statics valued tokens.old ≡ None }
{
    let left = read_sum(alloc, names, statics, Text::Clause(valued), tokens)?;
    let Some(operator) = test_operator(tokens.front()) else {
        return Err(Form::NoForm);
    };
    tokens.advance();
    let right = read_sum(alloc, names, statics, Text::Clause(valued), tokens)?;
    let test = binary(alloc, operator, left, right)?;
    Ok(test)
}
