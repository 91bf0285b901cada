// The body of a function.
ghost use Rattle.std.specs.Prelude.{◌≡◌, ◌≤◌, ◌<◌, ◌+◌, ◌++◌, [], ◌∷◌, suc, length, map, All, IfOk, IfSome, OnOk, IsErrOf, None};
ghost use Rattle.std.specs.Option.{option_map};
ghost use Rattle.dc_core.specs.Program as plain;
ghost use Rattle.dc_core.specs.View.{expr_view, form_view, stmt_view};
ghost use Rattle.dc_core.specs.Whole.{InBody};
ghost use Rattle.dc_form.specs.Read.Body as body_spec;
ghost use Rattle.dc_form.specs.Read.Cursor.{front};
ghost use Rattle.dc_form.specs.Read.Reading.{got};
ghost use Rattle.dc_form.specs.Read.Whole.{IsWhole, IsWholeForm, IsWholeStmt};
ghost use Rattle.dc_form.specs.declared.reader.Form.TheVariants.{NoForm};

use crate::cursor::Cursor;
use crate::expressions::{given, place_at, read_sum};
use crate::reader::Form;
use crate::text::Text;
use crate::tokens::Token;
use dc_layout::LayKind;
use dc_names::Names;
use dc_program::{CType, Expr, Form as ExprForm, Location, Stmt, StmtForm};
use sqlite_items::Items;
use std::alloc::{AllocError, Global};

// The variable or parameter of this name.
fn place_of(names: &Names, statics: u64, word: &Token) -> Result<Option<ExprForm>, AllocError>
    ensures found { IfOk result (λ o. option_map form_view o ≡ body_spec.place_of names.now statics word.now) }
    ensures whole { IfOk result (λ o. IfSome o (IsWholeForm InBody)) }
{
    match names.find(word.as_slice()) {
        Some(number) => place_at(Text::Body, statics, number as u64),
        None => Ok(None),
    }
}

// The variable or parameter in front.
fn read_place(alloc: Global, names: &Names, statics: u64, tokens: &mut Cursor) -> Result<Expr, Form>
    ensures found { IfOk result (λ e. body_spec.read_place names.now statics tokens.old ≡ got (expr_view e) tokens.new) }
    ensures whole { IfOk result (IsWhole InBody) }
    ensures shorter { OnOk result (length tokens.new < length tokens.old) }
    ensures none { IsErrOf result NoForm → body_spec.read_place names.now statics tokens.old ≡ None }
{
    let Some(word) = tokens.next() else {
        return Err(Form::NoForm);
    };
    let place = place_of(names, statics, word)?;
    given(alloc, place)
}

// The sum in front, and the `;` behind it.
fn read_value(alloc: Global, names: &Names, statics: u64, tokens: &mut Cursor) -> Result<Expr, Form>
    ensures found { IfOk result (λ e. body_spec.read_value names.now statics tokens.old ≡ got (expr_view e) tokens.new) }
    ensures whole { IfOk result (IsWhole InBody) }
    ensures shorter { OnOk result (length tokens.new < length tokens.old) }
    ensures none { IsErrOf result NoForm → body_spec.read_value names.now statics tokens.old ≡ None }
{
    let value = read_sum(alloc, names, statics, Text::Body, tokens)?;
    tokens.expect(b";")?;
    Ok(value)
}

// The assignment of a value to a place, which has this site.
fn assignment(alloc: Global, site: u64, place: Expr, value: Expr) -> Result<Stmt, AllocError>
    ensures found { IfOk result (λ s. stmt_view s ≡ plain.Assign site (expr_view place) (expr_view value)) }
    ensures whole { IfOk result (λ s. IsWhole InBody place → IsWhole InBody value → IsWholeStmt s) }
{
    let location = Location {
        number: site,
        line: 0,
    };
    let act = Expr::new(
        alloc,
        CType::Num(LayKind::S32),
        ExprForm::Assign(place, value, location),
    )?;
    Stmt::new(alloc, StmtForm::Expression(act))
}

// The return of a value.
fn giving(alloc: Global, value: Expr) -> Result<Stmt, AllocError>
    ensures found { IfOk result (λ s. stmt_view s ≡ plain.Return (expr_view value)) }
    ensures whole { IfOk result (λ s. IsWhole InBody value → IsWholeStmt s) }
{
    Stmt::new(alloc, StmtForm::ReturnWith(value))
}

// The assignment in front, which has this site.
fn read_assignment(
    alloc: Global,
    names: &Names,
    statics: u64,
    site: u64,
    tokens: &mut Cursor,
) -> Result<Stmt, Form>
    ensures found { IfOk result (λ s. body_spec.read_assignment names.now statics site tokens.old ≡ got (stmt_view s) tokens.new) }
    ensures whole { IfOk result IsWholeStmt }
    ensures shorter { OnOk result (length tokens.new < length tokens.old) }
    ensures none { IsErrOf result NoForm → body_spec.read_assignment names.now statics site tokens.old ≡ None }
{
    let place = read_place(alloc, names, statics, tokens)?;
    tokens.expect(b"=")?;
    let value = read_value(alloc, names, statics, tokens)?;
    let statement = assignment(alloc, site, place, value)?;
    Ok(statement)
}

// Whether no assignment begins in front.
fn at_end(tokens: &Cursor) -> bool
    ensures { result ≡ body_spec.ends (front tokens.now) }
{
    tokens.starts_with(b"return") || tokens.starts_with(b"}")
}

// One more statement behind the others.
fn push(body: &mut Items<Stmt>, statement: Stmt) -> Result<(), AllocError>
    ensures found { OnOk result (map stmt_view body.new ≡ map stmt_view body.old ++ stmt_view statement ∷ []) }
    ensures whole { OnOk result (IsWholeStmt statement → All IsWholeStmt body.old → All IsWholeStmt body.new) }
{
    body.push(statement)
}

// The next site, or no memory: no source has that many.
fn next_site(site: u64) -> Result<u64, AllocError>
    ensures { IfOk result (λ next. next ≡ suc site) }
{
    match site.checked_add(1) {
        Some(next) => Ok(next),
        None => Err(AllocError),
    }
}

/// The assignments in front.
pub fn read_assignments(
    alloc: Global,
    names: &Names,
    statics: u64,
    body: &mut Items<Stmt>,
    tokens: &mut Cursor,
) -> Result<(), Form>
    ensures found { OnOk result (body_spec.read_assignments (suc (length tokens.old)) names.now statics 1 (map stmt_view body.old) tokens.old ≡ got (map stmt_view body.new) tokens.new) }
    ensures whole { OnOk result (All IsWholeStmt body.old → All IsWholeStmt body.new) }
    ensures none { IsErrOf result NoForm → body_spec.read_assignments (suc (length tokens.old)) names.now statics 1 (map stmt_view body.old) tokens.old ≡ None }
{
    let mut site: u64 = 1;
    while !at_end(tokens) {
        let statement = match read_assignment(alloc, names, statics, site, tokens) {
            Ok(statement) => statement,
            Err(error) => return Err(error),
        };
        push(body, statement)?;
        site = next_site(site)?;
    }
    Ok(())
}

/// The return in front, in an int function.
pub fn read_return(
    alloc: Global,
    names: &Names,
    statics: u64,
    gives_int: bool,
    body: &mut Items<Stmt>,
    tokens: &mut Cursor,
) -> Result<(), Form>
    ensures found { OnOk result (body_spec.read_return names.now statics gives_int (map stmt_view body.old) tokens.old ≡ got (map stmt_view body.new) tokens.new) }
    ensures whole { OnOk result (All IsWholeStmt body.old → All IsWholeStmt body.new) }
    ensures none { IsErrOf result NoForm → body_spec.read_return names.now statics gives_int (map stmt_view body.old) tokens.old ≡ None }
{
    if !gives_int {
        return Ok(());
    }
    tokens.expect(b"return")?;
    let value = read_value(alloc, names, statics, tokens)?;
    let statement = giving(alloc, value)?;
    push(body, statement)?;
    Ok(())
}
