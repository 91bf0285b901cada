// The clauses of a function.
ghost use Rattle.std.specs.Prelude.{◌≡◌, ◌≤◌, ◌<◌, ◌++◌, [], ◌∷◌, suc, length, map, All, IfOk, IfSome, OnOk, IsErrOf, None, Some};
ghost use Rattle.std.specs.Option.{option_map};
ghost use Rattle.dc_core.specs.Program as plain;
ghost use Rattle.dc_core.specs.View.{expr_view, form_view, clause_view, target_view, contract_view};
ghost use Rattle.dc_core.specs.Whole.{InClause};
ghost use Rattle.dc_form.specs.Read.Clauses as clauses;
ghost use Rattle.dc_form.specs.Read.Reading.{got};
ghost use Rattle.dc_form.specs.Read.Whole.{IsWhole, IsWholeClause, IsWholeContract, IsWholeForm, IsWholeTarget};
ghost use Rattle.dc_form.specs.declared.reader.Form.TheVariants.{NoForm};

use crate::cursor::Cursor;
use crate::expressions::{given, read_test, small};
use crate::reader::Form;
use crate::tokens::Token;
use dc_names::Names;
use dc_program::{Clause, Contract, Expr, Form as ExprForm, Range, Target};
use sqlite_items::Items;
use std::alloc::{AllocError, Global};

// The comparison in parentheses in front.
fn read_condition(
    alloc: Global,
    names: &Names,
    statics: u64,
    valued: bool,
    tokens: &mut Cursor,
) -> Result<Expr, Form>
    ensures found { IfOk result (λ e. clauses.read_condition names.now statics valued tokens.old ≡ got (expr_view e) tokens.new) }
    ensures whole { IfOk result (IsWhole InClause) }
    ensures shorter { OnOk result (length tokens.new < length tokens.old) }
    ensures none { IsErrOf result NoForm → clauses.read_condition names.now statics valued tokens.old ≡ None }
{
    tokens.expect(b"(")?;
    let condition = read_test(alloc, names, statics, valued, tokens)?;
    tokens.expect(b")")?;
    Ok(condition)
}

// The variable of this name.
fn target_of(names: &Names, statics: u64, word: &Token) -> Result<Option<ExprForm>, AllocError>
    ensures found { IfOk result (λ o. option_map form_view o ≡ clauses.target_of names.now statics word.now) }
    ensures whole { IfOk result (λ o. IfSome o (IsWholeForm InClause)) }
{
    let Some(number) = names.find(word.as_slice()) else {
        return Ok(None);
    };
    if (number as u64) < statics {
        Ok(Some(ExprForm::Static(small(number as u64)?)))
    } else {
        Ok(None)
    }
}

// One more condition behind the others.
fn push(clauses: &mut Items<Clause>, condition: Expr) -> Result<(), AllocError>
    ensures found { OnOk result (map clause_view clauses.new ≡ map clause_view clauses.old ++ expr_view condition ∷ []) }
    ensures whole { OnOk result (IsWhole InClause condition → All IsWholeClause clauses.old → All IsWholeClause clauses.new) }
{
    clauses.push(Clause { condition, line: 0 })
}

// One more target behind the others.
fn push_target(targets: &mut Items<Target>, place: Expr) -> Result<(), AllocError>
    ensures found { OnOk result (map target_view targets.new ≡ map target_view targets.old ++ expr_view place ∷ []) }
    ensures whole { OnOk result (IsWhole InClause place → All IsWholeTarget targets.old → All IsWholeTarget targets.new) }
{
    targets.push(Target {
        condition: None,
        range: Range::Lvalue(place),
        line: 0,
    })
}

// The variable of this name, behind the others.
fn add_target(
    alloc: Global,
    names: &Names,
    statics: u64,
    targets: &mut Items<Target>,
    word: &Token,
) -> Result<(), Form>
    ensures found { OnOk result ((e : plain.Expr) × (Some e ≡ clauses.target_of names.now statics word.now) × (map target_view targets.new ≡ map target_view targets.old ++ e ∷ [])) }
    ensures whole { OnOk result (All IsWholeTarget targets.old → All IsWholeTarget targets.new) }
    ensures none { IsErrOf result NoForm → clauses.target_of names.now statics word.now ≡ None }
{
    let form = target_of(names, statics, word)?;
    let place = given(alloc, form)?;
    push_target(targets, place)?;
    Ok(())
}

// The variables in front, behind these.
fn read_targets(
    alloc: Global,
    names: &Names,
    statics: u64,
    targets: &mut Items<Target>,
    tokens: &mut Cursor,
) -> Result<(), Form>
    ensures found { OnOk result (clauses.read_targets names.now statics (map target_view targets.old) tokens.old ≡ got (map target_view targets.new) tokens.new) }
    ensures whole { OnOk result (All IsWholeTarget targets.old → All IsWholeTarget targets.new) }
    ensures shorter { OnOk result (length tokens.new < length tokens.old) }
    ensures none { IsErrOf result NoForm → clauses.read_targets names.now statics (map target_view targets.old) tokens.old ≡ None }
{
    loop {
        let Some(word) = tokens.next() else {
            return Err(Form::NoForm);
        };
        if let Err(error) = add_target(alloc, names, statics, targets, word) {
            return Err(error);
        }
        if !tokens.take(b",") {
            return Ok(());
        }
    }
}

// The rest of a requires in front.
fn read_requires(
    alloc: Global,
    names: &Names,
    statics: u64,
    contract: &mut Contract,
    tokens: &mut Cursor,
) -> Result<(), Form>
    ensures found { OnOk result (clauses.read_requires names.now statics (contract_view contract.old) tokens.old ≡ got (contract_view contract.new) tokens.new) }
    ensures whole { OnOk result (IsWholeContract contract.old → IsWholeContract contract.new) }
    ensures shorter { OnOk result (length tokens.new < length tokens.old) }
    ensures none { IsErrOf result NoForm → clauses.read_requires names.now statics (contract_view contract.old) tokens.old ≡ None }
{
    let condition = read_condition(alloc, names, statics, false, tokens)?;
    push(&mut contract.required, condition)?;
    Ok(())
}

// The rest of an ensures in front.
fn read_ensures(
    alloc: Global,
    names: &Names,
    statics: u64,
    gives_int: bool,
    contract: &mut Contract,
    tokens: &mut Cursor,
) -> Result<(), Form>
    ensures found { OnOk result (clauses.read_ensures names.now statics gives_int (contract_view contract.old) tokens.old ≡ got (contract_view contract.new) tokens.new) }
    ensures whole { OnOk result (IsWholeContract contract.old → IsWholeContract contract.new) }
    ensures shorter { OnOk result (length tokens.new < length tokens.old) }
    ensures none { IsErrOf result NoForm → clauses.read_ensures names.now statics gives_int (contract_view contract.old) tokens.old ≡ None }
{
    let condition = read_condition(alloc, names, statics, gives_int, tokens)?;
    push(&mut contract.ensured, condition)?;
    Ok(())
}

// The rest of an assigns in front.
fn read_assigns(
    alloc: Global,
    names: &Names,
    statics: u64,
    contract: &mut Contract,
    tokens: &mut Cursor,
) -> Result<(), Form>
    ensures found { OnOk result (clauses.read_assigns names.now statics (contract_view contract.old) tokens.old ≡ got (contract_view contract.new) tokens.new) }
    ensures whole { OnOk result (IsWholeContract contract.old → IsWholeContract contract.new) }
    ensures shorter { OnOk result (length tokens.new < length tokens.old) }
    ensures none { IsErrOf result NoForm → clauses.read_assigns names.now statics (contract_view contract.old) tokens.old ≡ None }
{
    tokens.expect(b"(")?;
    read_targets(alloc, names, statics, &mut contract.assigned, tokens)?;
    tokens.expect(b")")?;
    Ok(())
}

// The clause in front.
fn read_clause(
    alloc: Global,
    names: &Names,
    statics: u64,
    gives_int: bool,
    contract: &mut Contract,
    tokens: &mut Cursor,
) -> Result<(), Form>
    ensures found { OnOk result (clauses.read_clause names.now statics gives_int (contract_view contract.old) tokens.old ≡ got (contract_view contract.new) tokens.new) }
    ensures whole { OnOk result (IsWholeContract contract.old → IsWholeContract contract.new) }
    ensures shorter { OnOk result (length tokens.new < length tokens.old) }
    ensures none { IsErrOf result NoForm → clauses.read_clause names.now statics gives_int (contract_view contract.old) tokens.old ≡ None }
{
    if tokens.take(b"__CPROVER_requires") {
        return read_requires(alloc, names, statics, contract, tokens);
    }
    if tokens.take(b"__CPROVER_ensures") {
        return read_ensures(alloc, names, statics, gives_int, contract, tokens);
    }
    if tokens.take(b"__CPROVER_assigns") {
        return read_assigns(alloc, names, statics, contract, tokens);
    }
    Err(Form::NoForm)
}

/// The clauses in front, and the `{` behind them.
pub fn read_clauses(
    alloc: Global,
    names: &Names,
    statics: u64,
    gives_int: bool,
    contract: &mut Contract,
    tokens: &mut Cursor,
) -> Result<(), Form>
    ensures found { OnOk result (clauses.read_clauses (suc (length tokens.old)) names.now statics gives_int (contract_view contract.old) tokens.old ≡ got (contract_view contract.new) tokens.new) }
    ensures whole { OnOk result (IsWholeContract contract.old → IsWholeContract contract.new) }
    ensures none { IsErrOf result NoForm → clauses.read_clauses (suc (length tokens.old)) names.now statics gives_int (contract_view contract.old) tokens.old ≡ None }
{
    while !tokens.take(b"{") {
        if let Err(error) = read_clause(alloc, names, statics, gives_int, contract, tokens) {
            return Err(error);
        }
    }
    Ok(())
}
