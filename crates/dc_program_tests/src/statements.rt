// Copies of statements.
use crate::made::{literal, location, number, repeated, said, statement, told, variables};
use dc_program::{Duplicate, Init, Stmt, StmtForm};
use sqlite_items::Items;
use std::alloc::{AllocError, Global};
use std::test::Fail;

// The form of a copy of a statement of this form.
fn copied(alloc: Global, form: StmtForm) -> Result<StmtForm, AllocError> {
    let statement = Stmt::new(alloc, form)?;
    let copy = statement.duplicate(alloc)?;
    Ok(copy.form.into_inner())
}

#[test]
fn declarations(rt: HostRuntime) -> Result<(), Fail> {
    let variables = variables(rt.alloc())?;
    let copy = copied(rt.alloc(), StmtForm::Declaration(variables))?;
    let StmtForm::Declaration(copies) = &copy else {
        return Err(Fail::from("declaration"));
    };
    let [variable] = copies.as_slice() else {
        return Err(Fail::from("one variable"));
    };
    assert_eq!(rt; variable.number, 4);
    assert!(rt; variable.site == Some(location()));
    let Some(Init::Value(value)) = &variable.init else {
        return Err(Fail::from("a value"));
    };
    assert_eq!(rt; number(value), 1);
    Ok(())
}

#[test]
fn braces(rt: HostRuntime) -> Result<(), Fail> {
    let mut parts = Items::new(rt.alloc());
    parts.push(Init::Value(literal(rt.alloc(), 5)?))?;
    let copy = Init::Braces(parts).duplicate(rt.alloc())?;
    let Init::Braces(copies) = &copy else {
        return Err(Fail::from("braces"));
    };
    let [Init::Value(value)] = copies.as_slice() else {
        return Err(Fail::from("one part"));
    };
    assert_eq!(rt; number(value), 5);
    Ok(())
}

#[test]
fn labels(rt: HostRuntime) -> Result<(), Fail> {
    let labelled = statement(rt.alloc(), 6)?;
    let copy = copied(rt.alloc(), StmtForm::Case(-8, labelled))?;
    let StmtForm::Case(-8, labelled) = &copy else {
        return Err(Fail::from("case"));
    };
    assert_eq!(rt; told(labelled), 6);
    Ok(())
}

#[test]
fn contracts(rt: HostRuntime) -> Result<(), Fail> {
    let repeats = repeated(rt.alloc())?;
    let copy = repeats.duplicate(rt.alloc())?;
    let Some(contract) = &copy.contract else {
        return Err(Fail::from("a contract"));
    };
    assert_eq!(rt; said(&contract.invariants), 2);
    assert_eq!(rt; contract.assigned.as_slice().len(), 1);
    let [measure] = contract.measures.as_slice() else {
        return Err(Fail::from("one measure"));
    };
    assert_eq!(rt; number(measure), 3);
    Ok(())
}
