// Copies of expressions, of one form of each group that is copied by a function of its own.
use crate::made::{copied, literal, location, number, three, two};
use dc_layout::LayKind;
use dc_program::{Access, BinOp, CType, Form, LogicalOp, NumKind, Quantifier, StepOp, UnaryOp};
use sqlite_items::Items;
use std::test::Fail;

#[test]
fn leaves(rt: HostRuntime) -> Result<(), Fail> {
    let copy = copied(rt.alloc(), Form::Static(9))?;
    let Form::Static(9) = &copy else {
        return Err(Fail::from("Static"));
    };
    Ok(())
}

#[test]
fn calls(rt: HostRuntime) -> Result<(), Fail> {
    let a = literal(rt.alloc(), 1)?;
    let mut arguments = Items::new(rt.alloc());
    arguments.push(literal(rt.alloc(), 2)?)?;
    let copy = copied(rt.alloc(), Form::Call(a, arguments, location()))?;
    let Form::Call(a, arguments, at) = &copy else {
        return Err(Fail::from("Call"));
    };
    assert_eq!(rt; number(a), 1);
    assert_eq!(rt; arguments.as_slice().len(), 1);
    assert!(rt; *at == location());
    Ok(())
}

#[test]
fn unary(rt: HostRuntime) -> Result<(), Fail> {
    let a = literal(rt.alloc(), 1)?;
    let copy = copied(rt.alloc(), Form::Member(a, 9))?;
    let Form::Member(a, 9) = &copy else {
        return Err(Fail::from("Member"));
    };
    assert_eq!(rt; number(a), 1);
    Ok(())
}

#[test]
fn compound(rt: HostRuntime) -> Result<(), Fail> {
    let (a, b) = two(rt.alloc())?;
    let copy = copied(rt.alloc(), Form::Index(a, b))?;
    let Form::Index(a, b) = &copy else {
        return Err(Fail::from("Index"));
    };
    assert_eq!(rt; number(a), 1);
    assert_eq!(rt; number(b), 2);
    Ok(())
}

#[test]
fn predicates(rt: HostRuntime) -> Result<(), Fail> {
    let (a, b) = two(rt.alloc())?;
    let copy = copied(rt.alloc(), Form::IsFresh(a, b))?;
    let Form::IsFresh(a, b) = &copy else {
        return Err(Fail::from("IsFresh"));
    };
    assert_eq!(rt; number(a), 1);
    assert_eq!(rt; number(b), 2);
    Ok(())
}
