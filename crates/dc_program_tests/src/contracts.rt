// Copies of targets, contracts, functions and options.
use crate::made::{clause, literal, name, number, said, targets, two};
use dc_layout::LayKind;
use dc_program::{
    CType, Contract, Duplicate, Function, Options, Range, Replacement, StaticVariable, Target,
};
use sqlite_items::Items;
use std::alloc::{AllocError, Global};
use std::test::Fail;

// A copy of the one target that names the range.
fn copied(alloc: Global, range: Range) -> Result<Target, AllocError> {
    let all = targets(alloc, range)?;
    let [target] = all.as_slice() else {
        return Err(AllocError);
    };
    target.duplicate(alloc)
}

#[test]
fn lvalues(rt: HostRuntime) -> Result<(), Fail> {
    let place = literal(rt.alloc(), 8)?;
    let target = copied(rt.alloc(), Range::Lvalue(place))?;
    assert_eq!(rt; target.line, 6);
    let Some(condition) = &target.condition else {
        return Err(Fail::from("a condition"));
    };
    assert_eq!(rt; number(condition), 1);
    let Range::Lvalue(place) = &target.range else {
        return Err(Fail::from("an lvalue"));
    };
    assert_eq!(rt; number(place), 8);
    Ok(())
}

#[test]
fn sizes(rt: HostRuntime) -> Result<(), Fail> {
    let (pointer, size) = two(rt.alloc())?;
    let target = copied(rt.alloc(), Range::ObjectUpto(pointer, size))?;
    let Range::ObjectUpto(pointer, size) = &target.range else {
        return Err(Fail::from("so many bytes"));
    };
    assert_eq!(rt; number(pointer), 1);
    assert_eq!(rt; number(size), 2);
    Ok(())
}

// A contract whose clauses say 1 and 2.
fn contract(alloc: Global) -> Result<Contract, AllocError> {
    let required = clause(alloc, 1)?;
    let ensured = clause(alloc, 2)?;
    Ok(Contract {
        required,
        ensured,
        assigned: Items::new(alloc),
        freed: Items::new(alloc),
    })
}

#[test]
fn contracts(rt: HostRuntime) -> Result<(), Fail> {
    let contract = contract(rt.alloc())?;
    let copy = contract.duplicate(rt.alloc())?;
    assert_eq!(rt; said(&copy.required), 1);
    assert_eq!(rt; said(&copy.ensured), 2);
    Ok(())
}

#[test]
fn functions(rt: HostRuntime) -> Result<(), Fail> {
    let function = Function {
        name: name(rt.alloc(), b"f")?,
        result: CType::Num(LayKind::U8),
        params: Items::new(rt.alloc()),
        contract: None,
        body: None,
    };
    let copy = function.duplicate(rt.alloc())?;
    assert!(rt; copy.name.is(b"f"));
    assert!(rt; matches!(&copy.result, CType::Num(LayKind::U8)));
    assert!(rt; copy.body.is_none());
    Ok(())
}

#[test]
fn variables(rt: HostRuntime) -> Result<(), Fail> {
    let variable = StaticVariable {
        name: name(rt.alloc(), b"v")?,
        ty: CType::Struct(3),
    };
    let copy = variable.duplicate(rt.alloc())?;
    assert!(rt; copy.name.is(b"v"));
    assert!(rt; matches!(&copy.ty, CType::Struct(3)));
    Ok(())
}

// Replaces `g` by the contract of `c`.
fn replacement(alloc: Global) -> Result<Replacement, AllocError> {
    let function = name(alloc, b"g")?;
    let contract = name(alloc, b"c")?;
    Ok(Replacement { function, contract })
}

// Enforces `f` by the contract of `d`, with one replacement.
fn choices(alloc: Global) -> Result<Options, AllocError> {
    let mut replace = Items::new(alloc);
    replace.push(replacement(alloc)?)?;
    let enforce = name(alloc, b"f")?;
    let enforce_by = name(alloc, b"d")?;
    Ok(Options {
        enforce,
        enforce_by,
        replace,
        loops: true,
    })
}

#[test]
fn options(rt: HostRuntime) -> Result<(), Fail> {
    let options = choices(rt.alloc())?;
    let copy = options.duplicate(rt.alloc())?;
    assert!(rt; copy.loops);
    assert!(rt; copy.enforce.is(b"f"));
    assert!(rt; copy.enforce_by.is(b"d"));
    assert_eq!(rt; copy.replace.as_slice().len(), 1);
    Ok(())
}
