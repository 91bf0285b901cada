// Integer constant expressions and null pointer constants.
use crate::made::{of, structs};
use dc_layout::LayKind;
use dc_program::{BinOp, CType, Expr, Form, LogicalOp, StructTable, UnaryOp};
use dc_rules::{integer_constant, is_constant_zero, is_null};
use std::alloc::{AllocError, Global};
use std::test::Fail;

// A literal.
fn literal(alloc: Global, text: &[u8], number: i128) -> Result<Expr, AllocError> {
    let ty = of(alloc, text)?;
    Expr::new(alloc, ty, Form::Literal(number))
}

// An int of this form.
fn int(alloc: Global, form: Form) -> Result<Expr, AllocError> {
    Expr::new(alloc, CType::Num(LayKind::S32), form)
}

// Two literals of these types with an operator.
fn binary(
    alloc: Global,
    op: BinOp,
    text: &[u8],
    a: i128,
    other: &[u8],
    b: i128,
) -> Result<Expr, AllocError> {
    let a = literal(alloc, text, a)?;
    let b = literal(alloc, other, b)?;
    int(alloc, Form::Binary(op, a, b))
}

// `1 / 0`
fn undefined(alloc: Global) -> Result<Expr, AllocError> {
    binary(alloc, BinOp::Div, b"i", 1, b"i", 0)
}

// `x`
fn variable(alloc: Global) -> Result<Expr, AllocError> {
    int(alloc, Form::Local(0))
}

#[test]
fn operators(rt: HostRuntime) -> Result<(), Fail> {
    let structs = structs(rt.alloc())?;
    let rows: [(BinOp, &[u8], i128, &[u8], i128, Option<i128>); 16] = [
        (BinOp::Add, b"i", 2, b"i", 3, Some(5)),
        (BinOp::Add, b"i", 2147483647, b"i", 1, None),
        (BinOp::Add, b"u", 4294967295, b"i", 1, Some(0)),
        (BinOp::Sub, b"i", 1, b"i", 1, Some(0)),
        (BinOp::Div, b"i", -7, b"i", 2, Some(-3)),
        (BinOp::Div, b"i", 1, b"i", 0, None),
        (BinOp::Rem, b"i", 1, b"i", 0, None),
        (BinOp::Shl, b"i", 1, b"L", 31, None),
        (BinOp::Shl, b"i", 1, b"i", 32, None),
        (BinOp::Shl, b"u", 1, b"L", 31, Some(2147483648)),
        (BinOp::Shr, b"c", -1, b"i", 1, Some(-1)),
        (BinOp::Lt, b"i", -1, b"u", 1, Some(0)),
        (BinOp::Eq, b"u", 4294967295, b"i", -1, Some(1)),
        (BinOp::Add, b"p", 18446744073709551615, b"i", 2, Some(1)),
        (BinOp::Lt, b"p", 1, b"l", -1, Some(1)),
        (BinOp::Shl, b"p", 1, b"i", 63, Some(9223372036854775808)),
    ];
    for (op, text, a, other, b, wanted) in rows {
        let e = binary(rt.alloc(), op, text, a, other, b)?;
        assert!(rt; integer_constant(&structs, &e) == wanted);
    }
    Ok(())
}

#[test]
fn single_operands(rt: HostRuntime) -> Result<(), Fail> {
    let structs = structs(rt.alloc())?;
    let rows: [(UnaryOp, &[u8], i128, Option<i128>); 7] = [
        (UnaryOp::Plus, b"c", -3, Some(-3)),
        (UnaryOp::Negate, b"u", 1, Some(4294967295)),
        (UnaryOp::Negate, b"i", -2147483648, None),
        (UnaryOp::Complement, b"i", 0, Some(-1)),
        (UnaryOp::Complement, b"p", 0, Some(18446744073709551615)),
        (UnaryOp::Not, b"i", 0, Some(1)),
        (UnaryOp::Not, b"i", 7, Some(0)),
    ];
    for (op, text, a, wanted) in rows {
        let a = literal(rt.alloc(), text, a)?;
        let e = int(rt.alloc(), Form::Unary(op, a))?;
        assert!(rt; integer_constant(&structs, &e) == wanted);
    }
    Ok(())
}

// The value of `a op 1 / 0`
fn beside_undefined(
    alloc: Global,
    structs: &StructTable,
    op: LogicalOp,
    a: i128,
) -> Result<Option<i128>, AllocError> {
    let a = literal(alloc, b"i", a)?;
    let b = undefined(alloc)?;
    let e = int(alloc, Form::Logical(op, a, b))?;
    Ok(integer_constant(structs, &e))
}

#[test]
fn operands_that_are_not_needed(rt: HostRuntime) -> Result<(), Fail> {
    let structs = structs(rt.alloc())?;
    let rows = [
        (LogicalOp::Or, 1, Some(1)),
        (LogicalOp::Or, 0, None),
        (LogicalOp::And, 0, Some(0)),
        (LogicalOp::And, 5, None),
        (LogicalOp::Implies, 0, Some(1)),
        (LogicalOp::Implies, 5, None),
    ];
    for (op, a, wanted) in rows {
        assert!(rt; beside_undefined(rt.alloc(), &structs, op, a)? == wanted);
    }
    let (a, b) = (literal(rt.alloc(), b"i", 1)?, variable(rt.alloc())?);
    let e = int(rt.alloc(), Form::Logical(LogicalOp::Or, a, b))?;
    assert!(rt; integer_constant(&structs, &e).is_none());
    let (a, b) = (literal(rt.alloc(), b"i", 1)?, literal(rt.alloc(), b"i", 9)?);
    let e = int(rt.alloc(), Form::Logical(LogicalOp::And, a, b))?;
    assert!(rt; integer_constant(&structs, &e) == Some(1));
    Ok(())
}

#[test]
fn conditionals(rt: HostRuntime) -> Result<(), Fail> {
    let structs = structs(rt.alloc())?;
    for (test, wanted) in [(1, Some(4)), (0, None)] {
        let a = literal(rt.alloc(), b"i", test)?;
        let b = literal(rt.alloc(), b"i", 4)?;
        let c = undefined(rt.alloc())?;
        let e = int(rt.alloc(), Form::Conditional(a, b, c))?;
        assert!(rt; integer_constant(&structs, &e) == wanted);
    }
    let ty = of(rt.alloc(), b"u")?;
    let a = literal(rt.alloc(), b"i", 1)?;
    let b = literal(rt.alloc(), b"i", -1)?;
    let c = literal(rt.alloc(), b"u", 0)?;
    let e = Expr::new(rt.alloc(), ty, Form::Conditional(a, b, c))?;
    assert!(rt; integer_constant(&structs, &e) == Some(4294967295));
    Ok(())
}

#[test]
fn sizes(rt: HostRuntime) -> Result<(), Fail> {
    let structs = structs(rt.alloc())?;
    let rows: [(&[u8], Option<i128>); 9] = [
        (b"ai", Some(12)),
        (b"0", Some(24)),
        (b"zi", None),
        (b"*zi", Some(8)),
        (b"mc", Some(16777216)),
        (b"mh", None),
        (b"1", None),
        (b"v", None),
        (b"fi", None),
    ];
    for (text, wanted) in rows {
        let t = of(rt.alloc(), text)?;
        let e = int(rt.alloc(), Form::SizeofType(t))?;
        assert!(rt; integer_constant(&structs, &e) == wanted);
        let t = of(rt.alloc(), text)?;
        let a = Expr::new(rt.alloc(), t, Form::Local(0))?;
        let e = int(rt.alloc(), Form::SizeofExpression(a))?;
        assert!(rt; integer_constant(&structs, &e) == wanted);
    }
    Ok(())
}

#[test]
fn casts(rt: HostRuntime) -> Result<(), Fail> {
    let structs = structs(rt.alloc())?;
    let rows: [(&[u8], i128, Option<i128>); 5] = [
        (b"c", 255, Some(-1)),
        (b"b", 256, Some(1)),
        (b"p", -1, Some(18446744073709551615)),
        (b"*v", 0, None),
        (b"v", 0, None),
    ];
    for (text, number, wanted) in rows {
        let a = literal(rt.alloc(), b"i", number)?;
        let ty = of(rt.alloc(), text)?;
        let e = Expr::new(rt.alloc(), ty, Form::Cast(a))?;
        assert!(rt; integer_constant(&structs, &e) == wanted);
    }
    Ok(())
}

// Whether the expression is an integer constant of 0, and whether it is a null pointer constant.
fn zero_and_null(structs: &StructTable, e: &Expr) -> (bool, bool) {
    (is_constant_zero(structs, e), is_null(structs, e))
}

#[test]
fn null_pointer_constants(rt: HostRuntime) -> Result<(), Fail> {
    let structs = structs(rt.alloc())?;
    let zero = literal(rt.alloc(), b"i", 0)?;
    assert!(rt; zero_and_null(&structs, &zero) == (true, true));
    let cast = int(rt.alloc(), Form::Cast(zero))?;
    assert!(rt; zero_and_null(&structs, &cast) == (true, true));
    let difference = binary(rt.alloc(), BinOp::Sub, b"i", 1, b"i", 1)?;
    assert!(rt; zero_and_null(&structs, &difference) == (true, true));
    let one = literal(rt.alloc(), b"i", 1)?;
    assert!(rt; zero_and_null(&structs, &one) == (false, false));
    let none = undefined(rt.alloc())?;
    assert!(rt; zero_and_null(&structs, &none) == (false, false));
    let x = variable(rt.alloc())?;
    assert!(rt; zero_and_null(&structs, &x) == (false, false));
    Ok(())
}

#[test]
fn null_literals(rt: HostRuntime) -> Result<(), Fail> {
    let structs = structs(rt.alloc())?;
    let rows: [(&[u8], i128, (bool, bool)); 4] = [
        (b"*v", 0, (false, true)),
        (b"*v", 1, (false, false)),
        (b"*i", 0, (false, false)),
        (b"L", 0, (true, true)),
    ];
    for (text, number, wanted) in rows {
        let e = literal(rt.alloc(), text, number)?;
        assert!(rt; zero_and_null(&structs, &e) == wanted);
    }
    Ok(())
}
