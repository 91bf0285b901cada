// Small expressions and statements that the tests are made of.
use dc_layout::LayKind;
use dc_program::{
    CType, Clause, Expr, Form, Init, Location, Loop, LoopContract, Range, Stmt, StmtForm, Target,
    Variable,
};
use dc_text::Name;
use sqlite_items::Items;
use std::alloc::{AllocError, Global};

/// A place in a text.
pub fn location() -> Location {
    Location {
        number: 7,
        line: 70,
    }
}

/// The literal of this number, of type int.
pub fn literal(alloc: Global, number: i128) -> Result<Expr, AllocError> {
    Expr::new(alloc, CType::Num(LayKind::S32), Form::Literal(number))
}

/// The number of a literal; -1 where it is none.
pub fn number(expression: &Expr) -> i128 {
    match expression.form.get() {
        Form::Literal(number) => *number,
        _ => -1,
    }
}

/// The literals 1 and 2.
pub fn two(alloc: Global) -> Result<(Expr, Expr), AllocError> {
    let one = literal(alloc, 1)?;
    Ok((one, literal(alloc, 2)?))
}

/// The literals 1, 2 and 3.
pub fn three(alloc: Global) -> Result<(Expr, Expr, Expr), AllocError> {
    let (one, two) = two(alloc)?;
    Ok((one, two, literal(alloc, 3)?))
}

/// The form of a copy of an expression of this form.
pub fn copied(alloc: Global, form: Form) -> Result<Form, AllocError> {
    let expression = Expr::new(alloc, CType::Num(LayKind::S32), form)?;
    let copy = expression.duplicate(alloc)?;
    Ok(copy.form.into_inner())
}

/// `n ;`
pub fn statement(alloc: Global, number: i128) -> Result<Stmt, AllocError> {
    let value = literal(alloc, number)?;
    Stmt::new(alloc, StmtForm::Expression(value))
}

/// The number of a statement that is a literal; -1 where it is none.
pub fn told(statement: &Stmt) -> i128 {
    match statement.form.get() {
        StmtForm::Expression(value) => number(value),
        _ => -1,
    }
}

/// A clause that says the number.
pub fn clause(alloc: Global, number: i128) -> Result<Items<Clause>, AllocError> {
    let condition = literal(alloc, number)?;
    let mut clauses = Items::new(alloc);
    clauses.push(Clause { condition, line: 5 })?;
    Ok(clauses)
}

/// The number that the first clause says; -1 where there is none.
pub fn said(clauses: &Items<Clause>) -> i128 {
    match clauses.as_slice() {
        [first, ..] => number(&first.condition),
        [] => -1,
    }
}

/// A target that names a range, on the condition 1.
pub fn targets(alloc: Global, range: Range) -> Result<Items<Target>, AllocError> {
    let condition = literal(alloc, 1)?;
    let mut targets = Items::new(alloc);
    targets.push(Target {
        condition: Some(condition),
        range,
        line: 6,
    })?;
    Ok(targets)
}

/// A loop with a contract: it may write the whole object of 1, its invariant says 2 and its measure is 3.
pub fn repeated(alloc: Global) -> Result<Loop, AllocError> {
    let written = literal(alloc, 1)?;
    let assigned = targets(alloc, Range::ObjectWhole(written))?;
    let invariants = clause(alloc, 2)?;
    let measure = literal(alloc, 3)?;
    let mut measures = Items::new(alloc);
    measures.push(measure)?;
    Ok(Loop {
        location: location(),
        contract: Some(LoopContract {
            assigned,
            invariants,
            measures,
        }),
    })
}

/// A variable of type int with the number 4, which begins with 1 and has a site.
pub fn variables(alloc: Global) -> Result<Items<Variable>, AllocError> {
    let one = literal(alloc, 1)?;
    let mut variables = Items::new(alloc);
    variables.push(Variable {
        number: 4,
        ty: CType::Num(LayKind::S32),
        init: Some(Init::Value(one)),
        site: Some(location()),
    })?;
    Ok(variables)
}

/// A name.
pub fn name(alloc: Global, bytes: &[u8]) -> Result<Name, AllocError> {
    Name::copied(alloc, bytes)
}
