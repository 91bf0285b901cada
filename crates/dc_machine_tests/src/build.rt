// Goto programs by hand.
use dc_core::{BinOp, LazyOp, Name, NumKind, Term, UnOp};
use dc_goto::{Body, Bytes, GotoProgram, Instr, Sig, StaticVar};
use sqlite_items::{Boxed, Items};
use std::alloc::{AllocError, Global};

/// A name of these characters.
pub fn name(alloc: Global, text: &str) -> Result<Name, AllocError> {
    Name::copied(alloc, text.as_bytes())
}

/// A constant int.
pub fn int(z: i128) -> Term {
    Term::Constant(NumKind::S32, z)
}

fn word(z: i128) -> Term {
    Term::Constant(NumKind::U64, z)
}

/// The int at an address.
pub fn load(alloc: Global, place: Term) -> Result<Term, AllocError> {
    Ok(Term::Load(NumKind::S32, Boxed::new(alloc, place)?))
}

/// What an operator makes of two ints.
pub fn binary(alloc: Global, op: BinOp, a: Term, b: Term) -> Result<Term, AllocError> {
    let a = Boxed::new(alloc, a)?;
    let b = Boxed::new(alloc, b)?;
    Ok(Term::Binary(op, NumKind::S32, a, b))
}

/// A body of this name, with so many parameters and registers.
pub fn body(
    alloc: Global,
    text: &str,
    params: u64,
    regs: u64,
    code: Items<Instr>,
) -> Result<Body, AllocError> {
    Ok(Body {
        name: name(alloc, text)?,
        params,
        regs,
        code,
    })
}

// The body of a function that writes its argument and one more to the object 2.
fn set_body(alloc: Global) -> Result<Body, AllocError> {
    let mut code = Items::new(alloc);
    code.push(Instr::Local(1, 4, Bytes::Zero))?;
    code.push(Instr::Init(NumKind::S32, Term::Register(1), Term::Register(0)))?;
    code.push(Instr::Set(
        2,
        binary(alloc, BinOp::Add, load(alloc, Term::Register(1))?, int(1))?,
    ))?;
    code.push(Instr::Covers(name(alloc, "set.assigns.1")?, Term::Object(2), word(4)))?;
    code.push(Instr::Store(NumKind::S32, Term::Object(2), Term::Register(2)))?;
    code.push(Instr::Return(None))?;
    body(alloc, "set", 1, 3, code)
}

// A call of it with a drawn argument, which is below `below`, where it may write to the object `target`, and after which
// the object 2 must hold `more` than the argument.
fn set_start(alloc: Global, below: i128, target: u64, more: i128) -> Result<Body, AllocError> {
    let mut code = Items::new(alloc);
    code.push(Instr::Statics)?;
    code.push(Instr::OutsideObjects)?;
    code.push(Instr::Draw(0, NumKind::S32))?;
    code.push(Instr::Seen)?;
    code.push(Instr::Require(binary(alloc, BinOp::Lt, Term::Register(0), int(below))?))?;
    code.push(Instr::Push)?;
    code.push(Instr::Range(1, int(1), Term::Object(target), word(4)))?;
    let mut arguments = Items::new(alloc);
    arguments.push(Term::Register(0))?;
    code.push(Instr::Call(None, name(alloc, "set")?, arguments))?;
    code.push(Instr::Seen)?;
    let after = binary(alloc, BinOp::Add, Term::Register(0), int(more))?;
    let test = binary(alloc, BinOp::Eq, load(alloc, Term::Object(2))?, after)?;
    code.push(Instr::Check(name(alloc, "set.postcondition.1")?, test))?;
    code.push(Instr::Pop)?;
    code.push(Instr::Return(None))?;
    body(alloc, ".start", 0, 1, code)
}

// A program with one function `set`, one variable, and these bodies.
fn program(alloc: Global, bodies: Items<Body>) -> Result<GotoProgram, AllocError> {
    let mut params = Items::new(alloc);
    params.push(NumKind::S32)?;
    let mut functions = Items::new(alloc);
    functions.push(Sig {
        name: name(alloc, "set")?,
        result: None,
        params,
    })?;
    let mut statics = Items::new(alloc);
    statics.push(StaticVar {
        name: name(alloc, "g")?,
        size: 4,
    })?;
    Ok(GotoProgram {
        functions,
        statics,
        bodies,
    })
}

/// The function's body and its call, where the argument is below `below`, the object `target` may be written, and the
/// variable must hold `more` than the argument.
pub fn set_program(
    alloc: Global,
    below: i128,
    target: u64,
    more: i128,
) -> Result<GotoProgram, AllocError> {
    let mut bodies = Items::new(alloc);
    bodies.push(set_body(alloc)?)?;
    bodies.push(set_start(alloc, below, target, more)?)?;
    program(alloc, bodies)
}

/// The call alone, without the function's body.
pub fn bodiless_program(alloc: Global) -> Result<GotoProgram, AllocError> {
    let mut bodies = Items::new(alloc);
    bodies.push(set_start(alloc, 100, 2, 1)?)?;
    program(alloc, bodies)
}

/// A start that calls itself.
pub fn endless_program(alloc: Global) -> Result<GotoProgram, AllocError> {
    let mut code = Items::new(alloc);
    code.push(Instr::Call(None, name(alloc, ".start")?, Items::new(alloc)))?;
    let mut bodies = Items::new(alloc);
    bodies.push(body(alloc, ".start", 0, 0, code)?)?;
    program(alloc, bodies)
}

/// A start that adds 1 to a drawn int.
pub fn adding_program(alloc: Global) -> Result<GotoProgram, AllocError> {
    let mut code = Items::new(alloc);
    code.push(Instr::Draw(0, NumKind::S32))?;
    code.push(Instr::Set(1, binary(alloc, BinOp::Add, Term::Register(0), int(1))?))?;
    code.push(Instr::Return(Some(Term::Register(1))))?;
    let mut bodies = Items::new(alloc);
    bodies.push(body(alloc, ".start", 0, 2, code)?)?;
    program(alloc, bodies)
}

/// A program without a start.
pub fn startless_program(alloc: Global) -> Result<GotoProgram, AllocError> {
    program(alloc, Items::new(alloc))
}

/// A start with registers and this code, alone.
pub fn start_program(
    alloc: Global,
    regs: u64,
    code: Items<Instr>,
) -> Result<GotoProgram, AllocError> {
    let mut bodies = Items::new(alloc);
    bodies.push(body(alloc, ".start", 0, regs, code)?)?;
    program(alloc, bodies)
}

/// A start that makes an object of that many bytes.
pub fn local_program(alloc: Global, size: u64) -> Result<GotoProgram, AllocError> {
    let mut code = Items::new(alloc);
    code.push(Instr::Local(0, size, Bytes::Zero))?;
    code.push(Instr::Return(None))?;
    start_program(alloc, 1, code)
}

/// A start that draws the variable's bytes, and returns the int that they are.
pub fn variable_program(alloc: Global) -> Result<GotoProgram, AllocError> {
    let mut code = Items::new(alloc);
    code.push(Instr::Statics)?;
    code.push(Instr::Return(Some(load(alloc, Term::Object(2))?)))?;
    start_program(alloc, 0, code)
}

/// A number as a constant of 64 bits.
pub fn wide(z: i128) -> Term {
    let kind = if z < 0 { NumKind::S64 } else { NumKind::U64 };
    Term::Constant(kind, z)
}

/// A start that returns what an operator makes of two numbers.
pub fn computing_program(
    alloc: Global,
    op: BinOp,
    kind: NumKind,
    a: i128,
    b: i128,
) -> Result<GotoProgram, AllocError> {
    let a = Boxed::new(alloc, wide(a))?;
    let b = Boxed::new(alloc, wide(b))?;
    let mut code = Items::new(alloc);
    code.push(Instr::Return(Some(Term::Binary(op, kind, a, b))))?;
    start_program(alloc, 0, code)
}

/// A start that returns the value of an expression.
pub fn returning_program(alloc: Global, term: Term) -> Result<GotoProgram, AllocError> {
    let mut code = Items::new(alloc);
    code.push(Instr::Return(Some(term)))?;
    start_program(alloc, 0, code)
}

/// A start that returns a number that is converted to the first kind from the second.
pub fn converting_program(
    alloc: Global,
    to: NumKind,
    from: NumKind,
    z: i128,
) -> Result<GotoProgram, AllocError> {
    let value = Boxed::new(alloc, wide(z))?;
    returning_program(alloc, Term::Convert(to, from, value))
}

/// A start that returns minus or the complement of a number.
pub fn negating_program(
    alloc: Global,
    op: UnOp,
    kind: NumKind,
    z: i128,
) -> Result<GotoProgram, AllocError> {
    let value = Boxed::new(alloc, wide(z))?;
    returning_program(alloc, Term::Unary(op, kind, value))
}

/// An expression with the value, or a quotient by 0 in place of none.
pub fn valued(alloc: Global, value: Option<i128>) -> Result<Term, AllocError> {
    match value {
        Some(z) => Ok(wide(z)),
        None => binary(alloc, BinOp::Div, int(1), int(0)),
    }
}

// Likewise in a box.
fn boxed(alloc: Global, value: Option<i128>) -> Result<Boxed<Term>, AllocError> {
    let term = valued(alloc, value)?;
    Boxed::new(alloc, term)
}

/// A start that returns what a lazy operator makes of two values.
pub fn joining_program(
    alloc: Global,
    op: LazyOp,
    a: Option<i128>,
    b: Option<i128>,
) -> Result<GotoProgram, AllocError> {
    let a = boxed(alloc, a)?;
    let b = boxed(alloc, b)?;
    returning_program(alloc, Term::Lazy(op, a, b))
}

/// A start that returns the second value or the third, as the first is.
pub fn choosing_program(
    alloc: Global,
    a: Option<i128>,
    b: Option<i128>,
    c: Option<i128>,
) -> Result<GotoProgram, AllocError> {
    let a = boxed(alloc, a)?;
    let b = boxed(alloc, b)?;
    let c = boxed(alloc, c)?;
    returning_program(alloc, Term::Choice(a, b, c))
}

/// A start that writes a number as a value of one kind, and returns what stands there as a value of another.
pub fn storing_program(
    alloc: Global,
    written: NumKind,
    z: i128,
    read: NumKind,
) -> Result<GotoProgram, AllocError> {
    let place = Boxed::new(alloc, Term::Register(0))?;
    let mut code = Items::new(alloc);
    code.push(Instr::Local(0, 8, Bytes::Zero))?;
    code.push(Instr::Store(written, Term::Register(0), wide(z)))?;
    code.push(Instr::Return(Some(Term::Load(read, place))))?;
    start_program(alloc, 1, code)
}

/// A start that returns a drawn value of the kind.
pub fn drawing_program(alloc: Global, kind: NumKind) -> Result<GotoProgram, AllocError> {
    let mut code = Items::new(alloc);
    code.push(Instr::Draw(0, kind))?;
    code.push(Instr::Return(Some(Term::Register(0))))?;
    start_program(alloc, 1, code)
}
