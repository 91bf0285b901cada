// Statements and declarations.
ghost use Rattle.std.specs.Prelude.{◌≡◌, IfOk};

use crate::contract::LoopContract;
use crate::expression::Expr;
use crate::location::Location;
use dc_layout::CType;
use sqlite_items::{Boxed, Items};
use std::alloc::{AllocError, Global};

/// A loop: its number and line, and its contract, if it has one.
#[derive(Drop)]
pub struct Loop {
    pub location: Location,
    pub contract: Option<LoopContract>,
}

/// What a variable or a part of it begins with.
#[derive(Drop)]
pub enum Init {
    /// A value.
    Value(Expr),
    /// `{ i , .. }`, for the first parts of an array or struct.
    Braces(Items<Init>),
}

/// A local variable: its number, its type, what it begins with, and its site where a struct value is among that.
#[derive(Drop)]
pub struct Variable {
    pub number: u32,
    pub ty: CType,
    pub init: Option<Init>,
    pub site: Option<Location>,
}

/// A statement (C11 6.8) or a declaration.
#[derive(Drop)]
#[cycle(stmt)]
pub struct Stmt {
    pub form: Boxed<StmtForm>,
}

/// The form of a statement, with its parts in their order.
#[derive(Drop)]
#[cycle(stmt)]
pub enum StmtForm {
    /// A declaration with the variables that it makes; a typedef or a tag makes none.
    Declaration(Items<Variable>),
    /// `{ .. }`
    Block(Items<Stmt>),
    /// `;`
    Empty,
    /// `e ;`
    Expression(Expr),
    /// `return ;`
    Return,
    /// `return e ;`
    ReturnWith(Expr),
    /// `break ;`
    Break,
    /// `continue ;`
    Continue,
    /// `if ( e ) s`
    If(Expr, Stmt),
    /// `if ( e ) s else t`
    IfElse(Expr, Stmt, Stmt),
    /// `while ( e ) s`
    While(Loop, Expr, Stmt),
    /// `do s while ( e ) ;`
    DoWhile(Loop, Stmt, Expr),
    /// `for ( d e ; a ) s`: a declaration, an expression or nothing first, then the condition, the step and what is repeated.
    For(Loop, Stmt, Option<Expr>, Option<Expr>, Stmt),
    /// `switch ( e ) { .. }`
    Switch(Expr, Items<Stmt>),
    /// `case c : s`
    Case(i128, Stmt),
    /// `default : s`
    Default(Stmt),
}

impl Stmt {
    /// The statement of this form. Where there is no memory, nothing is left of it.
    pub fn new(alloc: Global, form: StmtForm) -> Result<Stmt, AllocError>
        ensures { IfOk result (λ s. s ≡ record { form = form }) }
    {
        let form = Boxed::new(alloc, form)?;
        Ok(Stmt { form })
    }
}
