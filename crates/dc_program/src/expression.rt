// Expressions.
ghost use Rattle.std.specs.Prelude.{◌≡◌, IfOk};

use crate::location::Location;
use crate::operators::{Access, LogicalOp, Quantifier, StepOp, UnaryOp};
use dc_layout::CType;
use dc_num::{BinOp, NumKind};
use sqlite_items::{Boxed, Items};
use std::alloc::{AllocError, Global};

/// An expression with its type. Conversions have no form: what uses a value converts it by the types beside it.
#[derive(Drop)]
#[cycle(expr)]
pub struct Expr {
    pub ty: CType,
    pub form: Boxed<Form>,
}

/// The form of an expression, with its parts in their order. A name is the number of its function, variable or member;
/// parentheses have no form.
#[derive(Drop)]
#[cycle(expr)]
pub enum Form {
    /// A literal, an enumerator or a predefined constant.
    Literal(i128),
    /// A function.
    Function(u32),
    /// A variable of file scope.
    Static(u32),
    /// A parameter or local, numbered together in the order of the text, parameters first.
    Local(u32),
    /// A parameter in a function's clause: the argument at entry.
    Argument(u32),
    /// A value that was kept.
    Kept(u32),
    /// The variable of the quantifier at this depth of nesting, the outermost being 0.
    Quantified(u32),
    /// `__CPROVER_return_value`
    ReturnValue,
    /// `a [ i ]`
    Index(Expr, Expr),
    /// `f ( a , b )`
    Call(Expr, Items<Expr>, Location),
    /// `malloc ( n )`
    Malloc(Expr, Location),
    /// `calloc ( n , m )`
    Calloc(Expr, Expr, Location),
    /// `free ( p )`
    Free(Expr, Location),
    /// `memset ( p , c , n )`
    Memset(Expr, Expr, Expr, Location),
    /// `memcpy ( p , q , n )`
    Memcpy(Expr, Expr, Expr, Location),
    /// `memmove ( p , q , n )`
    Memmove(Expr, Expr, Expr, Location),
    /// `assert ( a )`
    Assert(Expr, Location),
    /// `__CPROVER_assume ( a )`
    Assume(Expr, Location),
    /// `a . m`
    Member(Expr, u32),
    /// `a -> m`
    Through(Expr, u32),
    /// `a ++` or `a --`
    After(StepOp, Expr, Location),
    /// `++ a` or `-- a`
    Before(StepOp, Expr, Location),
    /// `& a`
    AddressOf(Expr),
    /// `* a`
    Deref(Expr),
    /// `+ a`, `- a`, `~ a` or `! a`
    Unary(UnaryOp, Expr),
    /// `sizeof a`
    SizeofExpression(Expr),
    /// `sizeof ( T )`
    SizeofType(CType),
    /// `( T ) a`, to the type of the expression
    Cast(Expr),
    /// Two operands with an operator that needs both.
    Binary(BinOp, Expr, Expr),
    /// `a && b`, `a || b` or `a ==> b`
    Logical(LogicalOp, Expr, Expr),
    /// `a ? b : c`
    Conditional(Expr, Expr, Expr),
    /// `a = b`
    Assign(Expr, Expr, Location),
    /// `a += b`, or with another operator
    AssignBy(BinOp, Expr, Expr, Location),
    /// A quantifier: the kind of its variable, the least number, the first number that is too great, and what is said.
    Quantify(Quantifier, NumKind, Expr, Expr, Expr),
    /// `__CPROVER_is_fresh ( p , n )`
    IsFresh(Expr, Expr),
    /// `__CPROVER_is_freeable ( p )`
    IsFreeable(Expr),
    /// `__CPROVER_was_freed ( p )`
    WasFreed(Expr),
    /// `__CPROVER_pointer_equals ( p , q )`
    PointerEquals(Expr, Expr),
    /// `__CPROVER_pointer_in_range_dfcc ( low , p , high )`
    PointerInRange(Expr, Expr, Expr),
    /// `__CPROVER_r_ok ( p , n )`, and for writing
    IsAccessible(Access, Expr, Expr),
    /// `__CPROVER_obeys_contract ( f , c )`, where c is a function
    ObeysContract(Expr, u32),
    /// `__CPROVER_old ( a )`
    Old(Expr),
    /// `__CPROVER_loop_entry ( a )`
    LoopEntry(Expr),
}

impl Expr {
    /// The expression of this type and form. Where there is no memory, nothing is left of it.
    pub fn new(alloc: Global, ty: CType, form: Form) -> Result<Expr, AllocError>
        ensures { IfOk result (λ e. e ≡ record { ty = ty; form = form }) }
    {
        let form = Boxed::new(alloc, form)?;
        Ok(Expr { ty, form })
    }
}
