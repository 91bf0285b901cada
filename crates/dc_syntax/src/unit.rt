// The trees of initializers, clauses, statements, declarations and units.
use crate::place::Place;
use crate::raw::Raw;
use sqlite_items::{Boxed, Items};

/// What was read of a unit: a variant for each alternative of the grammar, with its parts and its place.
#[derive(Drop)]
pub enum Part {
    /// An initializer that is an expression (C11 6.7.9).
    Single(Boxed<Raw>),
    /// `{ i , .. }`: the first initializer, and those after it
    Braces(Boxed<Part>, Items<Part>, Place),
    /// A declarator without an initializer (C11 6.7).
    Plain(Boxed<Raw>, Place),
    /// `d = i`
    Initialized(Boxed<Raw>, Boxed<Part>, Place),
    /// `__CPROVER_requires ( c )`
    Requires(Boxed<Raw>, Place),
    /// `__CPROVER_ensures ( c )`
    Ensures(Boxed<Raw>, Place),
    /// `__CPROVER_assigns ( groups )`
    Assigns(Items<Part>, Place),
    /// `__CPROVER_frees ( groups )`
    Frees(Items<Part>, Place),
    /// `__CPROVER_loop_invariant ( c )`
    LoopInvariant(Boxed<Raw>, Place),
    /// `__CPROVER_decreases ( a , .. )`: the first, and those after it
    Decreases(Boxed<Raw>, Items<Raw>, Place),
    /// `a , ..` in a clause: the first, and those after it
    Group(Boxed<Raw>, Items<Raw>, Place),
    /// `c : a , ..` in a clause: the condition, the first, and those after it
    GroupIf(Boxed<Raw>, Boxed<Raw>, Items<Raw>, Place),
    /// `{ .. }`: statements and declarations (C11 6.8.2)
    Block(Items<Part>, Place),
    /// `;`
    Empty(Place),
    /// `e ;`
    Simple(Boxed<Raw>, Place),
    /// `return ;`
    Return(Place),
    /// `return e ;`
    ReturnValue(Boxed<Raw>, Place),
    /// `break ;`
    Break(Place),
    /// `continue ;`
    Continue(Place),
    /// `if ( e ) a`
    If(Boxed<Raw>, Boxed<Part>, Place),
    /// `if ( e ) a else b`
    IfElse(Boxed<Raw>, Boxed<Part>, Boxed<Part>, Place),
    /// `while ( e ) clauses a`
    While(Boxed<Raw>, Items<Part>, Boxed<Part>, Place),
    /// `do a while ( e ) clauses ;`
    Do(Boxed<Part>, Boxed<Raw>, Items<Part>, Place),
    /// `for ( f ; e ; s ) clauses a`
    For(Boxed<Part>, Boxed<Part>, Boxed<Part>, Items<Part>, Boxed<Part>, Place),
    /// `switch ( e ) a`
    Switch(Boxed<Raw>, Boxed<Part>, Place),
    /// `case c : a`
    Case(Boxed<Raw>, Boxed<Part>, Place),
    /// `default : a`
    Default(Boxed<Part>, Place),
    /// An expression of a `for` that is left away.
    NoStep,
    /// An expression of a `for`.
    Step(Boxed<Raw>),
    /// A declaration at the front of a `for`: specs, the first declarator, and those after it.
    FirstDeclaration(Items<Raw>, Boxed<Part>, Items<Part>, Place),
    /// Specs with declarators, up to a semicolon (C11 6.7).
    Declaration(Items<Raw>, Items<Part>, Place),
    /// Specs, a declarator, clauses and a block (C11 6.9.1).
    Definition(Items<Raw>, Boxed<Raw>, Items<Part>, Boxed<Part>, Place),
    /// Specs, a declarator and clauses, up to a semicolon: the first clause, and those after it.
    Prototype(Items<Raw>, Boxed<Raw>, Boxed<Part>, Items<Part>, Place),
}

/// A unit: its declarations and definitions in order (C11 6.9).
#[derive(Drop)]
pub struct Unit {
    pub externals: Items<Part>,
}
