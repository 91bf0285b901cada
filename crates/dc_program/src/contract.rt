// Clauses, targets and contracts.
use crate::expression::Expr;
use sqlite_items::Items;

/// A clause: what must hold, and the line of its first token.
#[derive(Drop)]
pub struct Clause {
    pub condition: Expr,
    pub line: u64,
}

/// What a target names.
#[derive(Drop)]
pub enum Range {
    /// The bytes of an lvalue, or `__CPROVER_typed_target` of it.
    Lvalue(Expr),
    /// `__CPROVER_object_whole ( p )`
    ObjectWhole(Expr),
    /// `__CPROVER_object_from ( p )`
    ObjectFrom(Expr),
    /// `__CPROVER_object_upto ( p , n )`
    ObjectUpto(Expr, Expr),
    /// The object of a pointer, in a frees clause.
    Object(Expr),
}

/// A target of an assigns or frees clause: where its group has one the condition, what it names, and the line of its own
/// first token.
#[derive(Drop)]
pub struct Target {
    pub condition: Option<Expr>,
    pub range: Range,
    pub line: u64,
}

/// Clauses in order.
pub type Clauses = Items<Clause>;

/// Targets in order.
pub type Targets = Items<Target>;

/// What a function asks for and promises, and what it may write and free. The words of the clauses themselves are kept for
/// the contracts of this text.
#[derive(Drop)]
pub struct Contract {
    pub required: Clauses,
    pub ensured: Clauses,
    pub assigned: Targets,
    pub freed: Targets,
}

/// What a loop may write, what holds before each turn, and what gets less with each turn, the first of them counting most.
#[derive(Drop)]
pub struct LoopContract {
    pub assigned: Targets,
    pub invariants: Clauses,
    pub measures: Items<Expr>,
}
