//! The typed program: expressions with their types, statements, contracts, functions.
#![tactic(auto)]

mod contract;
mod duplicate;
mod expression;
mod expression_copies;
mod kinds;
mod location;
mod operators;
mod program;
mod rule;
mod statement;
mod statement_copies;

pub use contract::{Clause, Clauses, Contract, LoopContract, Range, Target, Targets};
pub use dc_layout::{CType, StructTable};
pub use dc_num::{BinOp, NumKind};
pub use duplicate::Duplicate;
pub use expression::{Expr, Form};
pub use kinds::{lay_kind, mem_kind, num_kind};
pub use location::Location;
pub use operators::{Access, LogicalOp, Quantifier, StepOp, UnaryOp};
pub use program::{Function, Options, Program, Replacement, StaticVariable};
pub use rule::Rule;
pub use statement::{Init, Loop, Stmt, StmtForm, Variable};
