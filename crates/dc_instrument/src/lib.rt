//! Instrumentation: from a typed program to the goto program that checks its function.
#![tactic(auto)]

mod assertion;
mod code;
mod expression;
mod function;
pub mod laws;
mod places;
mod program;
mod start;

pub use program::lowered;
