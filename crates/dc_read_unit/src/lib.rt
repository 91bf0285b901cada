//! Units are read from tokens: declarations, clauses and statements.
#![tactic(auto)]

mod clauses;
mod declarations;
mod externals;
mod initializers;
mod marks;
mod read;
mod statements;
mod unit;

pub use unit::read_unit;
