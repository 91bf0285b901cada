//! Names, expressions of the instruction text, what the runs of a program are, and how the typed program says it.
#![tactic(auto)]

pub mod laws;
mod operators;
mod parts;
mod term;

pub use dc_num::{BinOp, NumKind, UnOp};
pub use dc_text::Name;
pub use operators::{LazyOp, Property, Quantifier, RangeTest};
pub use parts::{assigned, body, ensured, function, gives_int, parameters, params, required};
pub use term::Term;
