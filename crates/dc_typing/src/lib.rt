//! Expressions with their types, or the first rule that they break.
#![tactic(auto)]

mod builtin;
mod calls;
mod declarators;
mod formed;
mod judge;
mod lists;
mod literals;
mod names;
mod operators;
mod parameters;
mod phrases;
mod places;
mod plain;
mod refusal;
mod specs;
mod spot;
mod typed;
mod words;

pub use plain::is_plain_expression;
pub use refusal::Refusal;
pub use typed::type_expr;
