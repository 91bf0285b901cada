//! C's arithmetic on the kinds of numbers, with its undefined values.
#![tactic(auto)]

mod arithmetic;
mod conversions;
mod kind;
mod operators;

pub use arithmetic::{binary, unary};
pub use conversions::{bits, common, convert, promote, truth, value};
pub use kind::NumKind;
pub use operators::{BinOp, UnOp};
