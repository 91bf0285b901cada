//! The values of the expressions of the instruction text.
#![tactic(auto)]

mod asked;
mod no_value;
mod objects;
mod operations;
mod operators;
mod places;
mod pointers;
mod quantifiers;
mod ranges;
mod registers;
mod surroundings;
mod term;

pub use objects::{is_heap_start, points_to_data, start};
pub use operators::{holds, is_true};
pub use registers::Registers;
pub use surroundings::Surroundings;
