//! The text of a goto program, as lines and into a sink.
#![tactic(auto)]

mod checks;
mod decimal;
mod fault;
mod flow;
mod instructions;
mod lines;
mod memory;
mod objects;
mod operators;
mod registers;
mod sets;
mod terms;
mod words;
mod written;

pub use fault::Print;
pub use lines::{Lines, text_lines};
pub use written::{print, write_lines};
