//! What the runs of a program have in common: numbers, memory, write sets, what is drawn, and what is told.
#![tactic(auto)]

mod draws;
mod entry;
mod fresh;
mod log;
mod memory;
mod number;
mod report;
mod sets;
mod sorts;

pub use draws::{draw, draw_arguments, draw_bytes, draw_value};
pub use entry::{static_objects, with_new, with_outside};
pub use fresh::{Fresh, Storage};
pub use log::Log;
pub use memory::{add, add_all, add_function, add_zeros, let_die, rewrite, rewrite_all};
pub use number::{compute, size};
pub use report::{End, RunReport, Which};
pub use sets::{Range, WriteSet};
