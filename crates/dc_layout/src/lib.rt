//! C's object types, the table of structs, and where everything lies: sizes, alignments and the offsets of members.
#![tactic(auto)]

mod capped;
mod ctype;
mod fault;
mod kind;
mod sizes;
mod table;

pub use ctype::CType;
pub use fault::Layout;
pub use kind::LayKind;
pub use sizes::{align_of, all_sized, offset_of, size_of};
pub use table::StructTable;
