//! The memory of C programs: objects of bytes, and pointers as numbers.
#![tactic(auto)]

mod access;
mod bytes;
mod encoding;
mod kind;
pub mod laws;
mod object;
mod pointer;
mod store;

pub use kind::MemKind;
pub use object::{ObjKind, Object};
pub use pointer::{object_number, offset};
pub use store::{Create, Store};
