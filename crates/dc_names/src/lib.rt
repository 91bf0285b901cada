//! Names that are found without a walk through all of them.
#![tactic(auto)]

mod name_ref;
mod names;

pub use name_ref::NameRef;
pub use names::Names;
