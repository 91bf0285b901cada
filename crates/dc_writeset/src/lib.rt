//! What may be written and freed: sets one within the other, and the objects that were freed.
#![tactic(auto)]

pub mod laws;
mod named;
mod set;
mod sets;

pub use sets::WriteSets;
