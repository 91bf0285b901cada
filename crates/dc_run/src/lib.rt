//! The runs of a typed program of the first form, on the numbers that a chooser gives.
#![tactic(auto)]

mod act;
mod assertion;
mod call;
mod clause;
mod entry;
mod run;
mod state;
mod statement;
mod value;

pub use run::{run_contract, run_plain};
