//! The machine that runs goto programs.
#![tactic(auto)]

mod act;
mod draw;
mod havoc;
mod index;
mod instr;
mod kills;
mod machine;
mod now;
mod objects;
mod over;
mod program;
mod run;
mod sets;
mod write;

pub use run::run_goto;
