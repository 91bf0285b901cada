//! A goto program from its text: the one spelling of each program, and the first line that isn't of it.
#![tactic(auto)]

mod assembly;
mod checks;
mod control;
mod cursor;
mod expressions;
mod fault;
mod form;
mod functions;
mod instructions;
mod leaf;
mod lines;
mod numbers;
mod objects;
mod pieces;
mod rules;
mod scanner;
mod sequence;
mod sets;
mod shape;
mod signatures;
mod term_rules;
mod words;

pub use fault::Scan;
pub use scanner::scan;
