//! Sources of the form that is read so far: from bytes to tokens to a typed program.
#![tactic(auto)]

mod body;
mod clauses;
mod cursor;
mod expressions;
mod names;
mod numbers;
mod reader;
mod signature;
mod source;
mod text;
mod tokens;
mod words;

pub use reader::{Form, read_form};
