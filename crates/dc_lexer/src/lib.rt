//! The tokens of a C source, and the place where its reading stops.
#![tactic(auto)]

mod characters;
mod digits;
mod directives;
mod fault;
mod front;
mod integers;
mod kind;
mod laws;
mod lexemes;
mod lexer;
mod punctuators;
mod separators;
mod suffixes;
mod tokens;
mod widths;
mod words;

pub use fault::Lex;
pub use kind::Kind;
pub use laws::one_cut;
pub use lexer::lex;
pub use tokens::{Token, Tokens};
