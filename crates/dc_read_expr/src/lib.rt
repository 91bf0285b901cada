//! Expressions are read from tokens: the longest that is spelled at a place.
#![tactic(auto)]

mod above;
mod aggregates;
mod binary;
mod declarators;
mod expression;
mod fault;
mod lists;
mod marks;
mod phrases;
mod postfix;
mod primary;
mod read;
mod reader;
mod types;
mod unary;
mod words;

pub use expression::read_expr;
pub use fault::Syntax;
pub use lists::{ReadItems, behind, has_more, list_end};
pub use marks::{begins_comma, begins_semicolon, closes, closes_body, opens_body};
pub use phrases::{read_conditions, read_declarator, read_specs, read_upto};
pub use read::{Read, higher, place, word};
pub use types::{ReadSpecs, begins_specs, leaves};
