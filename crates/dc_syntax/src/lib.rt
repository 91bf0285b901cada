//! The grammar of C in the profile: which tokens spell which tree.
#![tactic(auto)]

mod declare;
mod duplicate;
mod entry;
mod how_high;
mod in_force;
mod key;
mod keyword;
pub mod laws;
mod lexed;
mod mark;
mod place;
mod raw;
mod token;
mod typedefs;
mod unit;

pub use declare::declare_specs;
pub use how_high::height;
pub use in_force::{
    declare_function, declare_within_function, first_typedefs, has_tag, is_typedef,
};
pub use keyword::Keyword;
pub use lexed::grammar_tokens;
pub use mark::Mark;
pub use place::Place;
pub use raw::{Raw, Tag};
pub use token::{Token, Word};
pub use typedefs::Typedefs;
pub use unit::{Part, Unit};
