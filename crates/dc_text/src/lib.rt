//! Names and how they are formed, numbers as text, lists of choices, and the events of a run with their counts.
#![tactic(auto)]

mod choices;
mod decimal;
mod event;
pub mod laws;
mod name;
mod names;
mod reserved;
mod site;
mod word;

pub use choices::Choices;
pub use decimal::{put_decimal, read_decimal};
pub use event::{Counts, Event};
pub use name::Name;
pub use names::Names;
pub use reserved::is_reserved_word;
pub use site::Site;
pub use word::{is_formed, is_letter_byte, is_word_byte};
