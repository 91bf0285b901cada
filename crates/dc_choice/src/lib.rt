//! Where the runs of a program take their numbers from, and what they tell of what happens.
#![tactic(auto)]

mod chooser;
mod count_watch;
pub mod laws;
mod list_chooser;
mod read;
mod watch;

pub use chooser::Chooser;
pub use count_watch::CountWatch;
pub use list_chooser::ListChooser;
pub use read::{ChoiceFault, read_choices};
pub use watch::Watch;
