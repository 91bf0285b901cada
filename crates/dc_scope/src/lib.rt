//! Scopes: what a name stands for, and where a struct has its members.
#![tactic(auto)]

mod declare;
mod entity;
mod key;
pub mod laws;
mod member_names;
mod scope;
mod scopes;
mod second;
mod space;
mod types;

pub use declare::Declare;
pub use entity::Entity;
pub use scopes::Scopes;
pub use space::Space;
