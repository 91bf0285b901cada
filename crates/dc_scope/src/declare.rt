// Why a name isn't declared.
use std::alloc::AllocError;
use thiserror::Error;

/// Why a name isn't declared.
#[derive(Debug, Drop, Error)]
pub enum Declare {
    /// The name is declared in its scope already, and no second declaration is permitted (C11 6.7 p3).
    #[error("declared twice")]
    Twice,
    /// A function or a variable of file scope is declared already, with another type (C11 6.2.7).
    #[error("declared with another type")]
    Differs,
    /// There is no memory.
    #[error("no memory")]
    Memory(AllocError),
}
