// Why a text wasn't printed.
ghost use Rattle.std.specs.Prelude.{◌≡◌};
ghost use Rattle.dc_print.specs.declared.fault.Print.TheVariants.{Memory};

use std::alloc::AllocError;
use thiserror::Error;

/// Why a program's text wasn't written whole. A prefix of the text may have been written.
#[derive(Debug, Drop, Error)]
pub enum Print {
    /// The sink failed.
    #[error("write fault")]
    Fault,

    /// There was no memory for the text.
    #[error("memory")]
    Memory(AllocError),
}

impl From<AllocError> for Print {
    ghost from_gives = { λ e print. print ≡ Memory e };

    fn from(error: AllocError) -> Self {
        Print::Memory(error)
    }
}
