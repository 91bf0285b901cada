// Why nothing was read from a line.
ghost use Rattle.std.specs.Prelude.{◌≡◌};
ghost use Rattle.dc_scan.specs.declared.form.Form.TheVariants.{Memory};

use std::alloc::AllocError;
use thiserror::Error;

/// Why nothing was read.
#[derive(Debug, Drop, Error)]
pub enum Form {
    /// The bytes aren't of the form.
    #[error("form")]
    NoForm,

    /// There was no memory.
    #[error("memory")]
    Memory(AllocError),
}

impl From<AllocError> for Form {
    ghost from_gives = { λ e form. form ≡ Memory e };

    fn from(error: AllocError) -> Self {
        Form::Memory(error)
    }
}
