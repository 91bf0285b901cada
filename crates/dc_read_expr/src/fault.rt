// Why nothing was read.
ghost use Rattle.std.specs.Prelude.{◌≡◌};
ghost use Rattle.dc_read_expr.specs.declared.fault.Syntax.TheVariants.{Memory};

use std::alloc::AllocError;
use thiserror::Error;

/// Why nothing was read from tokens.
#[derive(Debug, Drop, Error)]
pub enum Syntax {
    /// Nothing is spelled there that is at most 128 high.
    #[error("no reading")]
    NoReading,

    /// There was no memory for what was read.
    #[error("memory")]
    Memory(AllocError),
}

impl From<AllocError> for Syntax {
    ghost from_gives = { λ e syntax. syntax ≡ Memory e };

    fn from(e: AllocError) -> Syntax {
        Syntax::Memory(e)
    }
}
