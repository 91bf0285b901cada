// Why a source has no tokens.
ghost use Rattle.std.specs.Prelude.{◌≡◌};
ghost use Rattle.dc_lexer.specs.declared.fault.Lex.TheVariants.{Memory};

use std::alloc::AllocError;
use thiserror::Error;

/// Why a source has no tokens: where its reading stops.
#[derive(Debug, Drop, Error)]
pub enum Lex {
    /// At the byte of this number, from 0, no token begins.
    #[error("byte {0}")]
    Byte(u64),

    /// At the byte of this number, from 0, an integer of 2^64 or more begins.
    #[error("wide {0}")]
    Wide(u64),

    /// The line of this number, from 1, begins with a directive that isn't skipped.
    #[error("directive {0}")]
    Directive(u64),

    /// There was no memory for the tokens.
    #[error("memory")]
    Memory(AllocError),
}

impl From<AllocError> for Lex {
    ghost from_gives = { λ e lex. lex ≡ Memory e };

    fn from(error: AllocError) -> Self {
        Lex::Memory(error)
    }
}
