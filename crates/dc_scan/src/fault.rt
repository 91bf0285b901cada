// Why a text wasn't scanned.
ghost use Rattle.std.specs.Prelude.{◌≡◌};
ghost use Rattle.dc_scan.specs.declared.fault.Scan.TheVariants.{Memory};

use std::alloc::AllocError;
use thiserror::Error;

/// Why a text is no goto text. Lines are numbered from 1.
#[derive(Debug, Drop, Error)]
pub enum Scan {
    /// The line of this number is the first that is no line form.
    #[error("line {0}")]
    Line(u64),

    /// All lines are line forms, and the line of this number is the first that breaks a rule, or is missing.
    #[error("shape {0}")]
    Shape(u64),

    /// There was no memory for the program.
    #[error("memory")]
    Memory(AllocError),
}

impl From<AllocError> for Scan {
    ghost from_gives = { λ e scan. scan ≡ Memory e };

    fn from(error: AllocError) -> Self {
        Scan::Memory(error)
    }
}
