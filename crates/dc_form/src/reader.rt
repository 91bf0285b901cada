// From bytes to a program.
ghost use Rattle.std.specs.Prelude.{◌≡◌, IfOk, IsErrOf};
ghost use Rattle.dc_core.specs.Program as plain;
ghost use Rattle.dc_core.specs.Whole.{Says};
ghost use Rattle.dc_program.specs.ProgramView.{program_view};
ghost use Rattle.dc_form.specs.Form.{IsForm};
ghost use Rattle.dc_form.specs.declared.reader.Form.TheVariants.{NoForm, Memory};

use crate::source::read_source;
use crate::tokens::lex;
use dc_program::Program;
use std::alloc::{AllocError, Global};
use thiserror::Error;

/// Why a source wasn't read.
#[derive(Debug, Drop, Error)]
pub enum Form {
    /// The bytes are no source of the form.
    #[error("form")]
    NoForm,

    /// There was no memory for the program.
    #[error("memory")]
    Memory(AllocError),
}

impl From<AllocError> for Form {
    ghost from_gives = { λ e form. form ≡ Memory e };

    fn from(error: AllocError) -> Self {
        Form::Memory(error)
    }
}

/// The program that the bytes mean, where they are a source of the form.
///
/// It fails with `NoForm` only where they are none, and with `Memory` where memory is refused. The bytes are only read, so
/// an error leaves nothing behind.
pub fn read_form(alloc: Global, bytes: &[u8]) -> Result<Program, Form>
    ensures found { IfOk result (λ program. (p : plain.Program) × IsForm bytes.now p × Says p (program_view program)) }
    ensures none { IsErrOf result NoForm → (p : plain.Program) → IsForm bytes.now p → ⊥ }
{
    match lex(alloc, bytes) {
        Ok(tokens) => read_source(alloc, &tokens),
        Err(error) => Err(error),
    }
}
