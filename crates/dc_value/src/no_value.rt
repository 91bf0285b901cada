// Why there is no value.
ghost use Rattle.std.specs.Prelude.{◌≡◌, List, ℕ};
ghost use Rattle.dc_goto.specs.Values.{have};
ghost use Rattle.dc_value.specs.Answers.{Answers};
ghost use Rattle.dc_value.specs.declared.no_value.NoValue.TheVariants.{Memory};

use std::alloc::AllocError;

// Why there is no value.
#[derive(Drop)]
pub(crate) enum NoValue {
    // The value is undefined.
    Undefined,
    // There is no memory for the list of seen objects, or of the variables.
    Memory(AllocError),
}

impl From<AllocError> for NoValue {
    ghost from_gives = { λ e none. none ≡ Memory e };

    fn from(error: AllocError) -> Self {
        NoValue::Memory(error)
    }
}

// A value, where it is defined.
pub(crate) fn defined(value: Option<i128>) -> Result<i128, NoValue>
    ensures { (seen : List ℕ) → Answers (have value) result seen seen }
{
    match value {
        None => Err(NoValue::Undefined),
        Some(z) => Ok(z),
    }
}
