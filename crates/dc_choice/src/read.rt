// Lists of choices, read from JSON.
ghost use Rattle.std.specs.Prelude.{◌≡◌, Some, MatchResult};
ghost use Rattle.serde_json.specs.View.{view, items_view};
ghost use Rattle.dc_choice.specs.Reading.{reading, judged, judged_from};
ghost use Rattle.dc_choice.specs.Answer.{Answers, IsNotJson};

use dc_text::Choices;
use serde_json::{Category, Value};
use std::alloc::{AllocError, Global};
use thiserror::Error;

/// Why bytes are no list of choices.
#[derive(Debug, Drop, Error)]
pub enum ChoiceFault {
    /// The bytes are not JSON, or nest deeper than 127.
    #[error("choices not JSON")]
    NotJson,

    /// They are JSON, but not an array.
    #[error("choices not an array")]
    NotArray,

    /// They are an array, whose first member that is no unsigned number of 64 bits has this index, from 0.
    #[error("choices at {0}")]
    NotNumbers(u64),

    /// There was no memory.
    #[error("memory")]
    Memory(AllocError),
}

/// The numbers of a JSON array, in order.
pub fn read_choices(alloc: Global, bytes: &[u8]) -> Result<Choices, ChoiceFault>
    ensures { Answers (judged (reading bytes.now)) result }
{
    let value = value_of(alloc, bytes)?;
    let Some(members) = value.as_array() else {
        return Err(ChoiceFault::NotArray);
    };
    numbers_of(alloc, members)
}

// The value that the bytes are.
fn value_of(alloc: Global, bytes: &[u8]) -> Result<Value, ChoiceFault>
    ensures { MatchResult result (λ value. reading bytes.now ≡ Some (view value)) (IsNotJson (reading bytes.now)) }
{
    match Value::from_slice(alloc, bytes) {
        Ok(value) => Ok(value),
        Err(fault) => match fault.classify() {
            Category::Memory => Err(ChoiceFault::Memory(AllocError)),
            _ => Err(ChoiceFault::NotJson),
        },
    }
}

// The numbers that the members are.
fn numbers_of(alloc: Global, members: &[Value]) -> Result<Choices, ChoiceFault>
    ensures { Answers (judged_from 0 (items_view members.now)) result }
{
    let mut numbers = Vec::new(alloc);
    for (place, member) in members.iter().enumerate() {
        let Some(number) = member.as_u64() else {
            return Err(ChoiceFault::NotNumbers(place as u64));
        };
        numbers
            .push(number)
            .map_err(|_| ChoiceFault::Memory(AllocError))?;
    }
    Ok(Choices::of(numbers))
}
