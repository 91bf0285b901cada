// Calls of scopes in a row, each with what is wanted of it.
use crate::what::{What, entity, is};
use dc_scope::{Declare, Scopes, Space};
use dc_text::Name;
use std::alloc::{AllocError, Global};

/// A call, and what is wanted of it.
#[derive(Clone, Copy)]
pub enum Step {
    /// A scope is opened.
    Enter,
    /// A scope is closed.
    Leave,
    /// So many scopes are around the innermost one.
    Depth(usize),
    /// A name is declared, with this letter of the answer: `o` for none, `t` for `Twice`, `d` for `Differs`.
    Declare(Space, &'static [u8], What, u8),
    /// A name stands for what is shown as this letter and number.
    Find(Space, &'static [u8], u8, i128),
    /// The same in the innermost scope alone.
    FindInner(Space, &'static [u8], u8, i128),
}

// The letter of what a declaration comes to.
fn letter(outcome: Result<(), Declare>) -> u8 {
    match outcome {
        Ok(()) => b'o',
        Err(Declare::Twice) => b't',
        Err(Declare::Differs) => b'd',
        Err(Declare::Memory(_)) => b'm',
    }
}

// The letter of what a declaration in the innermost scope comes to.
fn declared(
    alloc: Global,
    scopes: &mut Scopes,
    space: Space,
    name: &Name,
    what: What,
) -> Result<u8, AllocError> {
    let what = entity(alloc, what)?;
    Ok(letter(scopes.declare(space, name, what)))
}

// Whether the call comes to what is wanted of it.
fn comes(alloc: Global, scopes: &mut Scopes, step: Step) -> Result<bool, AllocError> {
    match step {
        Step::Enter => {
            scopes.enter()?;
            Ok(true)
        }
        Step::Leave => {
            if scopes.depth() == 0 {
                return Ok(false);
            }
            scopes.leave();
            Ok(true)
        }
        Step::Depth(depth) => Ok(scopes.depth() == depth),
        Step::Declare(space, name, what, wanted) => {
            let name = Name::copied(alloc, name)?;
            Ok(declared(alloc, scopes, space, &name, what)? == wanted)
        }
        Step::Find(space, name, letter, number) => {
            let name = Name::copied(alloc, name)?;
            Ok(is(scopes.find(space, &name), letter, number))
        }
        Step::FindInner(space, name, letter, number) => {
            let name = Name::copied(alloc, name)?;
            Ok(is(scopes.find_inner(space, &name), letter, number))
        }
    }
}

/// The index of the first step that doesn't come to what is wanted of it, from the file's scope on; none where all do.
pub fn first_wrong(alloc: Global, steps: &[Step]) -> Result<Option<usize>, AllocError> {
    let mut scopes = Scopes::new(alloc);
    for (index, step) in steps.iter().enumerate() {
        if !comes(alloc, &mut scopes, *step)? {
            return Ok(Some(index));
        }
    }
    Ok(None)
}
