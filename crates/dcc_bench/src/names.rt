// Names in a scope, as many as are asked for.
ghost use Rattle.std.specs.Prelude.{◌≡◌};
ghost use Rattle.dc_scope.specs.Scopes.{depth_of};

use dc_layout::{CType, LayKind};
use dc_scope::{Declare, Entity, Scopes, Space};
use dc_text::Name;
use std::alloc::{AllocError, Global};

// The name with this number.
fn numbered(alloc: Global, number: u32) -> Result<Name, AllocError> {
    let text = format!(in alloc; "name{number}")?;
    Name::copied(alloc, text.as_bytes())
}

// Declares so many names in the innermost scope.
fn declare_all(alloc: Global, scopes: &mut Scopes, count: u32) -> Result<(), Declare>
    ensures { depth_of scopes.new ≡ depth_of scopes.old }
{
    for number in 0..count {
        let name = numbered(alloc, number).map_err(Declare::Memory)?;
        let local = Entity::Local(number, CType::Num(LayKind::S32));
        scopes.declare(Space::Ordinary, &name, local)?;
    }
    Ok(())
}

// How many of so many names are found.
fn count_found(alloc: Global, scopes: &Scopes, count: u32) -> Result<u32, AllocError> {
    let mut found: u32 = 0;
    for number in 0..count {
        let name = numbered(alloc, number)?;
        if scopes.find(Space::Ordinary, &name).is_some() {
            found = found.saturating_add(1);
        }
    }
    Ok(found)
}

/// Declares so many names in a scope within the file's, finds each and closes the scope: how many were found.
pub fn names_found(alloc: Global, count: u32) -> Result<u32, Declare> {
    let mut scopes = Scopes::new(alloc);
    scopes.enter().map_err(Declare::Memory)?;
    declare_all(alloc, &mut scopes, count)?;
    let found = count_found(alloc, &scopes, count).map_err(Declare::Memory)?;
    scopes.leave();
    Ok(found)
}
