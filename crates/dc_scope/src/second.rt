// Second declarations of a name in one scope.
ghost use Rattle.std.specs.Prelude.{◌≡◌, if◌then◌else◌};
ghost use Rattle.dc_scope.specs.Declaring.{Answers, broken_beside};
ghost use Rattle.dc_scope.specs.Entities.{entity_view};

use crate::declare::Declare;
use crate::entity::Entity;
use crate::types::same_type;

/// Answers a second declaration of a name beside the first (C11 6.2.7, 6.7 p3). It takes no memory.
pub fn declare_second(first: &Entity, second: &Entity) -> Result<(), Declare>
    ensures { Answers result (broken_beside (entity_view first.now) (entity_view second.now)) }
{
    match first {
        Entity::Function(_, ty) => match second {
            Entity::Function(_, other) => permitted(same_type(ty, other), Declare::Differs),
            _ => Err(Declare::Twice),
        },
        Entity::Static(_, ty) => match second {
            Entity::Static(_, other) => permitted(same_type(ty, other), Declare::Differs),
            _ => Err(Declare::Twice),
        },
        Entity::Typedef(ty) => match second {
            Entity::Typedef(other) => permitted(same_type(ty, other), Declare::Twice),
            _ => Err(Declare::Twice),
        },
        _ => Err(Declare::Twice),
    }
}

// Nothing where the types are the same, or else what is broken.
fn permitted(same: bool, broken: Declare) -> Result<(), Declare>
    ensures { result ≡ (if same then Ok tt else Err broken) }
{
    if same { Ok(()) } else { Err(broken) }
}
