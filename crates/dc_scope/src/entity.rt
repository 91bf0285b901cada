// What names stand for.
ghost use Rattle.std.specs.Prelude.{◌≡◌, IfOk};

use dc_layout::CType;
use dc_num::NumKind;
use std::alloc::{AllocError, Global};

/// What a name stands for (C11 6.2.1).
#[derive(Drop)]
pub enum Entity {
    /// The function with this number and type.
    Function(u32, CType),
    /// The variable of file scope with this number and type.
    Static(u32, CType),
    /// The parameter or local with this number and type.
    Local(u32, CType),
    /// This type.
    Typedef(CType),
    /// An enumerator or a predefined constant of this kind and value.
    Constant(NumKind, i128),
    /// A quantifier's variable, by how many quantifiers are around its own, and its kind.
    Quantified(u32, NumKind),
    /// The struct with this number.
    StructTag(u32),
    /// An enum.
    EnumTag,
}

impl Entity {
    /// A copy, on memory of its own. Where there is no memory, nothing is left of it.
    pub fn duplicate(&self, alloc: Global) -> Result<Entity, AllocError>
        ensures { IfOk result (λ copy. copy ≡ self.now) }
    {
        match self {
            Entity::Function(number, ty) => Ok(Entity::Function(*number, ty.duplicate(alloc)?)),
            Entity::Static(number, ty) => Ok(Entity::Static(*number, ty.duplicate(alloc)?)),
            Entity::Local(number, ty) => Ok(Entity::Local(*number, ty.duplicate(alloc)?)),
            Entity::Typedef(ty) => Ok(Entity::Typedef(ty.duplicate(alloc)?)),
            Entity::Constant(kind, value) => Ok(Entity::Constant(*kind, *value)),
            Entity::Quantified(depth, kind) => Ok(Entity::Quantified(*depth, *kind)),
            Entity::StructTag(number) => Ok(Entity::StructTag(*number)),
            Entity::EnumTag => Ok(Entity::EnumTag),
        }
    }
}
