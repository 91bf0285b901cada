// Entities and types that tests speak of, by short names.
use dc_layout::{CType, LayKind};
use dc_num::NumKind;
use dc_scope::Entity;
use sqlite_items::Items;
use std::alloc::{AllocError, Global};

/// A type.
#[derive(Clone, Copy)]
pub enum Shape {
    Int,
    Unsigned,
    ConstInt,
    Array(u64),
    Struct(u32),
    OfInt,
    OfConstInt,
    OfPointer,
    OfPointerToConst,
}

/// An entity.
#[derive(Clone, Copy)]
pub enum What {
    Function(u32, Shape),
    Static(u32, Shape),
    Local(u32, Shape),
    Typedef(Shape),
    Constant(i128),
    Quantified(u32),
    StructTag(u32),
    EnumTag,
}

// A function of this parameter that gives void.
fn function(alloc: Global, parameter: CType) -> Result<CType, AllocError> {
    let mut parameters = Items::new(alloc);
    parameters.push(parameter)?;
    CType::function(alloc, CType::Void, parameters)
}

// A const int.
fn constant(alloc: Global) -> Result<CType, AllocError> {
    CType::constant(alloc, CType::Num(LayKind::S32))
}

// A pointer to int.
fn pointer(alloc: Global) -> Result<CType, AllocError> {
    CType::pointer(alloc, CType::Num(LayKind::S32))
}

// A pointer to a const int.
fn pointer_to_constant(alloc: Global) -> Result<CType, AllocError> {
    CType::pointer(alloc, constant(alloc)?)
}

// The type.
fn type_of(alloc: Global, shape: Shape) -> Result<CType, AllocError> {
    match shape {
        Shape::Int => Ok(CType::Num(LayKind::S32)),
        Shape::Unsigned => Ok(CType::Num(LayKind::U32)),
        Shape::ConstInt => constant(alloc),
        Shape::Array(count) => CType::array(alloc, CType::Num(LayKind::S32), count),
        Shape::Struct(number) => Ok(CType::Struct(number)),
        Shape::OfInt => function(alloc, CType::Num(LayKind::S32)),
        Shape::OfConstInt => function(alloc, constant(alloc)?),
        Shape::OfPointer => function(alloc, pointer(alloc)?),
        Shape::OfPointerToConst => function(alloc, pointer_to_constant(alloc)?),
    }
}

/// The entity.
pub fn entity(alloc: Global, what: What) -> Result<Entity, AllocError> {
    match what {
        What::Function(number, shape) => Ok(Entity::Function(number, type_of(alloc, shape)?)),
        What::Static(number, shape) => Ok(Entity::Static(number, type_of(alloc, shape)?)),
        What::Local(number, shape) => Ok(Entity::Local(number, type_of(alloc, shape)?)),
        What::Typedef(shape) => Ok(Entity::Typedef(type_of(alloc, shape)?)),
        What::Constant(value) => Ok(Entity::Constant(NumKind::S32, value)),
        What::Quantified(depth) => Ok(Entity::Quantified(depth, NumKind::S32)),
        What::StructTag(number) => Ok(Entity::StructTag(number)),
        What::EnumTag => Ok(Entity::EnumTag),
    }
}

// The letter of an entity, and its number, value or depth; `-` where there is none.
fn shown(entity: Option<&Entity>) -> (u8, i128) {
    match entity {
        None => (b'-', 0),
        Some(Entity::Function(number, _)) => (b'f', *number as i128),
        Some(Entity::Static(number, _)) => (b's', *number as i128),
        Some(Entity::Local(number, _)) => (b'l', *number as i128),
        Some(Entity::Typedef(_)) => (b't', 0),
        Some(Entity::Constant(_, value)) => (b'c', *value),
        Some(Entity::Quantified(depth, _)) => (b'q', *depth as i128),
        Some(Entity::StructTag(number)) => (b'S', *number as i128),
        Some(Entity::EnumTag) => (b'E', 0),
    }
}

/// Whether this is what an entity is shown as: a letter and its number, value or depth; `-` where there is none.
pub fn is(entity: Option<&Entity>, letter: u8, number: i128) -> bool {
    let (found, told) = shown(entity);
    found == letter && told == number
}
