// Copies of entities.
use crate::what::Shape::{ConstInt, Int, OfInt, Struct};
use crate::what::What::{
    Constant, EnumTag, Function, Local, Quantified, Static, StructTag, Typedef,
};
use crate::what::{What, entity, is};
use dc_scope::Entity;
use std::alloc::{AllocError, Global};
use std::test::Fail;

// Whether this is what a copy of the entity is shown as.
fn copied(alloc: Global, original: &Entity, letter: u8, number: i128) -> Result<bool, AllocError> {
    let copy = original.duplicate(alloc)?;
    Ok(is(Some(&copy), letter, number))
}

// Whether this is what a copy of such an entity is shown as.
fn is_copied(alloc: Global, what: What, letter: u8, number: i128) -> Result<bool, AllocError> {
    let original = entity(alloc, what)?;
    copied(alloc, &original, letter, number)
}

#[test]
fn copies_stand_for_the_same(rt: HostRuntime) -> Result<(), Fail> {
    let alloc = rt.alloc();
    let rows = [
        (Function(1, OfInt), b'f', 1),
        (Static(2, Int), b's', 2),
        (Local(3, ConstInt), b'l', 3),
        (Typedef(Struct(4)), b't', 0),
        (Constant(18446744073709551615), b'c', 18446744073709551615),
        (Quantified(5), b'q', 5),
        (StructTag(6), b'S', 6),
        (EnumTag, b'E', 0),
    ];
    for (what, letter, number) in rows {
        assert!(rt; is_copied(alloc, what, letter, number)?);
    }
    Ok(())
}
