// The names and structs that the expressions of the tests stand among.
ghost use Rattle.std.specs.Prelude.{◌≡◌, None};
ghost use Rattle.dc_scope.specs.Scopes.{members_of};

use dc_num::NumKind;
use dc_rules_tests::made::of;
use dc_scope::{Declare, Entity, Scopes, Space};
use dc_syntax::Typedefs;
use dc_text::Name;
use std::alloc::{AllocError, Global};

// The variables, with the words of their types.
const LOCALS: [(&[u8], &[u8]); 14] = [
    (b"i", b"i"),
    (b"u", b"u"),
    (b"c", b"c"),
    (b"l", b"l"),
    (b"k", b"ki"),
    (b"p", b"*i"),
    (b"q", b"*ki"),
    (b"v", b"*v"),
    (b"a", b"ai"),
    (b"s", b"0"),
    (b"t", b"*0"),
    (b"r", b"*1"),
    (b"ks", b"k0"),
    (b"fp", b"*gi"),
];

// The functions, with the words of their types.
const FUNCTIONS: [(&[u8], &[u8]); 3] = [(b"f", b"gi"), (b"g", b"fv"), (b"h", b"g*i")];

// The typedefs, with the words of their types.
const TYPEDEFS: [(&[u8], &[u8]); 4] = [
    (b"T", b"i"),
    (b"F", b"fi"),
    (b"A", b"ai"),
    (b"size_t", b"L"),
];

fn declare(
    alloc: Global,
    scopes: &mut Scopes,
    space: Space,
    name: &[u8],
    entity: Entity,
) -> Result<(), AllocError> {
    let name = Name::copied(alloc, name)?;
    match scopes.declare(space, &name, entity) {
        Err(Declare::Memory(error)) => Err(error),
        _ => Ok(()),
    }
}

fn declare_values(alloc: Global, scopes: &mut Scopes) -> Result<(), AllocError> {
    let mut number: u32 = 0;
    for (name, word) in LOCALS {
        let entity = Entity::Local(number, of(alloc, word)?);
        declare(alloc, scopes, Space::Ordinary, name, entity)?;
        number = number.saturating_add(1);
    }
    for (name, word) in FUNCTIONS {
        let entity = Entity::Function(0, of(alloc, word)?);
        declare(alloc, scopes, Space::Ordinary, name, entity)?;
    }
    Ok(())
}

fn declare_types(alloc: Global, scopes: &mut Scopes) -> Result<(), AllocError> {
    for (name, word) in TYPEDEFS {
        let entity = Entity::Typedef(of(alloc, word)?);
        declare(alloc, scopes, Space::Ordinary, name, entity)?;
    }
    declare(alloc, scopes, Space::Tag, b"S", Entity::StructTag(0))?;
    declare(alloc, scopes, Space::Tag, b"U", Entity::StructTag(1))?;
    declare(alloc, scopes, Space::Tag, b"N", Entity::EnumTag)
}

fn declare_constants(alloc: Global, scopes: &mut Scopes) -> Result<(), AllocError> {
    let null = Entity::Constant(NumKind::Ptr, 0);
    declare(alloc, scopes, Space::Ordinary, b"NULL", null)?;
    let five = Entity::Constant(NumKind::S32, 5);
    declare(alloc, scopes, Space::Ordinary, b"E", five)
}

fn name_members(alloc: Global, scopes: &mut Scopes) -> Result<(), AllocError>
    requires { members_of scopes.old 0 ≡ None }
{
    let mut names = Vec::new(alloc);
    names.push(Name::copied(alloc, b"x")?)?;
    names.push(Name::copied(alloc, b"y")?)?;
    names.push(Name::copied(alloc, b"z")?)?;
    scopes.name_members(0, names)
}

/// The scopes.
pub fn scopes(alloc: Global) -> Result<Scopes, AllocError> {
    let mut scopes = Scopes::new(alloc);
    name_members(alloc, &mut scopes)?;
    declare_values(alloc, &mut scopes)?;
    declare_types(alloc, &mut scopes)?;
    declare_constants(alloc, &mut scopes)?;
    Ok(scopes)
}

/// The typedefs among the names in force.
pub fn typedefs<'a>(alloc: Global) -> Result<Typedefs<'a>, AllocError> {
    let mut names = Typedefs::new(alloc);
    for (name, _) in TYPEDEFS {
        names.declare(alloc, name, true)?;
    }
    Ok(names)
}
