// What comes into force behind the parts of a unit.
use crate::names::{int_alone, name, parameter, place};
use dc_syntax::{
    Keyword, Part, Raw, Typedefs, declare_function, declare_within_function, first_typedefs,
    has_tag, is_typedef,
};
use sqlite_items::{Boxed, Items};
use std::alloc::{AllocError, Global};
use std::test::Fail;

#[test]
fn the_first_typedefs_are_in_force(rt: HostRuntime) -> Result<(), Fail> {
    let names = first_typedefs(rt.alloc())?;
    for word in [b"bool".as_slice(), b"size_t", b"int8_t", b"uint64_t"] {
        assert!(rt; names.has_type(word));
    }
    assert!(rt; !names.has_type(b"int"));
    Ok(())
}

// `typedef int`
fn typedef_int(alloc: Global) -> Result<Items<Raw>, AllocError> {
    let mut specs = Items::new(alloc);
    specs.push(Raw::SpecWord(Keyword::Typedef, place()))?;
    specs.push(Raw::SpecWord(Keyword::Int, place()))?;
    Ok(specs)
}

// `struct T`
fn struct_tag(alloc: Global) -> Result<Items<Raw>, AllocError> {
    let mut specs = Items::new(alloc);
    specs.push(Raw::StructTag(name(alloc, b"T")?, place()))?;
    Ok(specs)
}

#[test]
fn specs_have_a_typedef_or_a_tag(rt: HostRuntime) -> Result<(), Fail> {
    let specs = typedef_int(rt.alloc())?;
    assert!(rt; is_typedef(specs.as_slice()));
    assert!(rt; !has_tag(specs.as_slice()));
    let specs = struct_tag(rt.alloc())?;
    assert!(rt; !is_typedef(specs.as_slice()));
    assert!(rt; has_tag(specs.as_slice()));
    Ok(())
}

// `T`, without an initializer
fn plain(alloc: Global) -> Result<Boxed<Part>, AllocError> {
    let declarator = Boxed::new(alloc, Raw::DeclaredName(name(alloc, b"T")?, place()))?;
    Boxed::new(alloc, Part::Plain(declarator, place()))
}

// `T`, and no more
fn declarators(alloc: Global) -> Result<Items<Part>, AllocError> {
    let mut declarators = Items::new(alloc);
    declarators.push(plain(alloc)?.into_inner())?;
    Ok(declarators)
}

// `typedef int T;`
pub fn declaration(alloc: Global) -> Result<Boxed<Part>, AllocError> {
    let specs = typedef_int(alloc)?;
    let declarators = declarators(alloc)?;
    Boxed::new(alloc, Part::Declaration(specs, declarators, place()))
}

// `int T;` in a `for`
fn first(alloc: Global) -> Result<Boxed<Part>, AllocError> {
    let declarator = plain(alloc)?;
    Boxed::new(
        alloc,
        Part::FirstDeclaration(int_alone(alloc)?, declarator, Items::new(alloc), place()),
    )
}

#[test]
fn what_is_declared_comes_into_force(rt: HostRuntime) -> Result<(), Fail> {
    let alloc = rt.alloc();
    let mut names = Typedefs::new(alloc);
    declaration(alloc)?.get().declare(alloc, &mut names)?;
    assert!(rt; names.has_type(b"T"));
    first(alloc)?.get().declare(alloc, &mut names)?;
    assert!(rt; !names.has_type(b"T"));
    Ok(())
}

// `(int (*T)[1])`
fn parameters(alloc: Global) -> Result<Items<Raw>, AllocError> {
    let mut parameters = Items::new(alloc);
    parameters.push(parameter(alloc)?.into_inner())?;
    Ok(parameters)
}

// `f(int (*T)[1])`
pub fn function(alloc: Global) -> Result<Boxed<Raw>, AllocError> {
    let named = Boxed::new(alloc, Raw::DeclaredName(name(alloc, b"f")?, place()))?;
    Boxed::new(alloc, Raw::Function(named, parameters(alloc)?, place()))
}

// Behind `int f(int (*T)[1])`.
fn behind(alloc: Global, names: &mut Typedefs<'_>) -> Result<(), AllocError> {
    let specs = int_alone(alloc)?;
    let function = function(alloc)?;
    declare_function(alloc, specs.as_slice(), function.get(), names)
}

// Within the block of `int f(int (*T)[1])`.
fn within(alloc: Global, names: &mut Typedefs<'_>) -> Result<(), AllocError> {
    let specs = int_alone(alloc)?;
    let function = function(alloc)?;
    declare_within_function(alloc, specs.as_slice(), function.get(), names)
}

#[test]
fn a_function_keeps_its_parameters_to_itself(rt: HostRuntime) -> Result<(), Fail> {
    let alloc = rt.alloc();
    let mut file = Typedefs::new(alloc);
    file.declare(alloc, b"T", true)?;
    file.declare(alloc, b"f", true)?;
    behind(alloc, &mut file)?;
    assert!(rt; file.has_type(b"T"));
    assert!(rt; !file.has_type(b"f"));
    let mut block = Typedefs::within(alloc, &file);
    within(alloc, &mut block)?;
    assert!(rt; !block.has_type(b"T"));
    Ok(())
}
