// Which names are typedefs, in scopes one within the other.
use dc_syntax::{Keyword, Place, Raw, Typedefs, declare_specs};
use dc_text::Name;
use sqlite_items::{Boxed, Items};
use std::alloc::{AllocError, Global};
use std::test::Fail;

#[test]
fn the_innermost_declaration_holds(rt: HostRuntime) -> Result<(), Fail> {
    let alloc = rt.alloc();
    let mut file = Typedefs::new(alloc);
    assert!(rt; !file.has_type(b"T"));
    file.declare(alloc, b"T", true)?;
    file.declare(alloc, b"x", false)?;
    assert!(rt; file.has_type(b"T"));
    assert!(rt; !file.has_type(b"x"));
    assert!(rt; !file.has_type(b""));
    let mut block = Typedefs::within(alloc, &file);
    assert!(rt; block.has_type(b"T"));
    block.declare(alloc, b"T", false)?;
    block.declare(alloc, b"x", true)?;
    assert!(rt; !block.has_type(b"T"));
    assert!(rt; block.has_type(b"x"));
    let mut inner = Typedefs::within(alloc, &block);
    assert!(rt; !inner.has_type(b"T"));
    inner.declare(alloc, b"T", true)?;
    inner.declare(alloc, b"T", false)?;
    inner.declare(alloc, b"T", true)?;
    assert!(rt; inner.has_type(b"T"));
    assert!(rt; !block.has_type(b"T"));
    assert!(rt; file.has_type(b"T"));
    Ok(())
}

pub fn place() -> Place {
    Place::new(1, 1)
}

pub fn name(alloc: Global, bytes: &[u8]) -> Result<Name, AllocError> {
    Name::copied(alloc, bytes)
}

#[test]
fn an_enumerator_comes_into_force(rt: HostRuntime) -> Result<(), Fail> {
    let mut names = Typedefs::new(rt.alloc());
    names.declare(rt.alloc(), b"T", true)?;
    let enumerator = Boxed::new(
        rt.alloc(),
        Raw::Enumerator(name(rt.alloc(), b"T")?, place()),
    )?;
    enumerator.get().declare(rt.alloc(), &mut names)?;
    assert!(rt; !names.has_type(b"T"));
    Ok(())
}

// `int`
pub fn int_alone(alloc: Global) -> Result<Items<Raw>, AllocError> {
    let mut specs = Items::new(alloc);
    specs.push(Raw::SpecWord(Keyword::Int, place()))?;
    Ok(specs)
}

#[test]
fn specs_without_braces_bring_nothing_into_force(rt: HostRuntime) -> Result<(), Fail> {
    let mut names = Typedefs::new(rt.alloc());
    names.declare(rt.alloc(), b"T", true)?;
    let specs = int_alone(rt.alloc())?;
    declare_specs(rt.alloc(), specs.as_slice(), &mut names)?;
    assert!(rt; names.has_type(b"T"));
    Ok(())
}

// `(*T)`
fn wrapped(alloc: Global) -> Result<Boxed<Raw>, AllocError> {
    let declared = Boxed::new(alloc, Raw::DeclaredName(name(alloc, b"T")?, place()))?;
    let pointer = Boxed::new(alloc, Raw::Pointer(Items::new(alloc), declared, place()))?;
    Boxed::new(alloc, Raw::Wrapped(pointer, place()))
}

// `(*T)[1]`
fn sized(alloc: Global) -> Result<Boxed<Raw>, AllocError> {
    let one = Boxed::new(alloc, Raw::Constant(name(alloc, b"1")?, place()))?;
    Boxed::new(alloc, Raw::Sized(wrapped(alloc)?, one, place()))
}

// `int (*T)[1]`
pub fn parameter(alloc: Global) -> Result<Boxed<Raw>, AllocError> {
    let declarator = sized(alloc)?;
    Boxed::new(
        alloc,
        Raw::Parameter(int_alone(alloc)?, declarator, place()),
    )
}

#[test]
fn a_parameter_comes_into_force(rt: HostRuntime) -> Result<(), Fail> {
    let alloc = rt.alloc();
    let mut names = Typedefs::new(alloc);
    names.declare(alloc, b"T", true)?;
    let parameter = parameter(alloc)?;
    parameter.get().declare(alloc, &mut names)?;
    assert!(rt; !names.has_type(b"T"));
    assert!(rt; parameter.get().declared_name().is_none());
    Ok(())
}
