// How high units are: the heights are worked out by hand.
use crate::names::{int_alone, name, place};
use dc_syntax::{Mark, Part, Raw, Unit, height};
use sqlite_items::{Boxed, Items};
use std::alloc::{AllocError, Global};
use std::test::Fail;

// `a`: 1
fn named(alloc: Global) -> Result<Boxed<Raw>, AllocError> {
    Boxed::new(alloc, Raw::Name(name(alloc, b"a")?, place()))
}

// `( a )`: 2
fn paren(alloc: Global) -> Result<Boxed<Raw>, AllocError> {
    Boxed::new(alloc, Raw::Paren(named(alloc)?, place()))
}

// `a ( a , ( a ) )`: 3
fn call(alloc: Global) -> Result<Boxed<Raw>, AllocError> {
    let mut arguments = Items::new(alloc);
    arguments.push(named(alloc)?.into_inner())?;
    arguments.push(paren(alloc)?.into_inner())?;
    Boxed::new(alloc, Raw::Call(named(alloc)?, arguments, place()))
}

// `x`: 1
fn declarator(alloc: Global) -> Result<Boxed<Raw>, AllocError> {
    Boxed::new(alloc, Raw::DeclaredName(name(alloc, b"x")?, place()))
}

// `int x , x = a ( a , ( a ) ) ;`: 4
fn declaration(alloc: Global) -> Result<Part, AllocError> {
    let init = Boxed::new(alloc, Part::Single(call(alloc)?))?;
    let mut declarators = Items::new(alloc);
    declarators.push(Part::Plain(declarator(alloc)?, place()))?;
    declarators.push(Part::Initialized(declarator(alloc)?, init, place()))?;
    Ok(Part::Declaration(int_alone(alloc)?, declarators, place()))
}

// `{ ; return a + ( a ) ; }`: 5
fn block(alloc: Global) -> Result<Boxed<Part>, AllocError> {
    let sum = Raw::Binary(Mark::Plus, named(alloc)?, paren(alloc)?, place());
    let mut items = Items::new(alloc);
    items.push(Part::Empty(place()))?;
    items.push(Part::ReturnValue(Boxed::new(alloc, sum)?, place()))?;
    Boxed::new(alloc, Part::Block(items, place()))
}

// `int x { ; return a + ( a ) ; }`: 6
fn definition(alloc: Global) -> Result<Part, AllocError> {
    Ok(Part::Definition(
        int_alone(alloc)?,
        declarator(alloc)?,
        Items::new(alloc),
        block(alloc)?,
        place(),
    ))
}

#[test]
fn a_unit_is_as_high_as_its_highest(rt: HostRuntime) -> Result<(), Fail> {
    let alloc = rt.alloc();
    let mut unit = Unit {
        externals: Items::new(alloc),
    };
    assert_eq!(rt; height(&unit), 0);
    unit.externals.push(declaration(alloc)?)?;
    assert_eq!(rt; height(&unit), 4);
    unit.externals.push(definition(alloc)?)?;
    assert_eq!(rt; height(&unit), 6);
    unit.externals.push(declaration(alloc)?)?;
    assert_eq!(rt; height(&unit), 6);
    Ok(())
}
