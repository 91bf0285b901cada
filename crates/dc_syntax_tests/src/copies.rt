// Copies of trees.
use crate::names::{int_alone, name, place};
use crate::parts::{declaration, function};
use dc_syntax::{Keyword, Mark, Part, Raw, Tag, Unit, height};
use sqlite_items::{Boxed, Items};
use std::alloc::{AllocError, Global};
use std::test::Fail;

// `x`
fn named(alloc: Global) -> Result<Boxed<Raw>, AllocError> {
    Boxed::new(alloc, Raw::Name(name(alloc, b"x")?, place()))
}

// `x + -1`
fn sum(alloc: Global) -> Result<Boxed<Raw>, AllocError> {
    let one = Boxed::new(alloc, Raw::Constant(name(alloc, b"1")?, place()))?;
    let negated = Boxed::new(alloc, Raw::Prefix(Mark::Minus, one, place()))?;
    let left = named(alloc)?;
    Boxed::new(alloc, Raw::Binary(Mark::Plus, left, negated, place()))
}

// `* const`, and no name
fn pointer(alloc: Global) -> Result<Boxed<Raw>, AllocError> {
    let mut qualifiers = Items::new(alloc);
    qualifiers.push(Keyword::Const)?;
    let nameless = Boxed::new(alloc, Raw::Nameless)?;
    Boxed::new(alloc, Raw::Pointer(qualifiers, nameless, place()))
}

// `struct T { int * const; }`
fn body(alloc: Global) -> Result<Items<Raw>, AllocError> {
    let first = pointer(alloc)?;
    let specs = int_alone(alloc)?;
    let mut members = Items::new(alloc);
    members.push(Raw::MemberDeclaration(specs, first, Items::new(alloc), place()))?;
    let tag = Tag::Tagged(name(alloc, b"T")?, place());
    let mut specs = Items::new(alloc);
    specs.push(Raw::StructBody(tag, members, place()))?;
    Ok(specs)
}

// `__CPROVER_requires(x + -1) __CPROVER_ensures(x)`
fn clauses(alloc: Global) -> Result<Items<Part>, AllocError> {
    let mut clauses = Items::new(alloc);
    clauses.push(Part::Requires(sum(alloc)?, place()))?;
    clauses.push(Part::Ensures(named(alloc)?, place()))?;
    Ok(clauses)
}

// `{ typedef int T; if (x) ; return x + -1; }`
fn block(alloc: Global) -> Result<Boxed<Part>, AllocError> {
    let mut parts = Items::new(alloc);
    parts.push(declaration(alloc)?.into_inner())?;
    let empty = Boxed::new(alloc, Part::Empty(place()))?;
    parts.push(Part::If(named(alloc)?, empty, place()))?;
    parts.push(Part::ReturnValue(sum(alloc)?, place()))?;
    Boxed::new(alloc, Part::Block(parts, place()))
}

// `struct T { int * const; } f(int (*T)[1])`, with its clauses and its block
fn unit(alloc: Global) -> Result<Unit, AllocError> {
    let specs = body(alloc)?;
    let declarator = function(alloc)?;
    let clauses = clauses(alloc)?;
    let block = block(alloc)?;
    let mut externals = Items::new(alloc);
    externals.push(Part::Definition(specs, declarator, clauses, block, place()))?;
    Ok(Unit { externals })
}

// Whether the last statement of a definition's block gives a sum back.
fn gives_a_sum(external: &Part) -> bool {
    let Part::Definition(_, _, _, block, _) = external else {
        return false;
    };
    let Part::Block(items, _) = block.get() else {
        return false;
    };
    let Some(Part::ReturnValue(value, _)) = items.as_slice().last() else {
        return false;
    };
    matches!(value.get(), Raw::Binary(Mark::Plus, ..))
}

// The copy of a unit that is gone by then, and how high the unit was.
fn copied(alloc: Global) -> Result<(Unit, u64), AllocError> {
    let original = unit(alloc)?;
    let high = height(&original);
    let copy = original.duplicate(alloc)?;
    Ok((copy, high))
}

#[test]
fn a_copy_has_the_same_parts(rt: HostRuntime) -> Result<(), Fail> {
    let (copy, high) = copied(rt.alloc())?;
    assert_eq!(rt; height(&copy), high);
    assert_eq!(rt; copy.externals.as_slice().len(), 1);
    assert!(rt; copy.externals.as_slice().iter().all(gives_a_sum));
    Ok(())
}
