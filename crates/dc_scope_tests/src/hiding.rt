// Scopes one within the other, and the two name spaces.
use crate::steps::Step::{Declare, Depth, Enter, Find, FindInner, Leave};
use crate::steps::first_wrong;
use crate::what::Shape::Int;
use crate::what::What::{EnumTag, Local, Quantified, Static, StructTag};
use crate::what::is;
use dc_layout::{CType, LayKind};
use dc_scope::Space::{Ordinary, Tag};
use dc_scope::{Entity, Scopes};
use dc_text::Name;
use std::alloc::{AllocError, Global};
use std::test::Fail;

#[test]
fn an_inner_scope_hides_those_around_it(rt: HostRuntime) -> Result<(), Fail> {
    let steps = [
        Depth(0),
        Find(Ordinary, b"x", b'-', 0),
        Declare(Ordinary, b"x", Static(1, Int), b'o'),
        Declare(Ordinary, b"y", Static(2, Int), b'o'),
        Enter,
        Depth(1),
        Find(Ordinary, b"x", b's', 1),
        FindInner(Ordinary, b"x", b'-', 0),
        Declare(Ordinary, b"x", Local(3, Int), b'o'),
        Find(Ordinary, b"x", b'l', 3),
        FindInner(Ordinary, b"x", b'l', 3),
        Find(Ordinary, b"y", b's', 2),
        Leave,
        Depth(0),
        Find(Ordinary, b"x", b's', 1),
    ];
    assert_eq!(rt; first_wrong(rt.alloc(), &steps)?, None);
    Ok(())
}

#[test]
fn a_local_hides_a_parameter(rt: HostRuntime) -> Result<(), Fail> {
    let steps = [
        Enter,
        Declare(Ordinary, b"a", Local(0, Int), b'o'),
        Enter,
        Declare(Ordinary, b"a", Local(1, Int), b'o'),
        Find(Ordinary, b"a", b'l', 1),
        Leave,
        Find(Ordinary, b"a", b'l', 0),
        Leave,
        Find(Ordinary, b"a", b'-', 0),
    ];
    assert_eq!(rt; first_wrong(rt.alloc(), &steps)?, None);
    Ok(())
}

#[test]
fn scopes_are_opened_and_closed_in_turn(rt: HostRuntime) -> Result<(), Fail> {
    let steps = [
        Enter,
        Declare(Ordinary, b"a", Local(1, Int), b'o'),
        Enter,
        Declare(Ordinary, b"b", Local(2, Int), b'o'),
        Leave,
        Enter,
        Enter,
        Depth(3),
        Find(Ordinary, b"b", b'-', 0),
        Declare(Ordinary, b"b", Quantified(4), b'o'),
        Find(Ordinary, b"a", b'l', 1),
        Find(Ordinary, b"b", b'q', 4),
        Leave,
        Leave,
        Find(Ordinary, b"b", b'-', 0),
        Leave,
        Depth(0),
        Find(Ordinary, b"a", b'-', 0),
    ];
    assert_eq!(rt; first_wrong(rt.alloc(), &steps)?, None);
    Ok(())
}

#[test]
fn a_tag_and_an_ordinary_name_never_meet(rt: HostRuntime) -> Result<(), Fail> {
    let steps = [
        Declare(Tag, b"x", StructTag(7), b'o'),
        Find(Ordinary, b"x", b'-', 0),
        Declare(Ordinary, b"x", Static(1, Int), b'o'),
        Find(Tag, b"x", b'S', 7),
        Find(Ordinary, b"x", b's', 1),
        Enter,
        Declare(Tag, b"x", EnumTag, b'o'),
        Find(Tag, b"x", b'E', 0),
        Find(Ordinary, b"x", b's', 1),
        FindInner(Ordinary, b"x", b'-', 0),
        FindInner(Tag, b"x", b'E', 0),
    ];
    assert_eq!(rt; first_wrong(rt.alloc(), &steps)?, None);
    Ok(())
}

#[test]
fn names_are_compared_whole(rt: HostRuntime) -> Result<(), Fail> {
    let steps = [
        Declare(Ordinary, b"ab", Local(1, Int), b'o'),
        Find(Ordinary, b"a", b'-', 0),
        Find(Ordinary, b"abc", b'-', 0),
        Find(Ordinary, b"aB", b'-', 0),
        Find(Ordinary, b"ab", b'l', 1),
    ];
    assert_eq!(rt; first_wrong(rt.alloc(), &steps)?, None);
    Ok(())
}

// The name with this number.
fn numbered(alloc: Global, number: u32) -> Result<Name, AllocError> {
    Name::copied(
        alloc,
        &[b'n', (number / 256 % 256) as u8, (number % 256) as u8],
    )
}

// Whether so many names are declared, and each is found.
fn all_found(alloc: Global, count: u32) -> Result<bool, AllocError> {
    let mut scopes = Scopes::new(alloc);
    for number in 0..count {
        let name = numbered(alloc, number)?;
        let local = Entity::Local(number, CType::Num(LayKind::S32));
        if scopes.declare(Ordinary, &name, local).is_err() {
            return Ok(false);
        }
    }
    for number in 0..count {
        let name = numbered(alloc, number)?;
        if !is(scopes.find(Ordinary, &name), b'l', number as i128) {
            return Ok(false);
        }
    }
    let other = numbered(alloc, count)?;
    Ok(is(scopes.find(Ordinary, &other), b'-', 0))
}

#[test]
fn names_are_found_among_a_thousand_others(rt: HostRuntime) -> Result<(), Fail> {
    assert!(rt; all_found(rt.alloc(), 1001)?);
    Ok(())
}
