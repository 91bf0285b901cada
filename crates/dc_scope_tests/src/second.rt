// Second declarations of a name in one scope.
use crate::steps::Step::{Declare, Enter, Find};
use crate::steps::first_wrong;
use crate::what::Shape::{
    Array, ConstInt, Int, OfConstInt, OfInt, OfPointer, OfPointerToConst, Struct, Unsigned,
};
use crate::what::What::{Constant, EnumTag, Function, Local, Static, StructTag, Typedef};
use dc_scope::Space::{Ordinary, Tag};
use std::test::Fail;

#[test]
fn locals(rt: HostRuntime) -> Result<(), Fail> {
    let steps = [
        Enter,
        Declare(Ordinary, b"x", Local(1, Int), b'o'),
        Declare(Ordinary, b"x", Local(1, Int), b't'),
        Declare(Ordinary, b"x", Local(2, Unsigned), b't'),
        Find(Ordinary, b"x", b'l', 1),
    ];
    assert_eq!(rt; first_wrong(rt.alloc(), &steps)?, None);
    Ok(())
}

#[test]
fn functions(rt: HostRuntime) -> Result<(), Fail> {
    let steps = [
        Declare(Ordinary, b"f", Function(1, OfInt), b'o'),
        Declare(Ordinary, b"f", Function(2, OfInt), b'o'),
        Declare(Ordinary, b"f", Function(1, OfPointer), b'd'),
        Find(Ordinary, b"f", b'f', 1),
        Declare(Ordinary, b"f", Static(1, OfInt), b't'),
    ];
    assert_eq!(rt; first_wrong(rt.alloc(), &steps)?, None);
    Ok(())
}

#[test]
fn qualifiers_of_parameters(rt: HostRuntime) -> Result<(), Fail> {
    let steps = [
        Declare(Ordinary, b"f", Function(1, OfInt), b'o'),
        Declare(Ordinary, b"f", Function(1, OfConstInt), b'o'),
        Declare(Ordinary, b"g", Function(2, OfConstInt), b'o'),
        Declare(Ordinary, b"g", Function(2, OfInt), b'o'),
        Declare(Ordinary, b"h", Function(3, OfPointer), b'o'),
        Declare(Ordinary, b"h", Function(3, OfPointerToConst), b'd'),
    ];
    assert_eq!(rt; first_wrong(rt.alloc(), &steps)?, None);
    Ok(())
}

#[test]
fn variables(rt: HostRuntime) -> Result<(), Fail> {
    let steps = [
        Declare(Ordinary, b"x", Static(1, Int), b'o'),
        Declare(Ordinary, b"x", Static(2, Int), b'o'),
        Declare(Ordinary, b"x", Static(1, Unsigned), b'd'),
        Declare(Ordinary, b"x", Static(1, ConstInt), b'd'),
        Declare(Ordinary, b"x", Function(1, OfInt), b't'),
        Find(Ordinary, b"x", b's', 1),
        Declare(Ordinary, b"y", Static(1, Array(3)), b'o'),
        Declare(Ordinary, b"y", Static(1, Array(3)), b'o'),
        Declare(Ordinary, b"y", Static(1, Array(4)), b'd'),
    ];
    assert_eq!(rt; first_wrong(rt.alloc(), &steps)?, None);
    Ok(())
}

#[test]
fn typedefs(rt: HostRuntime) -> Result<(), Fail> {
    let steps = [
        Declare(Ordinary, b"t", Typedef(Struct(3)), b'o'),
        Declare(Ordinary, b"t", Typedef(Struct(3)), b'o'),
        Declare(Ordinary, b"t", Typedef(Struct(4)), b't'),
        Declare(Ordinary, b"t", Typedef(ConstInt), b't'),
        Declare(Ordinary, b"t", Static(1, Struct(3)), b't'),
        Find(Ordinary, b"t", b't', 0),
    ];
    assert_eq!(rt; first_wrong(rt.alloc(), &steps)?, None);
    Ok(())
}

#[test]
fn enumerators_and_tags(rt: HostRuntime) -> Result<(), Fail> {
    let steps = [
        Declare(Ordinary, b"e", Constant(-5), b'o'),
        Declare(Ordinary, b"e", Static(1, Int), b't'),
        Declare(Ordinary, b"e", Constant(-5), b't'),
        Find(Ordinary, b"e", b'c', -5),
        Declare(Tag, b"e", EnumTag, b'o'),
        Declare(Tag, b"e", EnumTag, b't'),
        Declare(Tag, b"e", StructTag(1), b't'),
        Find(Tag, b"e", b'E', 0),
        Declare(Tag, b"s", StructTag(1), b'o'),
        Declare(Tag, b"s", StructTag(1), b't'),
    ];
    assert_eq!(rt; first_wrong(rt.alloc(), &steps)?, None);
    Ok(())
}
