// Types as words, and the structs of the tests.
//
// A word is read from its end: `i` int, `u` unsigned, `l` long, `L` unsigned long, `c` char, `h` short, `b` _Bool, `p` the
// number of a pointer, `v` void, a digit a struct; before a type `*` a pointer to it, `a` an array of 3, `z` an array of none,
// `m` an array of 16,777,216, `k` const, `f` a function that gives it, `g` one that gives it and takes it.
use dc_layout::{LayKind, all_sized};
use dc_program::{CType, StructTable};
use sqlite_items::Items;
use std::alloc::{AllocError, Global};

// A function that gives the type and takes it.
fn unary_function(alloc: Global, t: CType) -> Result<CType, AllocError> {
    let mut parameters = Items::new(alloc);
    parameters.push(t.duplicate(alloc)?)?;
    CType::function(alloc, t, parameters)
}

// The type with one more letter before its word.
fn prefixed(alloc: Global, letter: u8, t: CType) -> Result<CType, AllocError> {
    match letter {
        b'*' => CType::pointer(alloc, t),
        b'a' => CType::array(alloc, t, 3),
        b'z' => CType::array(alloc, t, 0),
        b'm' => CType::array(alloc, t, 16_777_216),
        b'k' => CType::constant(alloc, t),
        b'f' => CType::function(alloc, t, Items::new(alloc)),
        b'g' => unary_function(alloc, t),
        _ => Ok(t),
    }
}

// The type of a word of one letter.
fn simple(letter: u8) -> Option<CType> {
    match letter {
        b'v' => Some(CType::Void),
        b'0'..=b'9' => Some(CType::Struct((letter - b'0') as u32)),
        b'b' => Some(CType::Num(LayKind::Bool)),
        b'c' => Some(CType::Num(LayKind::S8)),
        b'h' => Some(CType::Num(LayKind::S16)),
        b'i' => Some(CType::Num(LayKind::S32)),
        b'u' => Some(CType::Num(LayKind::U32)),
        b'l' => Some(CType::Num(LayKind::S64)),
        b'L' => Some(CType::Num(LayKind::U64)),
        b'p' => Some(CType::Num(LayKind::Ptr)),
        _ => None,
    }
}

/// The type of a word.
pub fn of(alloc: Global, word: &[u8]) -> Result<CType, AllocError> {
    let mut t = CType::Void;
    for letter in word.iter().rev() {
        t = match simple(*letter) {
            Some(simple) => simple,
            None => prefixed(alloc, *letter, t)?,
        };
    }
    Ok(t)
}

// The first letter of the word of a type.
fn letter_of(t: &CType) -> u8 {
    match t {
        CType::Void => b'v',
        CType::Num(LayKind::Bool) => b'b',
        CType::Num(LayKind::S8) => b'c',
        CType::Num(LayKind::S16) => b'h',
        CType::Num(LayKind::S32) => b'i',
        CType::Num(LayKind::U32) => b'u',
        CType::Num(LayKind::S64) => b'l',
        CType::Num(LayKind::U64) => b'L',
        CType::Num(_) => b'p',
        CType::Pointer(_) => b'*',
        CType::Array(_, 0) => b'z',
        CType::Array(_, 3) => b'a',
        CType::Array(..) => b'm',
        CType::Struct(0) => b'0',
        CType::Struct(1) => b'1',
        CType::Struct(_) => b'2',
        CType::Func(_, parameters) => { if parameters.is_empty() { b'f' } else { b'g' } }
        CType::Const(_) => b'k',
    }
}

/// Writes the word of a type.
pub fn spell(out: &mut Vec<u8>, t: &CType) -> Result<(), AllocError> {
    out.push(letter_of(t))?;
    match t {
        CType::Pointer(part) => spell(out, part.get()),
        CType::Array(part, _) => spell(out, part.get()),
        CType::Func(part, _) => spell(out, part.get()),
        CType::Const(part) => spell(out, part.get()),
        CType::Void | CType::Num(_) | CType::Struct(_) => Ok(()),
    }
}

// Gives a struct members, where they have sizes and the struct is there and has none.
fn complete(structs: &mut StructTable, number: u32, members: Items<CType>) {
    if (number as usize) < structs.count()
        && structs.members(number).is_none()
        && !members.is_empty()
        && all_sized(structs, members.as_slice())
    {
        structs.complete(number, members);
    }
}

/// Struct 0 has an int, a pointer to const char and an array of 3 short; struct 1 has no members yet; struct 2 has a const int.
pub fn structs(alloc: Global) -> Result<StructTable, AllocError> {
    let mut structs = StructTable::new(alloc);
    structs.add()?;
    structs.add()?;
    structs.add()?;
    let mut members = Items::new(alloc);
    members.push(of(alloc, b"i")?)?;
    members.push(of(alloc, b"*kc")?)?;
    members.push(of(alloc, b"ah")?)?;
    complete(&mut structs, 0, members);
    let mut members = Items::new(alloc);
    members.push(of(alloc, b"ki")?)?;
    complete(&mut structs, 2, members);
    Ok(structs)
}
