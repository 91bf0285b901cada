// Words on types.
use crate::made::{of, structs};
use crate::shown::{put_type, put_word};
use dc_program::{CType, NumKind};
use dc_rules::{
    alike, alike_targets, bare, decayed, is_complete, is_const, is_function, is_number,
    is_object_pointer, is_pointer, is_pointer_type, is_scalar, is_sized, is_type, is_void,
    is_void_pointer, number, number_kind, pointee, qualified, same, struct_of, sum_type,
    value_kind,
};
use std::alloc::{AllocError, Global};
use std::test::Fail;

// Writes a letter where the test holds.
fn put_if(out: &mut Vec<u8>, holds: bool, letter: u8) -> Result<(), AllocError> {
    if holds {
        out.push(letter)?;
    }
    Ok(())
}

// Which words hold of a type: a number, a pointer, a pointer type, a scalar, a function, void, const.
fn kinds(alloc: Global, word: &[u8]) -> Result<Vec<u8>, AllocError> {
    let t = of(alloc, word)?;
    let mut out = Vec::new(alloc);
    put_if(&mut out, is_number(&t), b'n')?;
    put_if(&mut out, is_pointer(&t), b'p')?;
    put_if(&mut out, is_pointer_type(&t), b't')?;
    put_if(&mut out, is_scalar(&t), b's')?;
    put_if(&mut out, is_function(&t), b'f')?;
    put_if(&mut out, is_void(&t), b'v')?;
    put_if(&mut out, is_const(&t), b'c')?;
    Ok(out)
}

#[test]
fn kinds_of_types(rt: HostRuntime) -> Result<(), Fail> {
    let rows: [(&[u8], &[u8]); 9] = [
        (b"i", b"ns"),
        (b"kb", b"nsc"),
        (b"*i", b"pts"),
        (b"k*v", b"ptsc"),
        (b"ai", b"ps"),
        (b"fi", b"psf"),
        (b"v", b"v"),
        (b"kv", b"c"),
        (b"0", b""),
    ];
    for (word, wanted) in rows {
        let answer = kinds(rt.alloc(), word)?;
        assert_eq!(rt; answer.as_slice(), wanted);
    }
    Ok(())
}

// Which words hold of a type: a pointer to an object, one to void, complete, sized, a type of a program.
fn sizes(alloc: Global, word: &[u8]) -> Result<Vec<u8>, AllocError> {
    let structs = structs(alloc)?;
    let t = of(alloc, word)?;
    let mut out = Vec::new(alloc);
    put_if(&mut out, is_object_pointer(&t), b'o')?;
    put_if(&mut out, is_void_pointer(&t), b'v')?;
    put_if(&mut out, is_complete(&structs, &t), b'c')?;
    put_if(&mut out, is_sized(&structs, &t), b's')?;
    put_if(&mut out, is_type(&structs, &t), b't')?;
    Ok(out)
}

#[test]
fn sizes_of_types(rt: HostRuntime) -> Result<(), Fail> {
    let rows: [(&[u8], &[u8]); 15] = [
        (b"i", b"cst"),
        (b"*i", b"ocst"),
        (b"*kv", b"ovcst"),
        (b"*fi", b"cst"),
        (b"fi", b"t"),
        (b"ai", b"ocst"),
        (b"mc", b"ocst"),
        (b"mh", b"oc"),
        (b"*mh", b"ocs"),
        (b"0", b"cst"),
        (b"1", b"t"),
        (b"*1", b"ocst"),
        (b"a1", b"o"),
        (b"v", b"t"),
        (b"av", b"ov"),
    ];
    for (word, wanted) in rows {
        let answer = sizes(rt.alloc(), word)?;
        assert_eq!(rt; answer.as_slice(), wanted);
    }
    Ok(())
}

#[test]
fn types_of_programs(rt: HostRuntime) -> Result<(), Fail> {
    let rows: [(&[u8], &[u8]); 16] = [
        (b"p", b"cs"),
        (b"zi", b"ot"),
        (b"*zi", b"ocst"),
        (b"azi", b"o"),
        (b"zmh", b"o"),
        (b"zv", b"ov"),
        (b"7", b""),
        (b"kai", b"ocs"),
        (b"kki", b"cs"),
        (b"kfi", b""),
        (b"f0", b""),
        (b"fai", b""),
        (b"ffi", b""),
        (b"gv", b""),
        (b"gki", b"t"),
        (b"g*0", b"t"),
    ];
    for (word, wanted) in rows {
        let answer = sizes(rt.alloc(), word)?;
        assert_eq!(rt; answer.as_slice(), wanted);
    }
    Ok(())
}

// A type without its qualifier, as a value, with a qualifier, and what it points to.
fn forms(alloc: Global, word: &[u8]) -> Result<Vec<u8>, AllocError> {
    let t = of(alloc, word)?;
    let mut out = Vec::new(alloc);
    put_type(&mut out, bare(&t))?;
    put_type(&mut out, &decayed(alloc, &t)?)?;
    match pointee(&t) {
        None => put_word(&mut out, b"none")?,
        Some(to) => put_type(&mut out, to)?,
    }
    put_type(&mut out, &qualified(alloc, t)?)?;
    Ok(out)
}

#[test]
fn forms_of_types(rt: HostRuntime) -> Result<(), Fail> {
    let rows: [(&[u8], &[u8]); 8] = [
        (b"i", b"i i none ki"),
        (b"ki", b"i i none ki"),
        (b"*kc", b"*kc *kc kc k*kc"),
        (b"k*c", b"*c *c c k*c"),
        (b"ai", b"ai *i i aki"),
        (b"aac", b"aac *ac ac aakc"),
        (b"fi", b"fi *fi fi kfi"),
        (b"k0", b"0 0 none k0"),
    ];
    for (word, wanted) in rows {
        let answer = forms(rt.alloc(), word)?;
        assert_eq!(rt; answer.as_slice(), wanted);
    }
    Ok(())
}

#[test]
fn number_kinds(rt: HostRuntime) -> Result<(), Fail> {
    let t = of(rt.alloc(), b"kL")?;
    assert!(rt; number_kind(&t) == Some(NumKind::U64));
    assert!(rt; value_kind(&t) == Some(NumKind::U64));
    assert!(rt; same(bare(&t), &number(NumKind::U64)));
    let t = of(rt.alloc(), b"k*i")?;
    assert!(rt; number_kind(&t).is_none());
    assert!(rt; value_kind(&t) == Some(NumKind::Ptr));
    let t = of(rt.alloc(), b"k2")?;
    assert!(rt; value_kind(&t).is_none());
    assert!(rt; struct_of(&t) == Some(2));
    let t = of(rt.alloc(), b"*2")?;
    assert!(rt; struct_of(&t).is_none());
    Ok(())
}

// Whether two types are the same, and alike, and whether their targets are alike.
fn likeness(alloc: Global, t: &CType, u: &CType) -> Result<Vec<u8>, AllocError> {
    let mut out = Vec::new(alloc);
    put_if(&mut out, same(t, u), b's')?;
    put_if(&mut out, alike(t, u), b'a')?;
    put_if(&mut out, alike_targets(t, u), b't')?;
    Ok(out)
}

// Likeness of the types of two words, which is the same in the other order.
fn like(alloc: Global, word: &[u8], other: &[u8]) -> Result<Vec<u8>, AllocError> {
    let t = of(alloc, word)?;
    let u = of(alloc, other)?;
    let out = likeness(alloc, &t, &u)?;
    if likeness(alloc, &u, &t)?.as_slice() == out.as_slice() {
        Ok(out)
    } else {
        Vec::from_slice(alloc, b"differ")
    }
}

#[test]
fn equal_types(rt: HostRuntime) -> Result<(), Fail> {
    let rows: [(&[u8], &[u8], &[u8]); 19] = [
        (b"i", b"i", b"sa"),
        (b"i", b"u", b""),
        (b"ki", b"i", b"a"),
        (b"*kc", b"*c", b"at"),
        (b"**kc", b"**c", b"at"),
        (b"k**c", b"*k*c", b"at"),
        (b"*v", b"*c", b""),
        (b"ai", b"ai", b"sat"),
        (b"ai", b"zi", b"t"),
        (b"aki", b"ai", b"at"),
        (b"0", b"0", b"sa"),
        (b"0", b"2", b""),
        (b"fi", b"fi", b"sat"),
        (b"fi", b"fu", b""),
        (b"fi", b"gi", b""),
        (b"gki", b"gi", b"at"),
        (b"*gi", b"*gi", b"sat"),
        (b"*gi", b"gi", b"t"),
        (b"*i", b"ai", b"t"),
    ];
    for (word, other, wanted) in rows {
        let answer = like(rt.alloc(), word, other)?;
        assert_eq!(rt; answer.as_slice(), wanted);
    }
    Ok(())
}

#[test]
fn one_sum(rt: HostRuntime) -> Result<(), Fail> {
    let structs = structs(rt.alloc())?;
    let t = of(rt.alloc(), b"ai")?;
    let u = of(rt.alloc(), b"c")?;
    let Ok(sum) = sum_type(rt.alloc(), &structs, &t, &u) else {
        return Err(Fail::from("a sum"));
    };
    assert!(rt; same(&sum, &of(rt.alloc(), b"*i")?));
    Ok(())
}
