// The types of elements, members and calls.
use crate::made::{of, spell};
use crate::shown::{index_row, member_row};
use dc_rules::{called_type, parameters_of, result_of};
use std::alloc::{AllocError, Global};
use std::test::Fail;

#[test]
fn elements(rt: HostRuntime) -> Result<(), Fail> {
    let rows: [(&[u8], &[u8]); 9] = [
        (b"c", b"!18 !18 !18 i kc i !05 !05 !18 !05"),
        (b"*kc", b"kc kc kc !18 !18 !18 !18 !18 !18 !18"),
        (b"aai", b"ai ai ai !18 !18 !18 !18 !18 !18 !18"),
        (b"z0", b"0 0 0 !18 !18 !18 !18 !18 !18 !18"),
        (b"fi", b"!05 !05 !05 !18 !18 !18 !18 !18 !18 !18"),
        (b"*v", b"!05 !05 !05 !18 !18 !18 !18 !18 !18 !18"),
        (b"*1", b"!05 !05 !05 !18 !18 !18 !18 !18 !18 !18"),
        (b"*zi", b"!05 !05 !05 !18 !18 !18 !18 !18 !18 !18"),
        (b"0", b"!18 !18 !18 !18 !18 !18 !18 !18 !18 !18"),
    ];
    for (word, wanted) in rows {
        let answer = index_row(rt.alloc(), word)?;
        assert_eq!(rt; answer.as_slice(), wanted);
    }
    Ok(())
}

#[test]
fn members(rt: HostRuntime) -> Result<(), Fail> {
    let rows: [(&[u8], &[u8]); 8] = [
        (b"0", b"i *kc ah !17 i *kc ah !17"),
        (b"k0", b"ki k*kc akh !17 ki k*kc akh !17"),
        (b"2", b"ki !17 !17 !17 ki !17 !17 !17"),
        (b"k2", b"ki !17 !17 !17 ki !17 !17 !17"),
        (b"1", b"!17 !17 !17 !17 !17 !17 !17 !17"),
        (b"7", b"!17 !17 !17 !17 !17 !17 !17 !17"),
        (b"*0", b"!17 !17 !17 !17 !17 !17 !17 !17"),
        (b"v", b"!17 !17 !17 !17 !17 !17 !17 !17"),
    ];
    for (word, wanted) in rows {
        let answer = member_row(rt.alloc(), word)?;
        assert_eq!(rt; answer.as_slice(), wanted);
    }
    Ok(())
}

// What a call of the type gives, and how many arguments it takes, or the number of the rule.
fn call(alloc: Global, word: &[u8]) -> Result<Vec<u8>, AllocError> {
    let t = of(alloc, word)?;
    let mut out = Vec::new(alloc);
    match called_type(&t) {
        Ok(function) => {
            spell(&mut out, result_of(function))?;
            for parameter in parameters_of(function) {
                spell(&mut out, parameter)?;
            }
        }
        Err(rule) => out.push(rule.number())?,
    }
    Ok(out)
}

#[test]
fn calls(rt: HostRuntime) -> Result<(), Fail> {
    let rows: [(&[u8], &[u8]); 9] = [
        (b"fi", b"i"),
        (b"gi", b"ii"),
        (b"*g*c", b"*c*c"),
        (b"k*fv", b"v"),
        (b"**fi", b"\x1a"),
        (b"a*fi", b"\x1a"),
        (b"*i", b"\x1a"),
        (b"v", b"\x1a"),
        (b"0", b"\x1a"),
    ];
    for (word, wanted) in rows {
        let answer = call(rt.alloc(), word)?;
        assert_eq!(rt; answer.as_slice(), wanted);
    }
    Ok(())
}
