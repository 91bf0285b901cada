// From which token on is read, and the places of phrases.
use crate::reading::{read, read_from};
use dc_lexer::{Lex, lex};
use dc_read_expr::{Syntax, read_expr};
use dc_syntax::{Raw, Typedefs, grammar_tokens};
use std::alloc::{AllocError, Global};
use std::test::Fail;

#[test]
fn reading_begins_at_a_token(rt: HostRuntime) -> Result<(), Fail> {
    let rows: [(&[u8], usize, &[u8]); 6] = [
        (b"a + b * c", 0, b"(+ a (* b c)) 5"),
        (b"a + b * c", 2, b"(* b c) 5"),
        (b"a + b * c", 1, b"(* (prefix + b) c) 5"),
        (b"a + b * c", 3, b"(prefix * c) 5"),
        (b"a + b * c", 5, b"none"),
        (b"a + b * c", 6, b"none"),
    ];
    for (source, at, wanted) in rows {
        let answer = read_from(rt.alloc(), source, at)?;
        assert_eq!(rt; answer.as_slice(), wanted);
    }
    Ok(())
}

// A text that is cut behind each byte is answered.
#[test]
fn a_text_is_cut_behind_each_byte(rt: HostRuntime) -> Result<(), Fail> {
    let source: &[u8] =
        b"f(a)[sizeof(int *(*)(T, int))] ? *p++ = (T)-1 : __CPROVER_forall { int i; i ==> x.y->z };";
    for end in 1..source.len() {
        let answer = read(rt.alloc(), &source[..end])?;
        assert!(rt; answer.as_slice() != b"none".as_slice());
        assert!(rt; answer.as_slice() != b"no tokens".as_slice());
    }
    Ok(())
}

// The last token's number and the first line of a sum over two lines, or zeros where none is read.
fn place_of_sum(alloc: Global) -> Result<(u64, u64), AllocError> {
    let tokens = match lex(alloc, b"(\n\na +\n b) * c") {
        Ok(tokens) => tokens,
        Err(Lex::Memory(error)) => return Err(error),
        Err(_) => return Ok((0, 0)),
    };
    let tokens = grammar_tokens(alloc, &tokens)?;
    let names = Typedefs::new(alloc);
    match read_expr(alloc, tokens.as_slice(), 1, &names) {
        Ok((tree, _)) => Ok(place_of(&tree)),
        Err(Syntax::Memory(error)) => Err(error),
        Err(Syntax::NoReading) => Ok((0, 0)),
    }
}

// The place of a binary operator with its operands.
fn place_of(tree: &Raw) -> (u64, u64) {
    match tree {
        Raw::Binary(_, _, _, place) => (place.last(), place.line()),
        _ => (0, 0),
    }
}

#[test]
fn a_phrase_has_its_last_token_and_its_first_line(rt: HostRuntime) -> Result<(), Fail> {
    let place = place_of_sum(rt.alloc())?;
    assert_eq!(rt; place.0, 4);
    assert_eq!(rt; place.1, 3);
    Ok(())
}
