// What is read from a text.
use crate::written::write_parts;
use dc_lexer::{Lex, lex};
use dc_read_expr::Syntax;
use dc_read_unit::read_unit;
use dc_syntax::grammar_tokens;
use std::alloc::{AllocError, Global};

/// The parts of a unit, `none` where the tokens spell none, or where the lexer stops, as `byte 0`.
pub fn read(alloc: Global, source: &[u8]) -> Result<Vec<u8>, AllocError> {
    let tokens = match lex(alloc, source) {
        Ok(tokens) => tokens,
        Err(Lex::Memory(error)) => return Err(error),
        Err(refusal) => return Vec::from_slice(alloc, refusal.to_string(alloc)?.as_bytes()),
    };
    let tokens = grammar_tokens(alloc, &tokens)?;
    match read_unit(alloc, tokens.as_slice()) {
        Err(Syntax::Memory(error)) => Err(error),
        Err(Syntax::NoReading) => Vec::from_slice(alloc, b"none"),
        Ok(unit) => {
            let mut text = Vec::new(alloc);
            write_parts(&mut text, &unit.externals)?;
            Ok(text)
        }
    }
}

/// The same of a text in the block of a function.
pub fn read_inside(alloc: Global, inside: &[u8]) -> Result<Vec<u8>, AllocError> {
    let mut source = Vec::new(alloc);
    source.extend_from_slice(b"void f(void) {")?;
    source.extend_from_slice(inside)?;
    source.push(b'}')?;
    read(alloc, source.as_slice())
}
