// What is read from a text.
use crate::written::write_tree;
use dc_lexer::{Lex, lex};
use dc_read_expr::{Syntax, read_expr};
use dc_syntax::{Raw, Typedefs, grammar_tokens};
use std::alloc::{AllocError, Global};

/// The tree of the expression that is read from the front of a text, and the number of the token behind it, or `none`.
/// `T` and `size_t` are typedefs.
pub fn read(alloc: Global, source: &[u8]) -> Result<Vec<u8>, AllocError> {
    read_from(alloc, source, 0)
}

/// The same from the token of this number on.
pub fn read_from(alloc: Global, source: &[u8], at: usize) -> Result<Vec<u8>, AllocError> {
    let tokens = match lex(alloc, source) {
        Ok(tokens) => tokens,
        Err(Lex::Memory(error)) => return Err(error),
        Err(_) => return Vec::from_slice(alloc, b"no tokens"),
    };
    let tokens = grammar_tokens(alloc, &tokens)?;
    let mut names = Typedefs::new(alloc);
    names.declare(alloc, b"T", true)?;
    names.declare(alloc, b"U", true)?;
    names.declare(alloc, b"size_t", true)?;
    names.declare(alloc, b"U", false)?;
    match read_expr(alloc, tokens.as_slice(), at, &names) {
        Err(Syntax::Memory(error)) => Err(error),
        Err(Syntax::NoReading) => Vec::from_slice(alloc, b"none"),
        Ok((tree, end)) => written(alloc, &tree, end),
    }
}

// A tree, and the number of the token behind it.
fn written(alloc: Global, tree: &Raw, end: usize) -> Result<Vec<u8>, AllocError> {
    let mut text = Vec::new(alloc);
    write_tree(&mut text, tree)?;
    text.push(b' ')?;
    text.extend_from_slice(end.to_string(alloc)?.as_bytes())?;
    Ok(text)
}
