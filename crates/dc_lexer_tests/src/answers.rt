// What is answered to a source.
use dc_lexer::{Kind, Lex, Token, Tokens, lex};
use std::alloc::{AllocError, Global};

/// An answer to a source, with the number of the tokens.
#[derive(Clone, Copy, Debug, PartialEq, Eq)]
pub enum Answer {
    Tokens(usize),
    Byte(u64),
    Wide(u64),
    Directive(u64),
}

/// The answer to a source.
pub fn answer_to(alloc: Global, source: &[u8]) -> Result<Answer, AllocError> {
    match lex(alloc, source) {
        Ok(tokens) => Ok(Answer::Tokens(tokens.len())),
        Err(Lex::Byte(at)) => Ok(Answer::Byte(at)),
        Err(Lex::Wide(at)) => Ok(Answer::Wide(at)),
        Err(Lex::Directive(line)) => Ok(Answer::Directive(line)),
        Err(Lex::Memory(error)) => Err(error),
    }
}

// A letter for each kind.
fn letter(kind: Kind) -> u8 {
    match kind {
        Kind::Word => b'w',
        Kind::Integer => b'i',
        Kind::Character => b'c',
        Kind::Punctuator => b'p',
    }
}

// A token as its kind, its line and its bytes.
fn write_token(alloc: Global, text: &mut Vec<u8>, token: &Token) -> Result<(), AllocError> {
    if !text.is_empty() {
        text.push(b' ')?;
    }
    text.push(letter(token.kind()))?;
    text.extend_from_slice(token.line().to_string(alloc)?.as_bytes())?;
    text.push(b':')?;
    text.extend_from_slice(token.as_slice())
}

// The tokens, a blank between each two.
fn written(alloc: Global, tokens: &Tokens) -> Result<Vec<u8>, AllocError> {
    let mut text = Vec::new(alloc);
    for index in 0..tokens.len() {
        if let Some(token) = tokens.get(index) {
            write_token(alloc, &mut text, token)?;
        }
    }
    Ok(text)
}

// A word and a number.
fn stopped(alloc: Global, word: &[u8], number: u64) -> Result<Vec<u8>, AllocError> {
    let mut text = Vec::from_slice(alloc, word)?;
    text.extend_from_slice(number.to_string(alloc)?.as_bytes())?;
    Ok(text)
}

/// The tokens of a source, as `w1:int i1:0`, or where its reading stops, as `byte 0`.
pub fn told(alloc: Global, source: &[u8]) -> Result<Vec<u8>, AllocError> {
    match lex(alloc, source) {
        Ok(tokens) => written(alloc, &tokens),
        Err(Lex::Byte(at)) => stopped(alloc, b"byte ", at),
        Err(Lex::Wide(at)) => stopped(alloc, b"wide ", at),
        Err(Lex::Directive(line)) => stopped(alloc, b"directive ", line),
        Err(Lex::Memory(error)) => Err(error),
    }
}
