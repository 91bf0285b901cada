// Times calls that no command reaches yet: `dcc_bench lex FILE`, `dcc_bench read_expr FILE`, `dcc_bench read_unit FILE`,
// `dcc_bench memory COUNT` for so many stores and loads, and `dcc_bench scopes COUNT` for so many names.
#![tactic(auto)]

mod memory;
mod names;

use crate::names::names_found;
use dc_lexer::{Lex, Tokens, lex};
use dc_read_expr::{Syntax, read_expr};
use dc_read_unit::read_unit;
use dc_syntax::{Typedefs, grammar_tokens};
use std::alloc::{AllocError, Global};
use std::process::ExitCode;
use std::{env, fs};

// The call that is timed.
#[derive(Clone, Copy)]
enum Call {
    Lex,
    ReadExpr,
    ReadUnit,
}

// The call of this name.
fn call_of(word: &str) -> Option<Call> {
    if word == "lex" {
        return Some(Call::Lex);
    }
    if word == "read_expr" {
        return Some(Call::ReadExpr);
    }
    if word == "read_unit" {
        return Some(Call::ReadUnit);
    }
    None
}

// How far the expression goes that is read from the first token on.
fn expression(alloc: Global, source: &Tokens) -> Result<String, AllocError> {
    let tokens = grammar_tokens(alloc, source)?;
    let names = Typedefs::new(alloc);
    match read_expr(alloc, tokens.as_slice(), 0, &names) {
        Ok((_, end)) => format!(in alloc; "expression up to {end} of {}", tokens.len()),
        Err(Syntax::NoReading) => format!(in alloc; "no reading of {}", tokens.len()),
        Err(Syntax::Memory(error)) => Err(error),
    }
}

// How many declarations and definitions the unit has.
fn unit(alloc: Global, source: &Tokens) -> Result<String, AllocError> {
    let tokens = grammar_tokens(alloc, source)?;
    match read_unit(alloc, tokens.as_slice()) {
        Ok(unit) => {
            format!(in alloc;
                "unit with {} parts of {}",
                unit.externals.len(),
                tokens.len()
            )
        }
        Err(Syntax::NoReading) => format!(in alloc; "no reading of {}", tokens.len()),
        Err(Syntax::Memory(error)) => Err(error),
    }
}

// What the call gives, as a line.
fn answer(alloc: Global, call: Call, bytes: &[u8]) -> Result<String, AllocError> {
    match lex(alloc, bytes) {
        Ok(tokens) => match call {
            Call::Lex => format!(in alloc; "tokens {}", tokens.len()),
            Call::ReadExpr => expression(alloc, &tokens),
            Call::ReadUnit => unit(alloc, &tokens),
        },
        Err(Lex::Byte(at)) => format!(in alloc; "byte {at}"),
        Err(Lex::Wide(at)) => format!(in alloc; "wide {at}"),
        Err(Lex::Directive(line)) => format!(in alloc; "directive {line}"),
        Err(Lex::Memory(error)) => Err(error),
    }
}

fn main(rt: HostRuntime) -> Result<ExitCode, anyhow::Error> {
    let alloc = rt.alloc();
    let words: Vec<String> = env::args(&rt)?.collect(alloc)?;
    let [_, word, subject] = words.as_slice() else {
        return Ok(ExitCode::from(2));
    };
    if word.as_str() == "memory" {
        let line = memory::answer(alloc, subject.as_str().parse()?)?;
        println!(rt; "{line}")?;
        return Ok(ExitCode::from(0));
    }
    if word.as_str() == "scopes" {
        let found = names_found(alloc, subject.as_str().parse()?)?;
        println!(rt; "names {found}")?;
        return Ok(ExitCode::from(0));
    }
    let Some(call) = call_of(word.as_str()) else {
        return Ok(ExitCode::from(2));
    };
    let bytes = fs::read(&rt, subject.as_str())?;
    let line = answer(alloc, call, &bytes)?;
    println!(rt; "{line}")?;
    Ok(ExitCode::from(0))
}
