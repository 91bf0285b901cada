// What a source means, or the first rule that it breaks.
ghost use Rattle.std.specs.Prelude.{◌≡◌, true};
ghost use Rattle.dc_syntax.specs.View.{raw_view};
ghost use Rattle.dc_typing.specs.Plain.{is_plain};

use crate::shown::{put_expr, put_number};
use crate::surroundings::{scopes, typedefs};
use dc_lexer::{Lex, Tokens, lex};
use dc_program::Expr;
use dc_read_expr::{Syntax, read_expr};
use dc_rules_tests::made::structs;
use dc_syntax::{Raw, Token, Typedefs, grammar_tokens};
use dc_text::Site;
use dc_typing::{Refusal, is_plain_expression, type_expr};
use std::alloc::{AllocError, Global};

// The answer to a tree: `form type`, or `!` with the rule and `@` with the token.
fn answer(alloc: Global, tree: &Raw) -> Result<Vec<u8>, AllocError> {
    if !is_plain_expression(tree) {
        return Vec::from_slice(alloc, b"not plain");
    }
    let scopes = scopes(alloc)?;
    let structs = structs(alloc)?;
    shown(alloc, type_expr(alloc, tree, &scopes, &structs, None, 4))
}

// An answer as text.
fn shown(alloc: Global, answer: Result<Expr, Refusal>) -> Result<Vec<u8>, AllocError> {
    let mut out = Vec::new(alloc);
    match answer {
        Ok(e) => put_expr(alloc, &mut out, &e)?,
        Err(Refusal::Rule { rule, site }) => {
            let Site(site) = site;
            put_number(alloc, &mut out, b'!', rule.number() as u64)?;
            put_number(alloc, &mut out, b'@', site)?;
        }
        Err(Refusal::Memory(error)) => return Err(error),
    }
    Ok(out)
}

// The answer to a tree, where it is all of a source.
fn answer_to_whole(alloc: Global, tree: &Raw, is_whole: bool) -> Result<Vec<u8>, AllocError> {
    if is_whole {
        answer(alloc, tree)
    } else {
        Vec::from_slice(alloc, b"more than an expression")
    }
}

// The answer to tokens, among the names in force.
fn answer_to_tokens(
    alloc: Global,
    tokens: &[Token<'_>],
    names: &Typedefs<'_>,
) -> Result<Vec<u8>, AllocError> {
    match read_expr(alloc, tokens, 0, names) {
        Err(Syntax::Memory(error)) => Err(error),
        Err(Syntax::NoReading) => Vec::from_slice(alloc, b"no expression"),
        Ok((tree, end)) => answer_to_whole(alloc, &tree, end == tokens.len()),
    }
}

// The answer to tokens.
fn answer_among_names(alloc: Global, tokens: &[Token<'_>]) -> Result<Vec<u8>, AllocError> {
    let names = typedefs(alloc)?;
    answer_to_tokens(alloc, tokens, &names)
}

// The answer to the tokens of a source.
fn answer_to_source(alloc: Global, tokens: &Tokens<'_>) -> Result<Vec<u8>, AllocError> {
    let tokens = grammar_tokens(alloc, tokens)?;
    answer_among_names(alloc, tokens.as_slice())
}

/// The answer to a source, of which the function has 4 sites before.
pub fn judged(alloc: Global, source: &[u8]) -> Result<Vec<u8>, AllocError> {
    match lex(alloc, source) {
        Ok(tokens) => answer_to_source(alloc, &tokens),
        Err(Lex::Memory(error)) => Err(error),
        Err(_) => Vec::from_slice(alloc, b"no tokens"),
    }
}
