// Expressions as text.
ghost use Rattle.std.specs.Prelude.{◌≡◌, ◌++◌, [], ◌∷◌, OnOk, codes, map};
ghost use Rattle.std.specs.Fmt.{decimal};
ghost use Rattle.dc_core.specs.View.{term_view};
ghost use Rattle.dc_goto.specs.Text.{kind_word, number_word, operator_word, parenthesised, quantifier_word, spaced, term_word, unary_word};

use crate::decimal::put_number;
use crate::operators::{
    put_lazy, put_operator, put_property, put_quantifier, put_range_test, put_unary,
};
use crate::words::{put_kind, put_spaced_decimal, put_spaced_kind};
use dc_core::{BinOp, NumKind, Quantifier, Term, UnOp};
use std::alloc::{AllocError, Global};

// A constant of a kind.
fn put_constant(alloc: Global, out: &mut Vec<u8>, kind: NumKind, z: i128) -> Result<(), AllocError>
    ensures { OnOk result (out.new.items ≡ out.old.items ++ parenthesised (kind_word kind) (number_word z ∷ [])) }
{
    out.push(b'(')?;
    put_kind(out, kind)?;
    out.push(b' ')?;
    put_number(alloc, out, z)?;
    out.push(b')')?;
    Ok(())
}

// What a word names by its number.
fn put_numbered(alloc: Global, out: &mut Vec<u8>, word: &[u8], n: u64) -> Result<(), AllocError>
    ensures { OnOk result (out.new.items ≡ out.old.items ++ parenthesised word.now (decimal n ∷ [])) }
{
    out.push(b'(')?;
    out.extend_from_slice(word)?;
    put_spaced_decimal(alloc, out, n)?;
    out.push(b')')?;
    Ok(())
}

// A parenthesis and the words of a conversion.
fn open_convert(out: &mut Vec<u8>, to: NumKind, from: NumKind) -> Result<(), AllocError>
    ensures { OnOk result (out.new.items ≡ out.old.items ++ codes "(conv" ++ spaced (kind_word to ∷ kind_word from ∷ [])) }
{
    out.extend_from_slice(b"(conv")?;
    put_spaced_kind(out, to)?;
    put_spaced_kind(out, from)?;
    Ok(())
}

// A parenthesis and the words of an operator on one value.
fn open_unary(out: &mut Vec<u8>, op: UnOp, kind: NumKind) -> Result<(), AllocError>
    ensures { OnOk result (out.new.items ≡ out.old.items ++ codes "(" ++ unary_word op ++ spaced (kind_word kind ∷ [])) }
{
    out.push(b'(')?;
    put_unary(out, op)?;
    put_spaced_kind(out, kind)?;
    Ok(())
}

// A parenthesis and the words of an operator on two values.
fn open_binary(out: &mut Vec<u8>, op: BinOp, kind: NumKind) -> Result<(), AllocError>
    ensures { OnOk result (out.new.items ≡ out.old.items ++ codes "(" ++ operator_word op ++ spaced (kind_word kind ∷ [])) }
{
    out.push(b'(')?;
    put_operator(out, op)?;
    put_spaced_kind(out, kind)?;
    Ok(())
}

// A parenthesis and the words of a quantifier.
fn open_quantified(
    alloc: Global,
    out: &mut Vec<u8>,
    quantifier: Quantifier,
    nesting: u64,
    kind: NumKind,
) -> Result<(), AllocError>
    ensures { OnOk result (out.new.items ≡ out.old.items ++ codes "(" ++ quantifier_word quantifier ++ spaced (decimal nesting ∷ kind_word kind ∷ [])) }
{
    out.push(b'(')?;
    put_quantifier(out, quantifier)?;
    put_spaced_decimal(alloc, out, nesting)?;
    put_spaced_kind(out, kind)?;
    Ok(())
}

// The last expression in parentheses, behind a space.
#[cycle(put_term)]
fn put_last(alloc: Global, out: &mut Vec<u8>, t: &Term) -> Result<(), AllocError>
    ensures { OnOk result (out.new.items ≡ out.old.items ++ spaced (term_word (term_view t.now) ∷ []) ++ codes ")") }
{
    put_spaced_term(alloc, out, t)?;
    out.push(b')')?;
    Ok(())
}

/// Adds an expression in its parentheses.
#[cycle(put_term)]
pub fn put_term(alloc: Global, out: &mut Vec<u8>, t: &Term) -> Result<(), AllocError>
    ensures { OnOk result (out.new.items ≡ out.old.items ++ term_word (term_view t.now)) }
{
    match t {
        Term::Constant(kind, z) => put_constant(alloc, out, *kind, *z),
        Term::Register(r) => put_numbered(alloc, out, b"reg", *r),
        Term::Variable(d) => put_numbered(alloc, out, b"var", *d),
        Term::Object(n) => put_numbered(alloc, out, b"obj", *n),
        Term::Load(kind, address) => {
            out.extend_from_slice(b"(load")?;
            put_spaced_kind(out, *kind)?;
            put_last(alloc, out, address.get())
        }
        Term::Convert(to, from, value) => {
            open_convert(out, *to, *from)?;
            put_last(alloc, out, value.get())
        }
        Term::Unary(op, kind, value) => {
            open_unary(out, *op, *kind)?;
            put_last(alloc, out, value.get())
        }
        Term::Binary(op, kind, a, b) => {
            open_binary(out, *op, *kind)?;
            put_spaced_term(alloc, out, a.get())?;
            put_last(alloc, out, b.get())
        }
        Term::Lazy(op, a, b) => {
            out.push(b'(')?;
            put_lazy(out, *op)?;
            put_spaced_term(alloc, out, a.get())?;
            put_last(alloc, out, b.get())
        }
        Term::Choice(test, a, b) => {
            out.extend_from_slice(b"(if")?;
            put_spaced_term(alloc, out, test.get())?;
            put_spaced_term(alloc, out, a.get())?;
            put_last(alloc, out, b.get())
        }
        Term::Moved(size, pointer, count) => {
            out.extend_from_slice(b"(at")?;
            put_spaced_decimal(alloc, out, *size)?;
            put_spaced_term(alloc, out, pointer.get())?;
            put_last(alloc, out, count.get())
        }
        Term::Distance(size, one, other) => {
            out.extend_from_slice(b"(diff")?;
            put_spaced_decimal(alloc, out, *size)?;
            put_spaced_term(alloc, out, one.get())?;
            put_last(alloc, out, other.get())
        }
        Term::Asked(property, pointer) => {
            out.push(b'(')?;
            put_property(out, *property)?;
            put_last(alloc, out, pointer.get())
        }
        Term::Tested(test, pointer, len) => {
            out.push(b'(')?;
            put_range_test(out, *test)?;
            put_spaced_term(alloc, out, pointer.get())?;
            put_last(alloc, out, len.get())
        }
        Term::Between(low, pointer, high) => {
            out.extend_from_slice(b"(inrange")?;
            put_spaced_term(alloc, out, low.get())?;
            put_spaced_term(alloc, out, pointer.get())?;
            put_last(alloc, out, high.get())
        }
        Term::Quantified(quantifier, nesting, kind, from, below, test) => {
            open_quantified(alloc, out, *quantifier, *nesting, *kind)?;
            put_spaced_term(alloc, out, from.get())?;
            put_spaced_term(alloc, out, below.get())?;
            put_last(alloc, out, test.get())
        }
    }
}

/// Adds a space and an expression.
#[cycle(put_term)]
pub fn put_spaced_term(alloc: Global, out: &mut Vec<u8>, t: &Term) -> Result<(), AllocError>
    ensures { OnOk result (out.new.items ≡ out.old.items ++ 32 ∷ term_word (term_view t.now)) }
{
    out.push(b' ')?;
    put_term(alloc, out, t)?;
    Ok(())
}

/// Adds expressions, each behind a space.
pub fn put_terms(alloc: Global, out: &mut Vec<u8>, terms: &[Term]) -> Result<(), AllocError>
    ensures { OnOk result (out.new.items ≡ out.old.items ++ spaced (map term_word (map term_view terms.now))) }
{
    for t in terms {
        put_spaced_term(alloc, out, t)?;
    }
    Ok(())
}
