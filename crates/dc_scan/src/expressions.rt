// Expressions of a text.
ghost use Rattle.std.specs.Prelude.{◌≡◌, IfOk, IsErrOf, None, map, length, []};
ghost use Rattle.dc_core.specs.Term as plain;
ghost use Rattle.dc_core.specs.View.{term_view};
ghost use Rattle.dc_goto.specs.Reading.{got, read_claimed as claimed_read, read_five, read_kind, read_low, read_many, read_number, read_one, read_opened as opened_read, read_operated as operated_read, read_parenthesised as parenthesised_read, read_placed as placed_read, read_term as term_read, read_three, read_two, spaced_read};
ghost use Rattle.dc_scan.specs.declared.form.Form.TheVariants.{NoForm};

use crate::cursor::Cursor;
use crate::form::Form;
use crate::leaf::read_leaf;
use crate::pieces::{next_kind, next_number};
use crate::sequence::followed;
use crate::words::operator_of;
use dc_core::{BinOp, LazyOp, Property, Quantifier, RangeTest, Term, UnOp};
use sqlite_items::{Boxed, Items};
use std::alloc::Global;

// Expressions are at most that high.
const HEIGHT_LIMIT: u64 = 1024;

// A part of at most that height, behind a space.
#[cycle(term)]
fn next_part(alloc: Global, height: u64, cursor: &mut Cursor) -> Result<Boxed<Term>, Form>
    ensures found { IfOk result (λ part. spaced_read (term_read height) cursor.old ≡ got (term_view part) cursor.new) }
    ensures none { IsErrOf result NoForm → spaced_read (term_read height) cursor.old ≡ None }
{
    cursor.expect(b' ')?;
    let part = read_term(alloc, height, cursor)?;
    let part = Boxed::new(alloc, part)?;
    Ok(part)
}

// A load, behind its first word, of an expression of at most that height.
#[cycle(term)]
fn read_load(alloc: Global, height: u64, cursor: &mut Cursor) -> Result<Term, Form>
    ensures found { IfOk result (λ t. read_two read_kind (term_read height) plain.Load cursor.old ≡ got (term_view t) cursor.new) }
    ensures none { IsErrOf result NoForm → read_two read_kind (term_read height) plain.Load cursor.old ≡ None }
{
    let kind = next_kind(cursor)?;
    let address = next_part(alloc, height, cursor)?;
    Ok(Term::Load(kind, address))
}

// A conversion.
#[cycle(term)]
fn read_convert(alloc: Global, height: u64, cursor: &mut Cursor) -> Result<Term, Form>
    ensures found { IfOk result (λ t. read_three read_kind read_kind (term_read height) plain.Convert cursor.old ≡ got (term_view t) cursor.new) }
    ensures none { IsErrOf result NoForm → read_three read_kind read_kind (term_read height) plain.Convert cursor.old ≡ None }
{
    let to = next_kind(cursor)?;
    let from = next_kind(cursor)?;
    let value = next_part(alloc, height, cursor)?;
    Ok(Term::Convert(to, from, value))
}

// An operator on one expression.
#[cycle(term)]
fn read_unary(alloc: Global, height: u64, operator: UnOp, cursor: &mut Cursor) -> Result<Term, Form>
    ensures found { IfOk result (λ t. read_two read_kind (term_read height) (plain.Unary operator) cursor.old ≡ got (term_view t) cursor.new) }
    ensures none { IsErrOf result NoForm → read_two read_kind (term_read height) (plain.Unary operator) cursor.old ≡ None }
{
    let kind = next_kind(cursor)?;
    let value = next_part(alloc, height, cursor)?;
    Ok(Term::Unary(operator, kind, value))
}

// An operator that may leave its second expression unasked.
#[cycle(term)]
fn read_lazy(
    alloc: Global,
    height: u64,
    operator: LazyOp,
    cursor: &mut Cursor,
) -> Result<Term, Form>
    ensures found { IfOk result (λ t. read_two (term_read height) (term_read height) (plain.Lazy operator) cursor.old ≡ got (term_view t) cursor.new) }
    ensures none { IsErrOf result NoForm → read_two (term_read height) (term_read height) (plain.Lazy operator) cursor.old ≡ None }
{
    let left = next_part(alloc, height, cursor)?;
    let right = next_part(alloc, height, cursor)?;
    Ok(Term::Lazy(operator, left, right))
}

// One of two expressions, by a test.
#[cycle(term)]
fn read_choice(alloc: Global, height: u64, cursor: &mut Cursor) -> Result<Term, Form>
    ensures found { IfOk result (λ t. read_three (term_read height) (term_read height) (term_read height) plain.Choice cursor.old ≡ got (term_view t) cursor.new) }
    ensures none { IsErrOf result NoForm → read_three (term_read height) (term_read height) (term_read height) plain.Choice cursor.old ≡ None }
{
    let test = next_part(alloc, height, cursor)?;
    let then = next_part(alloc, height, cursor)?;
    let otherwise = next_part(alloc, height, cursor)?;
    Ok(Term::Choice(test, then, otherwise))
}

// An operator on two expressions.
#[cycle(term)]
fn read_binary(
    alloc: Global,
    height: u64,
    operator: BinOp,
    cursor: &mut Cursor,
) -> Result<Term, Form>
    ensures found { IfOk result (λ t. read_three read_kind (term_read height) (term_read height) (plain.Binary operator) cursor.old ≡ got (term_view t) cursor.new) }
    ensures none { IsErrOf result NoForm → read_three read_kind (term_read height) (term_read height) (plain.Binary operator) cursor.old ≡ None }
{
    let kind = next_kind(cursor)?;
    let left = next_part(alloc, height, cursor)?;
    let right = next_part(alloc, height, cursor)?;
    Ok(Term::Binary(operator, kind, left, right))
}

// A pointer moved by so many elements.
#[cycle(term)]
fn read_moved(alloc: Global, height: u64, cursor: &mut Cursor) -> Result<Term, Form>
    ensures found { IfOk result (λ t. read_three read_number (term_read height) (term_read height) plain.Moved cursor.old ≡ got (term_view t) cursor.new) }
    ensures none { IsErrOf result NoForm → read_three read_number (term_read height) (term_read height) plain.Moved cursor.old ≡ None }
{
    let size = next_number(cursor)?;
    let pointer = next_part(alloc, height, cursor)?;
    let count = next_part(alloc, height, cursor)?;
    Ok(Term::Moved(size, pointer, count))
}

// The distance of two pointers in elements.
#[cycle(term)]
fn read_distance(alloc: Global, height: u64, cursor: &mut Cursor) -> Result<Term, Form>
    ensures found { IfOk result (λ t. read_three read_number (term_read height) (term_read height) plain.Distance cursor.old ≡ got (term_view t) cursor.new) }
    ensures none { IsErrOf result NoForm → read_three read_number (term_read height) (term_read height) plain.Distance cursor.old ≡ None }
{
    let size = next_number(cursor)?;
    let pointer = next_part(alloc, height, cursor)?;
    let from = next_part(alloc, height, cursor)?;
    Ok(Term::Distance(size, pointer, from))
}

// What a pointer or its object is like.
#[cycle(term)]
fn read_asked(alloc: Global, height: u64, of: Property, cursor: &mut Cursor) -> Result<Term, Form>
    ensures found { IfOk result (λ t. read_one (term_read height) (plain.Asked of) cursor.old ≡ got (term_view t) cursor.new) }
    ensures none { IsErrOf result NoForm → read_one (term_read height) (plain.Asked of) cursor.old ≡ None }
{
    let pointer = next_part(alloc, height, cursor)?;
    Ok(Term::Asked(of, pointer))
}

// What so many bytes behind a pointer are like.
#[cycle(term)]
fn read_tested(
    alloc: Global,
    height: u64,
    test: RangeTest,
    cursor: &mut Cursor,
) -> Result<Term, Form>
    ensures found { IfOk result (λ t. read_two (term_read height) (term_read height) (plain.Tested test) cursor.old ≡ got (term_view t) cursor.new) }
    ensures none { IsErrOf result NoForm → read_two (term_read height) (term_read height) (plain.Tested test) cursor.old ≡ None }
{
    let pointer = next_part(alloc, height, cursor)?;
    let len = next_part(alloc, height, cursor)?;
    Ok(Term::Tested(test, pointer, len))
}

// Whether three pointers are in one object in this order.
#[cycle(term)]
fn read_between(alloc: Global, height: u64, cursor: &mut Cursor) -> Result<Term, Form>
    ensures found { IfOk result (λ t. read_three (term_read height) (term_read height) (term_read height) plain.Between cursor.old ≡ got (term_view t) cursor.new) }
    ensures none { IsErrOf result NoForm → read_three (term_read height) (term_read height) (term_read height) plain.Between cursor.old ≡ None }
{
    let low = next_part(alloc, height, cursor)?;
    let pointer = next_part(alloc, height, cursor)?;
    let high = next_part(alloc, height, cursor)?;
    Ok(Term::Between(low, pointer, high))
}

// A quantifier.
#[cycle(term)]
fn read_quantified(
    alloc: Global,
    height: u64,
    quantifier: Quantifier,
    cursor: &mut Cursor,
) -> Result<Term, Form>
    ensures found { IfOk result (λ t. read_five read_number read_kind (term_read height) (term_read height) (term_read height) (plain.Quantified quantifier) cursor.old ≡ got (term_view t) cursor.new) }
    ensures none { IsErrOf result NoForm → read_five read_number read_kind (term_read height) (term_read height) (term_read height) (plain.Quantified quantifier) cursor.old ≡ None }
{
    let nesting = next_number(cursor)?;
    let kind = next_kind(cursor)?;
    let low = next_part(alloc, height, cursor)?;
    let high = next_part(alloc, height, cursor)?;
    let body = next_part(alloc, height, cursor)?;
    Ok(Term::Quantified(quantifier, nesting, kind, low, high, body))
}

// An expression of pointers and their objects, or one without parts.
#[cycle(term)]
fn read_placed(alloc: Global, height: u64, word: &[u8], cursor: &mut Cursor) -> Result<Term, Form>
    ensures found { IfOk result (λ t. placed_read (term_read height) word.now cursor.old ≡ got (term_view t) cursor.new) }
    ensures none { IsErrOf result NoForm → placed_read (term_read height) word.now cursor.old ≡ None }
{
    if word == b"at".as_slice() {
        return read_moved(alloc, height, cursor);
    }
    if word == b"diff".as_slice() {
        return read_distance(alloc, height, cursor);
    }
    if word == b"start".as_slice() {
        return read_asked(alloc, height, Property::Start, cursor);
    }
    if word == b"size".as_slice() {
        return read_asked(alloc, height, Property::Size, cursor);
    }
    if word == b"offset".as_slice() {
        return read_asked(alloc, height, Property::Offset, cursor);
    }
    if word == b"freeable".as_slice() {
        return read_asked(alloc, height, Property::Freeable, cursor);
    }
    if word == b"freed".as_slice() {
        return read_asked(alloc, height, Property::Freed, cursor);
    }
    read_leaf(word, cursor)
}

// A predicate or a quantifier, or another expression without an operator.
#[cycle(term)]
fn read_claimed(alloc: Global, height: u64, word: &[u8], cursor: &mut Cursor) -> Result<Term, Form>
    ensures found { IfOk result (λ t. claimed_read (term_read height) word.now cursor.old ≡ got (term_view t) cursor.new) }
    ensures none { IsErrOf result NoForm → claimed_read (term_read height) word.now cursor.old ≡ None }
{
    if word == b"ok".as_slice() {
        return read_tested(alloc, height, RangeTest::Accessible, cursor);
    }
    if word == b"fresh".as_slice() {
        return read_tested(alloc, height, RangeTest::Fresh, cursor);
    }
    if word == b"new".as_slice() {
        return read_tested(alloc, height, RangeTest::New, cursor);
    }
    if word == b"inrange".as_slice() {
        return read_between(alloc, height, cursor);
    }
    if word == b"forall".as_slice() {
        return read_quantified(alloc, height, Quantifier::ForAll, cursor);
    }
    if word == b"exists".as_slice() {
        return read_quantified(alloc, height, Quantifier::Exists, cursor);
    }
    read_placed(alloc, height, word, cursor)
}

// An operator on two expressions, if there is one, or another expression.
#[cycle(term)]
fn read_operated(
    alloc: Global,
    height: u64,
    operator: Option<BinOp>,
    word: &[u8],
    cursor: &mut Cursor,
) -> Result<Term, Form>
    ensures found { IfOk result (λ t. operated_read (term_read height) operator word.now cursor.old ≡ got (term_view t) cursor.new) }
    ensures none { IsErrOf result NoForm → operated_read (term_read height) operator word.now cursor.old ≡ None }
{
    match operator {
        Some(operator) => read_binary(alloc, height, operator, cursor),
        None => read_claimed(alloc, height, word, cursor),
    }
}

// An expression, behind its first word.
#[cycle(term)]
fn read_opened(alloc: Global, height: u64, word: &[u8], cursor: &mut Cursor) -> Result<Term, Form>
    ensures found { IfOk result (λ t. opened_read (term_read height) word.now cursor.old ≡ got (term_view t) cursor.new) }
    ensures none { IsErrOf result NoForm → opened_read (term_read height) word.now cursor.old ≡ None }
{
    if word == b"load".as_slice() {
        return read_load(alloc, height, cursor);
    }
    if word == b"conv".as_slice() {
        return read_convert(alloc, height, cursor);
    }
    if word == b"neg".as_slice() {
        return read_unary(alloc, height, UnOp::Neg, cursor);
    }
    if word == b"not".as_slice() {
        return read_unary(alloc, height, UnOp::Not, cursor);
    }
    if word == b"and2".as_slice() {
        return read_lazy(alloc, height, LazyOp::Both, cursor);
    }
    if word == b"or2".as_slice() {
        return read_lazy(alloc, height, LazyOp::Either, cursor);
    }
    if word == b"if".as_slice() {
        return read_choice(alloc, height, cursor);
    }
    read_operated(alloc, height, operator_of(word), word, cursor)
}

// An expression in its parentheses, with parts of at most that height.
#[cycle(term)]
fn read_parenthesised(alloc: Global, height: u64, cursor: &mut Cursor) -> Result<Term, Form>
    ensures found { IfOk result (λ t. parenthesised_read (term_read height) cursor.old ≡ got (term_view t) cursor.new) }
    ensures none { IsErrOf result NoForm → parenthesised_read (term_read height) cursor.old ≡ None }
{
    cursor.expect(b'(')?;
    let word = cursor.word();
    let term = read_opened(alloc, height, word, cursor)?;
    followed(term, cursor.expect(b')'))
}

// An expression of at most that height.
#[cycle(term)]
fn read_term(alloc: Global, height: u64, cursor: &mut Cursor) -> Result<Term, Form>
    ensures found { IfOk result (λ t. term_read height cursor.old ≡ got (term_view t) cursor.new) }
    ensures none { IsErrOf result NoForm → term_read height cursor.old ≡ None }
{
    if height == 0 {
        return Err(Form::NoForm);
    }
    read_parenthesised(alloc, height - 1, cursor)
}

/// The expression behind a space.
#[tactic(auto, unfolding(dc_goto::specs::Lines::height_limit))]
pub fn next_term(alloc: Global, cursor: &mut Cursor) -> Result<Term, Form>
    ensures found { IfOk result (λ t. spaced_read read_low cursor.old ≡ got (term_view t) cursor.new) }
    ensures none { IsErrOf result NoForm → spaced_read read_low cursor.old ≡ None }
{
    cursor.expect(b' ')?;
    read_term(alloc, HEIGHT_LIMIT, cursor)
}

/// As many expressions as stand there, each behind a space.
pub fn next_terms(alloc: Global, cursor: &mut Cursor) -> Result<Items<Term>, Form>
    ensures found { IfOk result (λ terms. read_many read_low (length cursor.old) [] cursor.old ≡ got (map term_view terms) cursor.new) }
    ensures none { IsErrOf result NoForm → read_many read_low (length cursor.old) [] cursor.old ≡ None }
{
    let mut terms = Items::new(alloc);
    'each: while cursor.begins_with(b' ') {
        let term = next_term(alloc, cursor)?;
        terms.push(term)?;
    }
    Ok(terms)
}
