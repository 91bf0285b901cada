// The values and places of expressions.
ghost use Rattle.std.specs.Prelude.{◌≡◌, ◌≤◌, ◌<◌, ◌^◌, ◌+ℤ◌, ◌-ℤ◌, ◌*ℤ◌, length, pos, Some, slice_get, option_copied};
ghost use Rattle.std.specs.Int.{int_div_euclid};
ghost use Rattle.dc_num.specs.declared.kind.NumKind.TheVariants.{S32};
ghost use Rattle.dc_memory.specs.declared.kind.MemKind.TheVariants as mem;
ghost use Rattle.dc_memory.specs.Places.{start_of};
ghost use Rattle.dc_memory.specs.Access.{load, store};
ghost use Rattle.dc_num.specs.Conversions.{value_of_bits};
ghost use Rattle.dc_num.specs.Operators.{settled, quotient, remainder as remainder_of, shifted_left, shifted_right};
ghost use Rattle.dc_core.specs.Number.{computed};
ghost use Rattle.dc_core.specs.Value.{variable_place as place_of_variable, parameter_value as value_of_parameter, result_value as value_of_result, parameter_place as place_of_parameter, value as value_of, place as place_of};
ghost use Rattle.dc_core.specs.View.{expr_view, target_view};
ghost use Rattle.dc_run.specs.View.{scope_view, IsWritten};

use dc_core::{BinOp, NumKind};
use dc_memory::{MemKind, Store};
use dc_num::{binary, bits, truth};
use dc_program::{Expr, Form, Range, Target};
use sqlite_items::at;

/// Where an expression stands: in a body, by the places of the parameters' objects; or in a clause, by the arguments at
/// entry and the result.
#[derive(Clone, Copy)]
pub enum Scope<'a> {
    Body(&'a [u128]),
    Clause(&'a [i128], Option<i128>),
}

/// The place of the start of an object.
#[tactic(auto, unfolding(dc_memory::specs::Places::start_of))]
pub fn start(number: u64) -> u128
    ensures { result ≡ start_of number }
{
    number as u128 * 281474976710656
}

// The place of a variable.
#[tactic(auto, unfolding(dc_memory::specs::Places::start_of))]
fn variable_place(k: u64) -> u128
    ensures { result ≡ place_of_variable k }
{
    (k as u128 + 2) * 281474976710656
}

// The int at a place, where the place is inside a live object. There are too few objects for a place from 2^64 on.
fn load_int(memory: &Store, place: u128) -> Option<i128>
    requires { length memory.now ≤ 65535 }
    ensures { result ≡ load mem.S32 place memory.now }
{
    if place >= 1 << 64 {
        return None;
    }
    memory.load(place as u64, MemKind::S32)
}

/// Writes an int at a place and gives the place, where it is inside a live object.
pub fn store_int(memory: &mut Store, place: u128, value: i128) -> Option<u64>
    requires { length memory.old ≤ 65535 }
    ensures { IsWritten result place (store mem.S32 place value memory.old) memory.old memory.new }
{
    if place >= 1 << 64 {
        return None;
    }
    if memory.store(place as u64, MemKind::S32, value) {
        Some(place as u64)
    } else {
        None
    }
}

// The place of a parameter's object.
fn place_at(places: &[u128], k: u64) -> Option<u128>
    ensures { result ≡ slice_get places.now k }
{
    match at(places, k as usize) {
        None => None,
        Some(place) => Some(*place),
    }
}

// An argument.
fn argument_at(arguments: &[i128], k: u64) -> Option<i128>
    ensures { result ≡ slice_get arguments.now k }
{
    match at(arguments, k as usize) {
        None => None,
        Some(value) => Some(*value),
    }
}

// The value of a parameter.
fn parameter_value(scope: &Scope, memory: &Store, k: u64) -> Option<i128>
    requires { length memory.now ≤ 65535 }
    ensures { result ≡ value_of_parameter (scope_view scope.now) memory.now k }
{
    match scope {
        Scope::Body(places) => match place_at(places, k) {
            None => None,
            Some(place) => load_int(memory, place),
        },
        Scope::Clause(arguments, _) => argument_at(arguments, k),
    }
}

// The result that a clause may name.
fn result_value(scope: &Scope) -> Option<i128>
    ensures { result ≡ value_of_result (scope_view scope.now) }
{
    match scope {
        Scope::Body(_) => None,
        Scope::Clause(_, result) => *result,
    }
}

// The int that a result is, where it is one.
fn settle(z: i128) -> Option<i128>
    ensures { result ≡ settled S32 z }
{
    if z < i32::MIN as i128 || z > i32::MAX as i128 {
        None
    } else {
        Some(z)
    }
}

// The sum, where it is an int.
fn add(a: i128, b: i128) -> Option<i128>
    ensures { result ≡ settled S32 (a +ℤ b) }
{
    match a.checked_add(b) {
        None => None,
        Some(z) => settle(z),
    }
}

// The difference, where it is an int.
fn subtract(a: i128, b: i128) -> Option<i128>
    ensures { result ≡ settled S32 (a -ℤ b) }
{
    match a.checked_sub(b) {
        None => None,
        Some(z) => settle(z),
    }
}

// The product, where it is an int.
fn multiply(a: i128, b: i128) -> Option<i128>
    ensures { result ≡ settled S32 (a *ℤ b) }
{
    match a.checked_mul(b) {
        None => None,
        Some(z) => settle(z),
    }
}

// The quotient, truncated toward zero, where there is one that is an int.
fn divide(a: i128, b: i128) -> Option<i128>
    ensures { result ≡ quotient S32 a b }
{
    if b == 0 {
        return None;
    }
    match a.checked_div(b) {
        None => None,
        Some(z) => settle(z),
    }
}

// What is left beside the quotient, where there is one.
fn remainder(a: i128, b: i128) -> Option<i128>
    ensures { result ≡ remainder_of S32 a b }
{
    match divide(a, b) {
        None => None,
        Some(_) => a.checked_rem(b),
    }
}

// The number moved to the left, where that is an int. A greater number than an int doesn't become one.
#[tactic(auto, unfolding(dc_num::specs::Operators::binary_of))]
fn shift_left(a: i128, count: i128) -> Option<i128>
    ensures { result ≡ shifted_left S32 a count }
{
    if a < 0 {
        return None;
    }
    if a > i32::MAX as i128 {
        return None;
    }
    binary(BinOp::Shl, NumKind::S32, a, count)
}

// The number moved to the right: its quotient by a power of two, rounded down.
fn lowered(a: i128, count: u32) -> i128
    requires { count < 32 }
    ensures { result ≡ int_div_euclid a (pos (2 ^ count)) }
{
    a >> count
}

fn shift_right(a: i128, count: i128) -> Option<i128>
    ensures { result ≡ shifted_right S32 a count }
{
    if count < 0 || 32 <= count {
        return None;
    }
    Some(lowered(a, count as u32))
}

// The int that the bits spell.
fn int(bits: u64) -> i128
    ensures { result ≡ value_of_bits S32 bits }
{
    dc_num::value(NumKind::S32, bits)
}

// What an operator makes of two ints.
#[tactic(auto, unfolding(dc_core::specs::Number::computed, dc_num::specs::Operators::binary_of))]
fn operate(op: BinOp, a: i128, b: i128) -> Option<i128>
    ensures { result ≡ computed op S32 a b }
{
    match op {
        BinOp::Add => add(a, b),
        BinOp::Sub => subtract(a, b),
        BinOp::Mul => multiply(a, b),
        BinOp::Div => divide(a, b),
        BinOp::Rem => remainder(a, b),
        BinOp::Shl => shift_left(a, b),
        BinOp::Shr => shift_right(a, b),
        BinOp::And => Some(int(bits(NumKind::S32, a) & bits(NumKind::S32, b))),
        BinOp::Or => Some(int(bits(NumKind::S32, a) | bits(NumKind::S32, b))),
        BinOp::Xor => Some(int(bits(NumKind::S32, a) ^ bits(NumKind::S32, b))),
        BinOp::Lt => Some(truth(a < b)),
        BinOp::Le => Some(truth(a <= b)),
        BinOp::Gt => Some(truth(a > b)),
        BinOp::Ge => Some(truth(a >= b)),
        BinOp::Eq => Some(truth(a == b)),
        BinOp::Ne => Some(truth(a != b)),
    }
}

/// The value of an expression, where it has one.
#[tactic(auto, unfolding(dc_core::specs::Number::computed, dc_num::specs::Operators::binary_of))]
pub fn value(scope: &Scope, memory: &Store, e: &Expr) -> Option<i128>
    requires { length memory.now ≤ 65535 }
    ensures { result ≡ value_of (scope_view scope.now) memory.now (expr_view e.now) }
{
    match e.form.get() {
        Form::Literal(z) => Some(*z),
        Form::Static(k) => load_int(memory, variable_place(*k as u64)),
        Form::Local(k) => parameter_value(scope, memory, *k as u64),
        Form::Argument(k) => parameter_value(scope, memory, *k as u64),
        Form::ReturnValue => result_value(scope),
        Form::Binary(op, a, b) => {
            let a = value(scope, memory, a)?;
            let b = value(scope, memory, b)?;
            operate(*op, a, b)
        }
        _ => None,
    }
}

// The place of a parameter, which a clause doesn't name.
fn parameter_place(scope: &Scope, k: u64) -> Option<u128>
    ensures { result ≡ place_of_parameter (scope_view scope.now) k }
{
    match scope {
        Scope::Body(places) => place_at(places, k),
        Scope::Clause(_, _) => None,
    }
}

/// The place of an expression, where it has one.
pub fn place(scope: &Scope, e: &Expr) -> Option<u128>
    ensures { result ≡ place_of (scope_view scope.now) (expr_view e.now) }
{
    match e.form.get() {
        Form::Static(k) => Some(variable_place(*k as u64)),
        Form::Local(k) => parameter_place(scope, *k as u64),
        Form::Argument(k) => parameter_place(scope, *k as u64),
        _ => None,
    }
}

/// The place of a target, where it has one.
pub fn target_place(scope: &Scope, target: &Target) -> Option<u128>
    ensures { result ≡ place_of (scope_view scope.now) (target_view target.now) }
{
    match &target.range {
        Range::Lvalue(e) => place(scope, e),
        _ => None,
    }
}
