// What C's operators make of numbers of two kinds (C11 6.3.1, 6.5). The number of a pointer, which no type of C has, is
// computed with as an unsigned number of its width.
ghost use Rattle.std.specs.Prelude.{◌≡◌, false};
ghost use Rattle.dc_num.specs.Conversions.{promoted as promoted_of, common_of, converted, truth as truth_of};
ghost use Rattle.dc_num.specs.Kinds.{is_pointer};
ghost use Rattle.dc_num.specs.Operators.{binary_of, IsRight};
ghost use Rattle.dc_program.specs.Numbers.{shifted as shifted_of, computed as computed_of, changed as changed_of};
ghost use Rattle.dc_rules.specs.Plain.{plain as plain_of};

use dc_num::{BinOp, NumKind, UnOp, binary, common, convert, promote, unary};
use dc_program::UnaryOp;

/// The kind after integer promotion (C11 6.3.1.1).
pub fn promoted(kind: NumKind) -> NumKind
    ensures { result ≡ promoted_of kind }
{
    if kind.is_pointer() {
        kind
    } else {
        promote(kind)
    }
}

/// The common kind of two operands (C11 6.3.1.8).
pub fn common_kind(a: NumKind, b: NumKind) -> NumKind
    ensures { result ≡ common_of a b }
{
    match (a, b) {
        (NumKind::Ptr, _) | (NumKind::U64, NumKind::Ptr) => a,
        (_, NumKind::Ptr) => b,
        _ => common(a, b),
    }
}

/// The int that a test gives.
pub fn truth(holds: bool) -> i128
    ensures { result ≡ truth_of holds }
{
    if holds { 1 } else { 0 }
}

// The kind of numbers that has the same values.
fn plain(kind: NumKind) -> NumKind
    ensures value { result ≡ plain_of kind }
    ensures number { is_pointer result ≡ false }
{
    match kind {
        NumKind::Ptr => NumKind::U64,
        kind => kind,
    }
}

// Of two numbers that are converted to a kind; none exactly where C leaves the value undefined.
fn computed_as(op: BinOp, kind: NumKind, v: i128, w: i128) -> Option<i128>
    ensures { result ≡ binary_of op kind (converted kind v) (converted kind w) }
{
    let kind = plain(kind);
    binary(op, kind, convert(kind, v), convert(kind, w))
}

// Of the promoted first operand of a shift (C11 6.5.7); none exactly where C leaves the value undefined.
fn shifted(op: BinOp, kind: NumKind, v: i128, w: i128) -> Option<i128>
    requires { IsRight op (plain_of (promoted_of kind)) w }
    ensures { result ≡ shifted_of op kind v w }
{
    let kind = plain(promoted(kind));
    binary(op, kind, convert(kind, v), w)
}

/// Of a number of the first kind and one of the second, each converted as C says; none exactly where C leaves the value
/// undefined.
pub fn computed(op: BinOp, k: NumKind, l: NumKind, v: i128, w: i128) -> Option<i128>
    ensures { result ≡ computed_of op k l v w }
{
    match op {
        BinOp::Shl | BinOp::Shr => shifted(op, k, v, w),
        _ => computed_as(op, common_kind(k, l), v, w),
    }
}

/// Of one number of a kind (C11 6.5.3.3); none exactly where C leaves the value undefined.
pub fn changed(op: UnaryOp, kind: NumKind, v: i128) -> Option<i128>
    ensures { result ≡ changed_of op kind v }
{
    let wide = plain(promoted(kind));
    match op {
        UnaryOp::Plus => Some(convert(wide, v)),
        UnaryOp::Negate => unary(UnOp::Neg, wide, convert(wide, v)),
        UnaryOp::Complement => unary(UnOp::Not, wide, convert(wide, v)),
        UnaryOp::Not => Some(truth(v == 0)),
    }
}
