// Expressions of the instruction text.
use crate::operators::{LazyOp, Property, Quantifier, RangeTest};
use crate::{BinOp, NumKind, UnOp};
use sqlite_items::Boxed;

/// An expression of the instruction text. Where a kind is named, values are converted to it first, but not the count of a shift
/// and not the body of a quantifier.
#[derive(Drop)]
pub enum Term {
    /// A constant of a kind.
    Constant(NumKind, i128),
    /// What a register holds.
    Register(u64),
    /// The variable of the quantifier that has so many others around it.
    Variable(u64),
    /// The start of an object.
    Object(u64),
    /// The value of a kind at an address.
    Load(NumKind, Boxed<Term>),
    /// A value converted to the first kind from the second.
    Convert(NumKind, NumKind, Boxed<Term>),
    /// Minus, or the complement.
    Unary(UnOp, NumKind, Boxed<Term>),
    /// Arithmetic, or a comparison.
    Binary(BinOp, NumKind, Boxed<Term>, Boxed<Term>),
    /// An operator that asks its second operand only where the first doesn't decide.
    Lazy(LazyOp, Boxed<Term>, Boxed<Term>),
    /// The second where the first is true, else the third.
    Choice(Boxed<Term>, Boxed<Term>, Boxed<Term>),
    /// A pointer moved by so many elements of a size.
    Moved(u64, Boxed<Term>, Boxed<Term>),
    /// The distance of two pointers in elements of a size.
    Distance(u64, Boxed<Term>, Boxed<Term>),
    /// What a pointer or its object is like.
    Asked(Property, Boxed<Term>),
    /// What so many bytes behind a pointer are like.
    Tested(RangeTest, Boxed<Term>, Boxed<Term>),
    /// Whether three pointers are in one object in this order.
    Between(Boxed<Term>, Boxed<Term>, Boxed<Term>),
    /// Whether all values of a kind from one on below another satisfy a test, or one does; its nesting says how many other
    /// quantifiers are around it.
    Quantified(Quantifier, u64, NumKind, Boxed<Term>, Boxed<Term>, Boxed<Term>),
}
