// Operators of expressions of the instruction text.

/// An operator that asks its second operand only where the first doesn't decide.
#[derive(Clone, Copy, Debug, PartialEq, Eq)]
pub enum LazyOp {
    /// Both are true: `and2`.
    Both,
    /// One is true: `or2`.
    Either,
}

/// What is asked of a pointer.
#[derive(Clone, Copy, Debug, PartialEq, Eq)]
pub enum Property {
    /// The start of its live object.
    Start,
    /// The size of its live object.
    Size,
    /// Its offset in its live object.
    Offset,
    /// Whether it may be freed: null, or the start of a live heap object.
    Freeable,
    /// Whether its object has been freed since the innermost write set was made.
    Freed,
}

/// What is tested of so many bytes behind a pointer.
#[derive(Clone, Copy, Debug, PartialEq, Eq)]
pub enum RangeTest {
    /// They are in a live object that isn't a function: `ok`.
    Accessible,
    /// They are in a live heap or stack object that no such test has seen: `fresh`.
    Fresh,
    /// They are that, in an object that is new: `new`.
    New,
}

/// Whether all values satisfy, or one does.
#[derive(Clone, Copy, Debug, PartialEq, Eq)]
pub enum Quantifier {
    ForAll,
    Exists,
}
