// The operators of C that the typed program has beside the binary ones on numbers.

/// What stands behind or before what is counted up or down (C11 6.5.2.4, 6.5.3.1).
#[derive(Clone, Copy, Debug, PartialEq, Eq)]
pub enum StepOp {
    Increment,
    Decrement,
}

/// An operator with one operand that is a number (C11 6.5.3.3), or with `!` a pointer too.
#[derive(Clone, Copy, Debug, PartialEq, Eq)]
pub enum UnaryOp {
    Plus,
    Negate,
    Complement,
    Not,
}

/// An operator that needs its second operand only for some values of the first (C11 6.5.13, 6.5.14): `&&`, `||`, `==>`.
#[derive(Clone, Copy, Debug, PartialEq, Eq)]
pub enum LogicalOp {
    And,
    Or,
    Implies,
}

/// What holds for all numbers of a range, or for one.
#[derive(Clone, Copy, Debug, PartialEq, Eq)]
pub enum Quantifier {
    Forall,
    Exists,
}

/// What memory is asked for: `__CPROVER_r_ok`, `__CPROVER_w_ok`, `__CPROVER_rw_ok`.
#[derive(Clone, Copy, Debug, PartialEq, Eq)]
pub enum Access {
    Read,
    Write,
    ReadWrite,
}
