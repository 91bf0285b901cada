// The operators on numbers.

/// An operator with two operands of one kind (C11 6.5.5 to 6.5.12). A comparison gives the int 0 or 1.
#[derive(Clone, Copy, Debug, PartialEq, Eq)]
pub enum BinOp {
    Add,
    Sub,
    Mul,
    Div,
    Rem,
    Shl,
    Shr,
    And,
    Or,
    Xor,
    Lt,
    Le,
    Gt,
    Ge,
    Eq,
    Ne,
}

/// An operator with one operand (C11 6.5.3.3): the negative, and the complement of each bit.
#[derive(Clone, Copy, Debug, PartialEq, Eq)]
pub enum UnOp {
    Neg,
    Not,
}
