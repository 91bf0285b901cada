// The operators that marks are.
ghost use Rattle.std.specs.Prelude.{◌≡◌};
ghost use Rattle.dc_typing.specs.Operators as spec;

use dc_num::BinOp;
use dc_program::{LogicalOp, StepOp, UnaryOp};
use dc_syntax::Mark;

/// What stands before one operand (C11 6.5.3).
#[derive(Clone, Copy, Debug, PartialEq, Eq)]
pub enum Prefix {
    /// `&`
    Address,
    /// `*`
    Target,
    /// `+`, `-`, `~` or `!`
    Operator(UnaryOp),
}

/// What stands between two operands (C11 6.5.5 to 6.5.14).
#[derive(Clone, Copy, Debug, PartialEq, Eq)]
pub enum Infix {
    /// An operator that needs both.
    Both(BinOp),
    /// An operator whose first operand may decide.
    First(LogicalOp),
}

/// `++` or `--`
pub fn step_op(mark: Mark) -> StepOp
    ensures { result ≡ spec.step_op mark }
{
    match mark {
        Mark::Increment => StepOp::Increment,
        _ => StepOp::Decrement,
    }
}

/// The operator of an assignment; a plain `=` has none.
pub fn assigning_op(mark: Mark) -> Option<BinOp>
    ensures { result ≡ spec.assigning_op mark }
{
    match mark {
        Mark::Equals => None,
        Mark::StarEquals => Some(BinOp::Mul),
        Mark::SlashEquals => Some(BinOp::Div),
        Mark::PercentEquals => Some(BinOp::Rem),
        Mark::PlusEquals => Some(BinOp::Add),
        Mark::MinusEquals => Some(BinOp::Sub),
        Mark::ShiftLeftEquals => Some(BinOp::Shl),
        Mark::ShiftRightEquals => Some(BinOp::Shr),
        Mark::AmpersandEquals => Some(BinOp::And),
        Mark::CaretEquals => Some(BinOp::Xor),
        _ => Some(BinOp::Or),
    }
}

/// The operator before an operand.
pub fn prefix_op(mark: Mark) -> Prefix
    ensures { result ≡ spec.prefix_op mark }
{
    match mark {
        Mark::Ampersand => Prefix::Address,
        Mark::Star => Prefix::Target,
        Mark::Plus => Prefix::Operator(UnaryOp::Plus),
        Mark::Minus => Prefix::Operator(UnaryOp::Negate),
        Mark::Tilde => Prefix::Operator(UnaryOp::Complement),
        _ => Prefix::Operator(UnaryOp::Not),
    }
}

/// The operator between two operands.
pub fn infix_op(mark: Mark) -> Infix
    ensures { result ≡ spec.infix_op mark }
{
    match mark {
        Mark::Star => Infix::Both(BinOp::Mul),
        Mark::Slash => Infix::Both(BinOp::Div),
        Mark::Percent => Infix::Both(BinOp::Rem),
        Mark::Plus => Infix::Both(BinOp::Add),
        Mark::Minus => Infix::Both(BinOp::Sub),
        Mark::ShiftLeft => Infix::Both(BinOp::Shl),
        Mark::ShiftRight => Infix::Both(BinOp::Shr),
        Mark::Less => Infix::Both(BinOp::Lt),
        Mark::Greater => Infix::Both(BinOp::Gt),
        Mark::LessEqual => Infix::Both(BinOp::Le),
        Mark::GreaterEqual => Infix::Both(BinOp::Ge),
        Mark::EqualEqual => Infix::Both(BinOp::Eq),
        Mark::NotEqual => Infix::Both(BinOp::Ne),
        Mark::Ampersand => Infix::Both(BinOp::And),
        Mark::Caret => Infix::Both(BinOp::Xor),
        Mark::Bar => Infix::Both(BinOp::Or),
        Mark::AndAnd => Infix::First(LogicalOp::And),
        _ => Infix::First(LogicalOp::Or),
    }
}
