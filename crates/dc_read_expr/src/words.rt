// Tests of marks and keywords.
ghost use Rattle.std.specs.Prelude.{◌≡◌};
ghost use Rattle.dc_syntax.specs.Tokens as tokens;
ghost use Rattle.dc_syntax.specs.Tokens.{Reserved};

use dc_syntax::{Keyword, Mark};

/// The level of a binary operator of C, from 1 for `*`; 0 of any other mark.
pub fn infix_level(mark: Mark) -> u64
    ensures { result ≡ tokens.infix_level mark }
{
    match mark {
        Mark::Star => 1,
        Mark::Slash => 1,
        Mark::Percent => 1,
        Mark::Plus => 2,
        Mark::Minus => 2,
        Mark::ShiftLeft => 3,
        Mark::ShiftRight => 3,
        Mark::Less => 4,
        Mark::Greater => 4,
        Mark::LessEqual => 4,
        Mark::GreaterEqual => 4,
        Mark::EqualEqual => 5,
        Mark::NotEqual => 5,
        Mark::Ampersand => 6,
        Mark::Caret => 7,
        Mark::Bar => 8,
        Mark::AndAnd => 9,
        Mark::OrOr => 10,
        _ => 0,
    }
}

/// Does it stand before an operand?
pub fn is_prefix(mark: Mark) -> bool
    ensures { result ≡ tokens.is_prefix mark }
{
    matches!(
        mark,
        Mark::Ampersand | Mark::Star | Mark::Plus | Mark::Minus | Mark::Tilde | Mark::Exclamation
    )
}

/// `++` and `--`
pub fn is_step(mark: Mark) -> bool
    ensures { result ≡ tokens.is_step mark }
{
    matches!(mark, Mark::Increment | Mark::Decrement)
}

/// Is it an assignment operator?
pub fn is_assignment(mark: Mark) -> bool
    ensures { result ≡ tokens.is_assignment mark }
{
    matches!(
        mark,
        Mark::Equals
            | Mark::StarEquals
            | Mark::SlashEquals
            | Mark::PercentEquals
            | Mark::PlusEquals
            | Mark::MinusEquals
            | Mark::ShiftLeftEquals
            | Mark::ShiftRightEquals
            | Mark::AmpersandEquals
            | Mark::CaretEquals
            | Mark::BarEquals
    )
}

/// `__CPROVER_forall` and `__CPROVER_exists`
pub fn is_quantifier(keyword: Keyword) -> bool
    ensures { result ≡ tokens.is_quantifier keyword }
{
    matches!(keyword, Keyword::Forall | Keyword::Exists)
}

/// May it stand behind a `*`?
pub fn is_qualifier(keyword: Keyword) -> bool
    ensures { result ≡ tokens.is_qualifier keyword }
{
    matches!(keyword, Keyword::Const | Keyword::Restrict)
}

/// Is it a type or a part of one?
pub fn is_type_word(keyword: Keyword) -> bool
    ensures { result ≡ tokens.is_type_word keyword }
{
    matches!(
        keyword,
        Keyword::Char
            | Keyword::Int
            | Keyword::Long
            | Keyword::Short
            | Keyword::Signed
            | Keyword::Unsigned
            | Keyword::Void
            | Keyword::Boolean
    )
}

/// Is it a spec by itself?
pub fn is_spec_word(keyword: Keyword) -> bool
    ensures { result ≡ tokens.is_spec_word keyword }
{
    matches!(
        keyword,
        Keyword::Typedef
            | Keyword::Extern
            | Keyword::Static
            | Keyword::Inline
            | Keyword::Const
            | Keyword::Restrict
            | Keyword::Char
            | Keyword::Int
            | Keyword::Long
            | Keyword::Short
            | Keyword::Signed
            | Keyword::Unsigned
            | Keyword::Void
            | Keyword::Boolean
    )
}

/// `struct` and `enum`
pub fn is_tag_word(keyword: Keyword) -> bool
    ensures { result ≡ tokens.is_tag_word keyword }
{
    matches!(keyword, Keyword::Struct | Keyword::Enum)
}

/// `sizeof`
pub fn is_sizeof(keyword: Keyword) -> bool
    ensures { result ≡ tokens.is_word tokens.sizeof_word (Reserved keyword) }
{
    matches!(keyword, Keyword::Sizeof)
}
