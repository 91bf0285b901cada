// The kinds of tokens.

/// What a token is.
#[derive(Clone, Copy, Debug, PartialEq, Eq)]
pub enum Kind {
    /// A keyword or an identifier.
    Word,

    /// An integer constant.
    Integer,

    /// A character constant.
    Character,

    /// An operator or another mark.
    Punctuator,
}
