// The words that are no names.

/// A keyword of C in the profile, or a word of the contracts' grammar.
#[derive(Clone, Copy, Debug, PartialEq, Eq)]
pub enum Keyword {
    /// `break`
    Break,
    /// `case`
    Case,
    /// `char`
    Char,
    /// `const`
    Const,
    /// `continue`
    Continue,
    /// `default`
    Default,
    /// `do`
    Do,
    /// `else`
    Else,
    /// `enum`
    Enum,
    /// `extern`
    Extern,
    /// `for`
    For,
    /// `if`
    If,
    /// `inline`
    Inline,
    /// `int`
    Int,
    /// `long`
    Long,
    /// `restrict`
    Restrict,
    /// `return`
    Return,
    /// `short`
    Short,
    /// `signed`
    Signed,
    /// `sizeof`
    Sizeof,
    /// `static`
    Static,
    /// `struct`
    Struct,
    /// `switch`
    Switch,
    /// `typedef`
    Typedef,
    /// `unsigned`
    Unsigned,
    /// `void`
    Void,
    /// `while`
    While,
    /// `_Bool`
    Boolean,
    /// `__CPROVER_forall`
    Forall,
    /// `__CPROVER_exists`
    Exists,
    /// `__CPROVER_requires`
    Requires,
    /// `__CPROVER_ensures`
    Ensures,
    /// `__CPROVER_assigns`
    Assigns,
    /// `__CPROVER_frees`
    Frees,
    /// `__CPROVER_loop_invariant`
    LoopInvariant,
    /// `__CPROVER_decreases`
    Decreases,
    /// What stands in no alternative: a keyword of C that the profile leaves out
    LeftOut,
}
