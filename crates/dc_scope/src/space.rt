// Name spaces.

/// A name space of a scope (C11 6.2.3).
#[derive(Clone, Copy, Debug, PartialEq, Eq)]
pub enum Space {
    /// Objects, functions, typedefs and enumerators.
    Ordinary,
    /// Tags of structs and enums.
    Tag,
}
