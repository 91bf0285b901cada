// Why a type has no layout.
use thiserror::Error;

/// Why a type has no size, alignment or offset that can be told. A part without a size is answered before a size that is
/// too large.
#[derive(Clone, Copy, Debug, PartialEq, Eq, Error)]
pub enum Layout {
    /// The type, or for an offset the whole struct, has above 16,777,216 bytes.
    #[error("type too large")]
    TooLarge,

    /// A part has no size: it is void, a function, or a struct that has no members yet.
    #[error("type incomplete")]
    Incomplete,
}
