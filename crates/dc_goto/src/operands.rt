// What instructions say of bytes.

/// The first bytes of an object.
#[derive(Clone, Copy, Debug, PartialEq, Eq)]
pub enum Bytes {
    /// Each is 0.
    Zero,
    /// Each is drawn.
    Chosen,
}

/// Whether two ranges may share bytes.
#[derive(Clone, Copy, Debug, PartialEq, Eq)]
pub enum Sharing {
    /// They may.
    Any,
    /// They have no byte in common.
    Apart,
}
