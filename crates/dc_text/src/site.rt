// Places in a source.

/// The place of a token in a source, counted from 1.
#[derive(Clone, Copy, Debug, PartialEq, Eq)]
pub struct Site(pub u64);
