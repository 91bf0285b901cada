// Where sites, loops, clauses and targets stand.

/// A site or a loop of a function: its number among those of the function, from 1 in the order of their first tokens, and
/// the line of its first token.
#[derive(Clone, Copy, Debug, PartialEq, Eq)]
pub struct Location {
    pub number: u64,
    pub line: u64,
}
