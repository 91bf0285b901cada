// Where parameters and results stand.

/// Where the parameters and the result stand: in a function's own body, as objects, or in its clauses, as registers.
#[derive(Clone, Copy)]
pub enum Places {
    /// The parameters' objects are named by the registers from this one on.
    Body(u64),
    /// The arguments are the registers from 0 on, and the result is this register.
    Clauses(u64),
}
