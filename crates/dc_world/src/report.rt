// What a run came to.
use dc_text::{Choices, Counts, Name, Names};

/// How a run ended.
#[derive(Debug, Drop)]
pub enum End {
    /// It returned, with a result if there is one.
    Returned(Option<i128>),

    /// What a call requires didn't hold.
    Blocked,

    /// The function came to something that has no meaning.
    Undefined(Name),

    /// The function was called, and has no body.
    NoBody(Name),

    /// There were as many as there may be.
    Limit(Which),

    /// A number was to be drawn, and there was none.
    ChoicesEnded,

    /// There were no more steps.
    Cut,
}

/// Of what there may only be so many.
#[derive(Clone, Copy, Debug, PartialEq, Eq)]
pub enum Which {
    /// Objects.
    Objects,

    /// Calls that have not returned.
    Depth,
}

/// What a run came to.
#[derive(Debug, Drop)]
pub struct RunReport {
    /// The names that failed, in order.
    pub failed: Names,

    /// How it ended.
    pub end: End,

    /// The numbers that it took.
    pub used: Choices,

    /// How often each event happened.
    pub counts: Counts,
}
