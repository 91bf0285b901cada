// What happens in a run, and how often.
ghost use Rattle.std.specs.Prelude.{◌≡◌};
ghost use Rattle.dc_text.specs.Counted.{counted, no_counts};

/// What happens in a run. Objects and functions are told by their numbers.
#[derive(Clone, Copy, Debug, PartialEq, Eq)]
pub enum Event {
    /// The number was taken from the list of choices.
    Draw(u64),

    /// The object was made.
    Create(u64),

    /// The object's life ended.
    Kill(u64),

    /// Bytes of an object were written.
    Write {
        /// The object.
        object: u64,

        /// The offset of the first byte.
        from: u64,

        /// How many bytes.
        len: u64,
    },

    /// The object was freed.
    Free(u64),

    /// A test was made, and it held or failed.
    Check(bool),

    /// The function of this object was called.
    Call(u64),

    /// A function returned.
    Return,
}

/// How many events of each variant there were. A count stays at 2^128 - 1.
#[derive(Clone, Copy, Debug, PartialEq, Eq)]
pub struct Counts {
    /// Numbers taken.
    pub draws: u128,

    /// Objects made.
    pub creates: u128,

    /// Lives ended.
    pub kills: u128,

    /// Writes.
    pub writes: u128,

    /// Objects freed.
    pub frees: u128,

    /// Tests.
    pub checks: u128,

    /// Calls.
    pub calls: u128,

    /// Returns.
    pub returns: u128,
}

impl Counts {
    /// The counts of no events.
    pub fn new() -> Counts
        ensures { result ≡ no_counts }
    {
        Counts {
            draws: 0,
            creates: 0,
            kills: 0,
            writes: 0,
            frees: 0,
            checks: 0,
            calls: 0,
            returns: 0,
        }
    }

    /// Counts an event: its own count rises by one, and the others stay.
    pub fn hear(&mut self, event: &Event)
        ensures { self.new ≡ counted event.now self.old }
    {
        match event {
            Event::Draw(_) => self.draws = self.draws.saturating_add(1),
            Event::Create(_) => self.creates = self.creates.saturating_add(1),
            Event::Kill(_) => self.kills = self.kills.saturating_add(1),
            Event::Write { .. } => self.writes = self.writes.saturating_add(1),
            Event::Free(_) => self.frees = self.frees.saturating_add(1),
            Event::Check(_) => self.checks = self.checks.saturating_add(1),
            Event::Call(_) => self.calls = self.calls.saturating_add(1),
            Event::Return => self.returns = self.returns.saturating_add(1),
        }
    }
}
