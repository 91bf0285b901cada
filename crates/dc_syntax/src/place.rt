// The place of a phrase.
ghost use Rattle.std.specs.Prelude.{◌≡◌};

use std::marker::Model;

/// The number of a phrase's last token, and the line of its first.
#[derive(Clone, Copy, Debug)]
pub struct Place {
    last: u64,
    line: u64,
}

impl Model for Place {
    ghost use Rattle.dc_syntax.specs.Tokens as tokens;

    ghost Value = { tokens.Place };

    ghost view = { λ p. record { last = p.last; line = p.line } };

    ghost inverse = { λ p. record { last = p.last; line = p.line } };
}

impl Place {
    /// The place of a phrase whose last token has this number, and whose first stands in this line.
    pub fn new(last: u64, line: u64) -> Place
        ensures { result ≡ record { last = last; line = line } }
    {
        Place { last, line }
    }

    /// The number of the last token.
    pub fn last(&self) -> u64
        ensures { result ≡ self.now.last }
    {
        self.last
    }

    /// The line of the first token.
    pub fn line(&self) -> u64
        ensures { result ≡ self.now.line }
    {
        self.line
    }
}
