// A watch that counts.
ghost use Rattle.std.specs.Prelude.{◌≡◌, [], ◌∷◌};
ghost use Rattle.dc_choice.specs.Heard.{fresh};

use crate::watch::Watch;
use dc_text::{Counts, Event};

/// A watch that counts the events, and keeps none of them.
#[derive(Debug, Drop)]
pub struct CountWatch {
    counts: Counts,
}

impl CountWatch {
    /// A watch that has heard nothing. It takes no memory.
    pub fn new() -> CountWatch
        ensures records { ⟦<CountWatch as Watch>⟧.records result ≡ fresh 0 ∷ [] }
        ensures parts { ⟦<CountWatch as Watch>⟧.parts result ≡ [] }
    {
        CountWatch {
            counts: Counts::new(),
        }
    }
}

impl Watch for CountWatch {
    ghost records = { λ watch. record { counts = watch.counts; room = 0; heard = [] } ∷ [] };

    fn hear(&mut self, event: &Event) {
        self.counts.hear(event);
    }

    fn counts(&self) -> Counts {
        self.counts
    }
}
