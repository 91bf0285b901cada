// What hears the events of runs.
ghost use Rattle.std.specs.Prelude.{◌≡◌, List, map, [], ℕ};
ghost use Rattle.dc_choice.specs.Heard.{Record, hears, first_counts};

use dc_text::{Counts, Event};

/// Something that hears the events of a run.
pub trait Watch: Drop {
    /// What it holds, one record for each watch in it. Neither their number nor their room changes.
    ghost records: { Self → List Record };

    /// How many records each of its parts has, in order. A watch of one part tells none. It never changes.
    ghost parts: { Self → List ℕ } = { λ _. [] };

    /// Hears an event. It takes no memory.
    fn hear(&mut self, event: &Event)
        ensures records { records self.new ≡ map (hears event.now) (records self.old) }
        ensures parts { parts self.new ≡ parts self.old };

    /// The counts of the first record, or zeros where there is none. It takes no memory.
    fn counts(&self) -> Counts
        ensures { result ≡ first_counts (records self.now) };
}
