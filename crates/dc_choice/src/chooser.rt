// Where runs take their numbers from.
ghost use Rattle.std.specs.Prelude.{List, ℕ, Option};
ghost use Rattle.dc_choice.specs.Chosen.{Takes, Counted};

/// Where a run takes its numbers from.
pub trait Chooser: Drop {
    /// The numbers to come, where the chooser tells them. Whether it tells them never changes.
    ghost left: { Self → Option (List ℕ) };

    /// How many numbers it gave. It stays at 2^128 - 1.
    ghost given: { Self → ℕ };

    /// How often it gave none. It stays at 2^128 - 1.
    ghost dry: { Self → ℕ };

    /// Gives the next number. It takes no memory.
    ///
    /// Where the numbers to come are told it is the first of them, and none comes exactly at their end.
    fn next(&mut self) -> Option<u64>
        ensures takes { Takes (left self.old) (left self.new) result }

        // A number raises `given` alone, and none raises `dry` alone.
        ensures cause { Counted (given self.old) (given self.new) (dry self.old) (dry self.new) result };
}
