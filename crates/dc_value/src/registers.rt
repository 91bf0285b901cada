// Registers.
ghost use Rattle.std.specs.Prelude.{◌≡◌, ◌++◌, ◌-◌, length, replicate, slice_get, slice_set, Some, pos, OnOk};
ghost use Rattle.dc_goto.specs.Values.{joined};

use sqlite_items::at;
use std::alloc::AllocError;
use std::marker::Model;

/// The registers of a function, each with a number or without one. Contracts see the list of them. A register that was
/// never written holds 0; memory is taken up to the highest one that was written, whatever their count.
#[derive(Drop)]
pub struct Registers {
    // Up to the highest one that was written.
    written: Vec<Option<i128>>,
    count: u64,
}

impl Model for Registers {
    ghost use Rattle.std.specs.Prelude.{◌++◌, ◌-◌, length, replicate, Some, pos};
    ghost use Rattle.dc_goto.specs.Values as plain;

    ghost Value = { plain.Registers };

    ghost view = { λ s. s.written.items ++ replicate (s.count - length s.written.items) (Some (pos 0)) };
}

impl Registers {
    /// The first registers as given, and behind them as many that hold 0 as make up the count. It takes no memory.
    pub fn new(first: Vec<Option<i128>>, count: u64) -> Registers
        ensures { result ≡ first.items ++ replicate (count - length first.items) (Some (pos 0)) }
    {
        Registers {
            written: first,
            count,
        }
    }

    /// What a register holds; nothing where there is no such register.
    pub fn held(&self, number: u64) -> Option<i128>
        ensures { result ≡ joined (slice_get self.now number) }
    {
        match at(self.written.as_slice(), number as usize) {
            Some(held) => *held,
            None => { if number < self.count { Some(0) } else { None } }
        }
    }

    /// The register takes what is held; where there is no such register, nothing happens. It takes memory where the
    /// register is beyond all that were written. More than 16,777,216 registers at once count as want of memory, and
    /// memory isn't asked for them.
    pub fn put(&mut self, number: u64, held: Option<i128>) -> Result<(), AllocError>
        ensures { OnOk result (self.new ≡ slice_set self.old number held) }
    {
        let written = self.written.len() as u64;
        if number < written {
            self.written[number as usize] = held;
            return Ok(());
        }
        if number >= self.count {
            return Ok(());
        }
        if number - written >= 16777216 {
            return Err(AllocError);
        }
        self.written.resize(number as usize, Some(0))?;
        self.written.push(held)?;
        Ok(())
    }
}
