// A sink in memory, which fails at the calls of a list.
ghost use Rattle.std.specs.Prelude.{◌≡◌, [], Some};

use crate::{Sink, SinkFault};
use std::alloc::Global;

/// Bytes in memory.
#[derive(Drop)]
pub struct MemorySink {
    bytes: Vec<u8>,
    fail: Vec<u64>,
    calls: u64,
    faults: u128,
}

impl MemorySink {
    /// A sink without bytes. The writes whose numbers, from 1, are in `fail` have a fault, and so does each write that
    /// finds no room for its piece.
    pub fn new(alloc: Global, fail: Vec<u64>) -> MemorySink
        ensures written { ⟦<MemorySink as Sink>⟧.written result ≡ Some [] }
        ensures faults { ⟦<MemorySink as Sink>⟧.faults result ≡ 0 }
    {
        MemorySink {
            bytes: Vec::new(alloc),
            fail,
            calls: 0,
            faults: 0,
        }
    }

    /// All that was written.
    pub fn written(&self) -> &[u8]
        ensures { ⟦<MemorySink as Sink>⟧.written self.now ≡ Some result.now }
    {
        &self.bytes
    }
}

impl Sink for MemorySink {
    ghost written = { λ s. Some s.bytes.items };

    ghost faults = { λ s. s.faults };

    fn write(&mut self, piece: &[u8]) -> Result<usize, SinkFault> {
        self.calls = self.calls.saturating_add(1);
        if !self.fail.contains(&self.calls) && self.bytes.extend_from_slice(piece).is_ok() {
            return Ok(piece.len());
        }
        self.faults = self.faults.saturating_add(1);
        Err(SinkFault)
    }
}
