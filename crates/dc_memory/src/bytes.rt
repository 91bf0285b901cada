// The bytes of an object.
ghost use Rattle.std.specs.Prelude.{◌≡◌, ◌+◌, ◌≤◌, [], length, replicate, take, drop, IfOk};
ghost use Rattle.dc_memory.specs.Places.{put_at};

use std::alloc::{AllocError, Global};
use std::marker::Model;

// The bytes of an object, which contracts see as a list of numbers.
#[derive(Drop)]
pub(crate) struct Bytes {
    bytes: Vec<u8>,
}

impl Model for Bytes {
    ghost use Rattle.std.specs.Prelude.{List, ℕ};

    ghost Value = { List ℕ };

    ghost view = { λ b. b.bytes.items };
}

impl Bytes {
    // No bytes. It takes no memory.
    pub(crate) fn empty(alloc: Global) -> Bytes
        ensures { result ≡ [] }
    {
        Bytes {
            bytes: Vec::new(alloc),
        }
    }

    // That many bytes, all of them zero.
    pub(crate) fn zeros(alloc: Global, count: usize) -> Result<Bytes, AllocError>
        ensures { IfOk result (λ bytes. bytes ≡ replicate count 0) }
    {
        let bytes = vec![in alloc; 0; count]?;
        Ok(Bytes { bytes })
    }

    // The bytes of a vector.
    pub(crate) fn of(bytes: Vec<u8>) -> Bytes
        ensures { result ≡ bytes.items }
    {
        Bytes { bytes }
    }

    // The bytes.
    pub(crate) fn as_slice(&self) -> &[u8]
        ensures { result.now ≡ self.now }
    {
        self.bytes.as_slice()
    }

    // How many bytes there are.
    pub(crate) fn len(&self) -> usize
        ensures { result ≡ length self.now }
    {
        self.bytes.len()
    }

    // Puts bytes in the place of others from an index on.
    pub(crate) fn put(&mut self, from: usize, values: &[u8])
        requires { from + length values.now ≤ length self.old }
        ensures { self.new ≡ put_at from values.now self.old }
    {
        self.bytes[from..from + values.len()].copy_from_slice(values);
    }

    // Puts a byte in the place of so many from an index on.
    pub(crate) fn fill(&mut self, from: usize, len: usize, byte: u8)
        requires { from + len ≤ length self.old }
        ensures { self.new ≡ put_at from (replicate len byte) self.old }
    {
        self.bytes[from..from + len].fill(byte);
    }

    // Puts so many bytes from one index on in the place of those from another on, as they were before.
    pub(crate) fn copy_within(&mut self, to: usize, from: usize, len: usize)
        requires source { from + len ≤ length self.old }
        requires target { to + len ≤ length self.old }
        ensures { self.new ≡ put_at to (take len (drop from self.old)) self.old }
    {
        self.bytes.copy_within(from..from + len, to);
    }
}
