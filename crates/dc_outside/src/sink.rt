// A sink of bytes, and a whole piece written to one.
ghost use Rattle.std.specs.Prelude.{◌≡◌, ◌≤◌, ℕ, List, Option, length, IfOk, OnOk, OnErr};
ghost use Rattle.dc_outside.specs.Counts.{Rose, Counted};
ghost use Rattle.dc_outside.specs.Sink.{Adds, AddsPrefix, taken, is_refused};

use thiserror::Error;

/// A write that failed, and added nothing.
#[derive(Debug, Drop, Error)]
#[error("write fault")]
pub struct SinkFault;

/// Something that takes bytes.
pub trait Sink {
    /// The bytes that it has been given, where it tells them. Whether it tells them never changes.
    ghost written: { Self → Option (List ℕ) };

    /// How often it has failed. It stays at 2^128 - 1.
    ghost faults: { Self → ℕ };

    /// Takes a front of the piece, and answers how many bytes.
    ///
    /// A fault takes nothing. Taking none of a piece that isn't empty counts as a fault too.
    fn write(&mut self, piece: &[u8]) -> Result<usize, SinkFault>
        ensures room { IfOk result (λ k. k ≤ length piece.now) }
        ensures adds { Adds (written self.old) (written self.new) (taken result piece.now) }
        ensures cause { Counted (is_refused result piece.now) (faults self.old) (faults self.new) };
}

/// Writes all of the bytes. After a fault the sink has been given a prefix of them.
pub fn write_all<S: Sink>(sink: &mut S, bytes: &[u8]) -> Result<(), SinkFault>
    ensures ok { OnOk result (Adds (S.written sink.old) (S.written sink.new) bytes.now) }
    ensures kept { OnOk result (S.faults sink.new ≡ S.faults sink.old) }

    // A fault comes only from the sink.
    ensures prefix { OnErr result (AddsPrefix (S.written sink.old) (S.written sink.new) bytes.now) }
    ensures fault { OnErr result (Rose (S.faults sink.old) (S.faults sink.new)) }
    ensures later { S.faults sink.old ≤ S.faults sink.new }
{
    let mut rest = bytes;
    while !rest.is_empty() {
        let count = sink.write(rest)?;
        if count == 0 {
            return Err(SinkFault);
        }
        rest = &rest[count..];
    }
    Ok(())
}
