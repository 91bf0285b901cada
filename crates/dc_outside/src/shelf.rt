// A shelf of files that the words name, and a whole file read from one.
ghost use Rattle.std.specs.Prelude.{◌≡◌, ◌≤◌, ◌<◌, ℕ, List, Option, Some, length, is_err, IfOk, IfSome, IsErrOf};
ghost use Rattle.dc_outside.specs.Counts.{Rose, Counted};
ghost use Rattle.dc_outside.specs.Shelf.{Files, IsLonger, NamesFile, Reads, named_file};

use std::alloc::{AllocError, Global};
use thiserror::Error;

/// A read that failed: the file is missing, or its medium has a fault.
#[derive(Debug, Drop, Error)]
#[error("read fault")]
pub struct ShelfFault;

/// Files that words of the command line name. Words are numbered from 0, and the words 1 and 2 may name files.
pub trait Shelf {
    /// The words, which never change.
    ghost names: { Self → List (List ℕ) };

    /// The files by their names, where the shelf tells them. Neither they nor whether they are told changes.
    ghost files: { Self → Option Files };

    /// How often reads of the file that a word names have failed. It stays at 2^128 - 1.
    ghost faults: { Self → ℕ → ℕ };

    /// Reads bytes from an offset of the file that the word names into the front of `into`, and answers how many.
    ///
    /// Few bytes may come where more are left, and none come only at the file's end or without room.
    /// After a fault `into` may hold anything.
    fn read(&mut self, word: u8, from: u64, into: &mut [u8]) -> Result<usize, ShelfFault>
        requires word { NamesFile word }
        requires there { word < length (names self.old) }

        ensures names { names self.new ≡ names self.old }
        ensures files { files self.new ≡ files self.old }
        ensures room { IfOk result (λ k. k ≤ length into.new) }
        ensures content { IfSome (files self.old) (λ files. Reads (named_file files (names self.old) word) from into.new result) }

        // The word's count rises exactly with a fault.
        ensures cause { Counted (is_err result) (faults self.old word) (faults self.new word) }
        ensures others { (other : ℕ) → (other ≡ word → ⊥) → faults self.new other ≡ faults self.old other };
}

/// Why a file wasn't read whole. The shelf can be read again after each of these.
#[derive(Debug, Drop, Error)]
pub enum ReadAll {
    /// A read failed.
    #[error("read fault")]
    Fault,

    /// The file has more bytes than the limit.
    #[error("too long")]
    TooLong,

    /// There was no memory for the bytes.
    #[error("memory")]
    Memory(AllocError),
}

/// The file that the word names, whole, if it has no more than `limit` bytes.
pub fn read_all<H: Shelf>(
    alloc: Global,
    shelf: &mut H,
    word: u8,
    limit: u64,
) -> Result<Vec<u8>, ReadAll>
    requires word { NamesFile word }
    requires there { word < length (H.names shelf.old) }

    ensures names { H.names shelf.new ≡ H.names shelf.old }
    ensures files { H.files shelf.new ≡ H.files shelf.old }

    ensures whole { IfSome (H.files shelf.old) (λ files. IfOk result (λ bytes.
        named_file files (H.names shelf.old) word ≡ Some bytes.items)) }

    // A file of at most `limit` bytes is never too long, and a longer one is never given.
    ensures short { IfOk result (λ bytes. length bytes.items ≤ limit) }
    ensures too_long { IfSome (H.files shelf.old) (λ files. IsErrOf result ReadAll.TooLong →
        IsLonger limit (named_file files (H.names shelf.old) word)) }

    // A fault comes only where that word's count rose, and nothing else lets a count rise.
    ensures fault { IsErrOf result ReadAll.Fault → Rose (H.faults shelf.old word) (H.faults shelf.new word) }
    ensures kept { (IsErrOf result ReadAll.Fault → ⊥) → H.faults shelf.new word ≡ H.faults shelf.old word }
    ensures others { (other : ℕ) → (other ≡ word → ⊥) → H.faults shelf.new other ≡ H.faults shelf.old other }
{
    let mut bytes = Vec::new(alloc);
    let mut piece = [0u8; 4096];
    loop {
        let from = bytes.len() as u64;
        let Ok(count) = shelf.read(word, from, &mut piece) else {
            return Err(ReadAll::Fault);
        };
        if count == 0 {
            return Ok(bytes);
        }
        if count as u64 > limit - from {
            return Err(ReadAll::TooLong);
        }
        bytes
            .extend_from_slice(&piece[..count])
            .map_err(ReadAll::Memory)?;
    }
}
