// A shelf in memory, which fails at the calls of a list.
ghost use Rattle.std.specs.Prelude.{◌≡◌, ◌≤◌, ◌<◌, ◌==◌, ℕ, Some, length, map, if◌then◌else◌};
ghost use Rattle.std.specs.Option.{option_copied};
ghost use Rattle.dc_outside.specs.Shelf.{ReadsAt, file_of, named_file};

use crate::{Shelf, ShelfFault};

/// Files in memory.
#[derive(Drop)]
pub struct MemoryShelf {
    names: Vec<Vec<u8>>,
    files: Vec<(Vec<u8>, Vec<u8>)>,
    fail: Vec<u64>,
    calls: u64,
    first: u128,
    second: u128,
}

impl MemoryShelf {
    /// A shelf of these files, each a name and its bytes, for these words. Of several files of one name the first
    /// counts. The reads whose numbers, from 1, are in `fail` have a fault, and so does each read of a missing file.
    pub fn new(names: Vec<Vec<u8>>, files: Vec<(Vec<u8>, Vec<u8>)>, fail: Vec<u64>) -> MemoryShelf
        ensures names { ⟦<MemoryShelf as Shelf>⟧.names result ≡ map (λ name. name.items) names.items }
        ensures files { ⟦<MemoryShelf as Shelf>⟧.files result ≡ Some (map (λ file. (file.0.items, file.1.items)) files.items) }
        ensures faults { (word : ℕ) → ⟦<MemoryShelf as Shelf>⟧.faults result word ≡ 0 }
    {
        MemoryShelf {
            names,
            files,
            fail,
            calls: 0,
            first: 0,
            second: 0,
        }
    }
}

impl Shelf for MemoryShelf {
    ghost names = { λ s. map (λ name. name.items) s.names.items };

    ghost files = { λ s. Some (map (λ file. (file.0.items, file.1.items)) s.files.items) };

    ghost faults = { λ s word. if word == 1 then s.first else if word == 2 then s.second else 0 };

    fn read(&mut self, word: u8, from: u64, into: &mut [u8]) -> Result<usize, ShelfFault> {
        self.calls = self.calls.saturating_add(1);
        if !self.fail.contains(&self.calls) {
            if let Some(file) = named(&self.files, &self.names, word as usize) {
                return Ok(copy_from(file, from, into));
            }
        }
        if word == 1 {
            self.first = self.first.saturating_add(1);
        } else {
            self.second = self.second.saturating_add(1);
        }
        Err(ShelfFault)
    }
}

// The file that the word names.
fn named<'a>(files: &'a [(Vec<u8>, Vec<u8>)], names: &[Vec<u8>], word: usize) -> Option<&'a [u8]>
    requires { word < length names.now }
    ensures { option_copied result ≡ named_file (map (λ file. (file.0.items, file.1.items)) files.now) (map (λ name. name.items) names.now) word }
{
    first_file(files, &names[word])
}

// The first file of this name.
fn first_file<'a>(files: &'a [(Vec<u8>, Vec<u8>)], name: &[u8]) -> Option<&'a [u8]>
    ensures { option_copied result ≡ file_of (map (λ file. (file.0.items, file.1.items)) files.now) name.now }
{
    for (own, file) in files {
        if own.as_slice() == name {
            return Some(file.as_slice());
        }
    }
    None
}

// Copies what stands from an offset on, as far as there is room, and answers how many bytes.
fn copy_from(file: &[u8], from: u64, into: &mut [u8]) -> usize
    ensures bytes { ReadsAt file.now from into.new result }
    ensures room { result ≤ length into.new }
{
    if from >= file.len() as u64 {
        return 0;
    }
    let rest = &file[from as usize..];
    let count = rest.len().min(into.len());
    into[..count].copy_from_slice(&rest[..count]);
    count
}
