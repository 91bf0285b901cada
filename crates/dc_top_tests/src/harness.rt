// One run of the top call on files and sinks in memory.
ghost use Rattle.std.specs.Prelude.{◌≡◌, IfOk, length, map};

use dc_core::Name;
use dc_outside::{MemoryShelf, MemorySink};
use dc_top::dfcc_main;
use std::alloc::{AllocError, Global};
use std::process::Abort;

pub const INSTRUMENT: &[&str] = &["instrument", "a.c", "--enforce", "f"];

pub const ENFORCE_SET: &[&str] = &["instrument", "a.c", "--enforce", "set"];

/// A function with a contract.
pub const SET: &str = "int g;
void set(int v)
__CPROVER_requires(v < 100)
__CPROVER_assigns(g)
__CPROVER_ensures(g == v + 1)
{ g = v + 1; }
";

pub const EMPTY_FUNCTION: &str = "void f(void) {}";

/// The words twice, as a shelf and as the top call take them.
#[derive(Drop)]
pub struct Words {
    pub plain: Vec<Vec<u8>>,
    pub names: Vec<Name>,
}

/// The words, twice.
pub fn words_of(alloc: Global, words: &[&'static str]) -> Result<Words, AllocError>
    ensures same { IfOk result (λ w. map (λ word. word.items) w.plain.items ≡ w.names.items) }
    ensures count { IfOk result (λ w. length w.names.items ≡ length words.now) }
{
    let mut plain = Vec::new(alloc);
    let mut names = Vec::new(alloc);
    for word in words {
        let name = Name::copied(alloc, word.as_bytes())?;
        plain.push(Vec::from_slice(alloc, name.as_slice())?)?;
        names.push(name)?;
    }
    Ok(Words { plain, names })
}

/// The calls of the outside that fail, by their numbers from 1; 0 for none.
#[derive(Drop)]
pub struct Faults {
    pub shelf: u64,
    pub out: u64,
    pub err: u64,
}

pub const NO_FAULT: Faults = Faults {
    shelf: 0,
    out: 0,
    err: 0,
};

/// The status, and what the two sinks hold.
#[derive(Drop)]
pub struct Outcome {
    pub status: u8,
    pub out: Vec<u8>,
    pub err: Vec<u8>,
}

/// A run for these words, where the file a.c has these bytes.
pub fn run(
    alloc: Global,
    words: &[&'static str],
    source: &[u8],
    faults: &Faults,
) -> Result<Outcome, AllocError> {
    run_both(alloc, words, source, b"", faults)
}

/// A run for these words, where the files a.c and choices.json have these bytes.
pub fn run_both(
    alloc: Global,
    words: &[&'static str],
    first: &[u8],
    choices: &[u8],
    faults: &Faults,
) -> Result<Outcome, AllocError> {
    let Words { plain, names } = words_of(alloc, words)?;
    let mut files = Vec::new(alloc);
    files.push((
        Vec::from_slice(alloc, b"a.c")?,
        Vec::from_slice(alloc, first)?,
    ))?;
    files.push((
        Vec::from_slice(alloc, b"choices.json")?,
        Vec::from_slice(alloc, choices)?,
    ))?;
    let mut shelf = MemoryShelf::new(plain, files, Vec::from_slice(alloc, &[faults.shelf])?);
    let mut out = MemorySink::new(alloc, Vec::from_slice(alloc, &[faults.out])?);
    let mut err = MemorySink::new(alloc, Vec::from_slice(alloc, &[faults.err])?);
    let status = dfcc_main(alloc, &names, &mut shelf, &mut out, &mut err);
    Ok(Outcome {
        status,
        out: Vec::from_slice(alloc, out.written())?,
        err: Vec::from_slice(alloc, err.written())?,
    })
}

/// What is wanted of a run.
pub struct Wanted {
    pub status: u8,
    pub out: &'static str,
    pub err: &'static str,
}

/// The run gave what is wanted.
pub fn assert_gives(rt: &impl Abort, outcome: &Outcome, wanted: &Wanted, name: &str) {
    assert_eq!(rt; outcome.status, wanted.status, "{name}");
    assert_eq!(rt; outcome.out.as_slice(), wanted.out.as_bytes(), "{name}");
    assert_eq!(rt; outcome.err.as_slice(), wanted.err.as_bytes(), "{name}");
}
