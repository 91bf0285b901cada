// What is answered to a text.
use dc_outside::MemorySink;
use dc_print::{Print, print};
use dc_scan::{Scan, scan};
use std::alloc::{AllocError, Global};

/// An answer to a text.
#[derive(Clone, Copy, Debug, PartialEq, Eq)]
pub enum Answer {
    Scanned,
    Line(u64),
    Shape(u64),
}

/// The answer to a text.
pub fn answer_to(alloc: Global, text: &[u8]) -> Result<Answer, AllocError> {
    match scan(alloc, text) {
        Ok(_) => Ok(Answer::Scanned),
        Err(Scan::Line(line)) => Ok(Answer::Line(line)),
        Err(Scan::Shape(line)) => Ok(Answer::Shape(line)),
        Err(Scan::Memory(error)) => Err(error),
    }
}

/// The text that is printed of a text's program, or nothing where the text is refused.
pub fn printed_again(alloc: Global, text: &[u8]) -> Result<Vec<u8>, AllocError> {
    let mut sink = MemorySink::new(alloc, Vec::new(alloc));
    match scan(alloc, text) {
        Ok(program) => match print(alloc, &program, &mut sink) {
            Ok(()) => {}
            Err(Print::Fault) => return Err(AllocError),
            Err(Print::Memory(error)) => return Err(error),
        },
        Err(Scan::Memory(error)) => return Err(error),
        Err(_) => {}
    }
    Vec::from_slice(alloc, sink.written())
}

/// Whether printing a text again has a fault where that write fails.
pub fn faults_at(alloc: Global, text: &[u8], write: u64) -> Result<bool, AllocError> {
    let mut sink = MemorySink::new(alloc, Vec::from_slice(alloc, &[write])?);
    match scan(alloc, text) {
        Ok(program) => match print(alloc, &program, &mut sink) {
            Ok(()) => Ok(false),
            Err(Print::Fault) => Ok(true),
            Err(Print::Memory(error)) => Err(error),
        },
        Err(_) => Ok(false),
    }
}
