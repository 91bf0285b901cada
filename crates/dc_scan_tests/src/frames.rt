// Programs around one line.
use crate::answers::{Answer, answer_to, printed_again};
use std::alloc::{AllocError, Global};

// A function, a variable, and the front of a start with two registers.
const FRONT: &str = "dcc 1\nfunction f s32 s32\nstatic g 4\nbody .start 0 2\n";

// The text that has a line, the fifth, between the start's front and what is behind it.
fn framed(alloc: Global, line: &[u8], behind: &str) -> Result<Vec<u8>, AllocError> {
    let mut text = Vec::from_slice(alloc, FRONT.as_bytes())?;
    text.extend_from_slice(line)?;
    text.extend_from_slice(behind.as_bytes())?;
    Ok(text)
}

/// The answer to the text that has a line before the start's last instruction.
pub fn answer_to_line(alloc: Global, line: &[u8]) -> Result<Answer, AllocError> {
    answer_to(alloc, &framed(alloc, line, "\nreturn\nend\n")?)
}

/// The answer to the text that has a line as the start's last instruction.
pub fn answer_to_last_line(alloc: Global, line: &[u8]) -> Result<Answer, AllocError> {
    answer_to(alloc, &framed(alloc, line, "\nend\n")?)
}

/// Whether the text that has a line before the start's last instruction is printed again as it stood.
pub fn is_printed_again(alloc: Global, line: &[u8]) -> Result<bool, AllocError> {
    let text = framed(alloc, line, "\nreturn\nend\n")?;
    let again = printed_again(alloc, &text)?;
    Ok(again == text)
}

/// The line that sets a register to a value.
pub fn setting(alloc: Global, value: &str) -> Result<Vec<u8>, AllocError> {
    let mut line = Vec::from_slice(alloc, b"set 0 ")?;
    line.extend_from_slice(value.as_bytes())?;
    Ok(line)
}
