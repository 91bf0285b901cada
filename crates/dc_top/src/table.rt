// The table of words.
ghost use Rattle.std.specs.Prelude.{◌≡◌, length, IfNone, IfSome};
ghost use Rattle.dc_top.specs.Row.{IsModeOf, command_at};
ghost use Rattle.dc_top.specs.Table.{HasRow, IsRow};

use dc_core::Name;
use dc_text::{is_formed, read_decimal};

/// How the program of a source is run.
#[derive(Clone, Copy, Debug, PartialEq, Eq)]
pub enum Mode {
    /// Judged by its contract as it runs.
    Contract,

    /// As it stands, and judged afterwards.
    Plain,
}

/// A row of the table. The files are named by the words 1 and 2.
#[derive(Drop)]
pub enum Row<'a> {
    /// `instrument FILE --enforce F`, with this F.
    Instrument(&'a Name),

    /// `replay TEXT CHOICES STEPS`, with that number of steps.
    ReplayText(u64),

    /// `replay-source FILE CHOICES STEPS --enforce F` or `replay-plain FILE CHOICES STEPS --enforce F`, with that number
    /// of steps and this F.
    ReplaySource(Mode, u64, &'a Name),
}

// The row of four words.
fn short_row(words: &[Name]) -> Option<Row<'_>>
    ensures found { IfSome result (λ row. IsRow words.now (command_at words.now row)) }
    ensures none { IfNone result (HasRow words.now → length words.now ≡ 4 → ⊥) }
{
    let [command, _, third, last] = words else {
        return None;
    };
    if command.is(b"instrument") {
        if third.is(b"--enforce") && is_formed(last.as_slice()) {
            return Some(Row::Instrument(last));
        }
        return None;
    }
    if !command.is(b"replay") {
        return None;
    }
    match read_decimal(last.as_slice()) {
        Some(steps) => Some(Row::ReplayText(steps)),
        None => None,
    }
}

// The mode that the word asks for.
fn mode_of(word: &Name) -> Option<Mode>
    ensures { IsModeOf word.now result }
{
    if word.is(b"replay-source") {
        return Some(Mode::Contract);
    }
    if word.is(b"replay-plain") {
        return Some(Mode::Plain);
    }
    None
}

// The row of six words.
fn long_row(words: &[Name]) -> Option<Row<'_>>
    ensures found { IfSome result (λ row. IsRow words.now (command_at words.now row)) }
    ensures none { IfNone result (HasRow words.now → length words.now ≡ 6 → ⊥) }
{
    let [command, _, _, steps, option, name] = words else {
        return None;
    };
    let mode = mode_of(command)?;
    let steps = read_decimal(steps.as_slice())?;
    if option.is(b"--enforce") && is_formed(name.as_slice()) {
        Some(Row::ReplaySource(mode, steps, name))
    } else {
        None
    }
}

/// The row of the table that the words are, if they are one.
pub fn row_of(words: &[Name]) -> Option<Row<'_>>
    ensures found { IfSome result (λ row. IsRow words.now (command_at words.now row)) }
    ensures none { IfNone result (HasRow words.now → ⊥) }
{
    if words.len() == 4 {
        short_row(words)
    } else {
        long_row(words)
    }
}
