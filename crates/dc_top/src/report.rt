// The report of a run.
ghost use Rattle.std.specs.Prelude.{◌≡◌, ◌++◌, [], IfOk, OnOk, length, map};
ghost use Rattle.std.specs.Fmt.{decimal};
ghost use Rattle.dc_goto.specs.Text.{line_bytes, spaced};
ghost use Rattle.dc_top.specs.Report.{end_line as line_of_end, end_words, events_line as line_of_events, failed_line as line_of_failed, numbers_of, report_lines, result_words, used_line as line_of_used};
ghost use Rattle.dc_world.specs.Report.{end_view};

use crate::lines::{put_line, put_number};
use dc_print::Lines;
use dc_text::{Counts, Name, put_decimal};
use dc_world::{End, RunReport, Which};
use std::alloc::{AllocError, Global};

// The words of a return.
fn put_result(line: &mut Vec<u8>, value: &Option<i128>) -> Result<(), AllocError>
    ensures { OnOk result (line.new.items ≡ line.old.items ++ result_words value.now) }
{
    match value {
        None => Ok(()),
        Some(value) => {
            line.push(b' ')?;
            put_decimal(line, *value)
        }
    }
}

// Words, and a name behind them.
fn put_named(line: &mut Vec<u8>, words: &[u8], name: &Name) -> Result<(), AllocError>
    ensures { OnOk result (line.new.items ≡ line.old.items ++ words.now ++ name.now) }
{
    line.extend_from_slice(words)?;
    line.extend_from_slice(name.as_slice())
}

// The words of an end.
fn put_end(line: &mut Vec<u8>, end: &End) -> Result<(), AllocError>
    ensures { OnOk result (line.new.items ≡ line.old.items ++ end_words (end_view end.now)) }
{
    match end {
        End::Returned(value) => {
            line.extend_from_slice(b"returned")?;
            put_result(line, value)
        }
        End::Blocked => line.extend_from_slice(b"blocked"),
        End::Undefined(function) => put_named(line, b"undefined ", function),
        End::NoBody(function) => put_named(line, b"nobody ", function),
        End::Limit(Which::Objects) => line.extend_from_slice(b"limit objects"),
        End::Limit(Which::Depth) => line.extend_from_slice(b"limit depth"),
        End::ChoicesEnded => line.extend_from_slice(b"choices-ended"),
        End::Cut => line.extend_from_slice(b"cut"),
    }
}

// The line of the end.
fn end_line(alloc: Global, end: &End) -> Result<Vec<u8>, AllocError>
    ensures { IfOk result (λ line. line.items ≡ line_of_end (end_view end.now)) }
{
    let mut line = Vec::from_slice(alloc, b"end ")?;
    put_end(&mut line, end)?;
    Ok(line)
}

// The line of how many numbers were taken.
fn used_line(alloc: Global, used: usize) -> Result<Vec<u8>, AllocError>
    ensures { IfOk result (λ line. line.items ≡ line_of_used used) }
{
    let mut line = Vec::from_slice(alloc, b"used ")?;
    put_number(&mut line, used as u128)?;
    Ok(line)
}

// Numbers, each behind a space.
fn put_numbers(line: &mut Vec<u8>, numbers: &[u128]) -> Result<(), AllocError>
    ensures { OnOk result (line.new.items ≡ line.old.items ++ spaced (map decimal numbers.now)) }
{
    for number in numbers {
        line.push(b' ')?;
        put_number(line, *number)?;
    }
    Ok(())
}

// The line of the events.
fn events_line(alloc: Global, counts: &Counts) -> Result<Vec<u8>, AllocError>
    ensures { IfOk result (λ line. line.items ≡ line_of_events counts.now) }
{
    let numbers = [
        counts.draws,
        counts.creates,
        counts.kills,
        counts.writes,
        counts.frees,
        counts.checks,
        counts.calls,
        counts.returns,
    ];
    let mut line = Vec::from_slice(alloc, b"events")?;
    put_numbers(&mut line, &numbers)?;
    Ok(line)
}

// The line of how many names failed.
fn failed_line(alloc: Global, count: usize) -> Result<Vec<u8>, AllocError>
    ensures { IfOk result (λ line. line.items ≡ line_of_failed count) }
{
    let mut line = Vec::from_slice(alloc, b"failed ")?;
    put_number(&mut line, count as u128)?;
    Ok(line)
}

// Names, each a line.
fn put_names(alloc: Global, lines: &mut Lines, names: &[Name]) -> Result<(), AllocError>
    ensures { OnOk result (lines.new ≡ lines.old ++ map line_bytes names.now) }
{
    for name in names {
        let line = Vec::from_slice(alloc, name.as_slice())?;
        put_line(lines, line)?;
    }
    Ok(())
}

/// The lines of a report.
pub fn report(alloc: Global, run: &RunReport) -> Result<Lines, AllocError>
    ensures { IfOk result (λ lines. lines ≡ map line_bytes (report_lines (end_view run.now.end) (length run.now.used) run.now.counts run.now.failed)) }
{
    let mut lines = Lines::new(alloc);
    put_line(&mut lines, end_line(alloc, &run.end)?)?;
    put_line(&mut lines, used_line(alloc, run.used.len())?)?;
    put_line(&mut lines, events_line(alloc, &run.counts)?)?;
    put_line(&mut lines, failed_line(alloc, run.failed.len())?)?;
    put_names(alloc, &mut lines, run.failed.as_slice())?;
    Ok(lines)
}
