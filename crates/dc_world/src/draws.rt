// What a run draws: numbers of a chooser, each told to a watch and kept.
ghost use Rattle.std.specs.Prelude.{◌≡◌, ◌<◌, ◌%◌, ◌^◌, IfOk, IfSome};
ghost use Rattle.dc_num.specs.Kinds.{bits_of, IsValue};
ghost use Rattle.dc_core.specs.Choices.{draw as drawn_number, draw_bytes as drawn_bytes, draw_value as drawn_value};
ghost use Rattle.dc_core.specs.Entry.{draw_arguments as drawn_arguments};
ghost use Rattle.dc_world.specs.Told.{supply};
ghost use Rattle.dc_world.specs.Log.{hearing};
ghost use Rattle.dc_world.specs.Drawing.{IsDrawing};

use crate::log::Log;
use dc_choice::{Chooser, Watch};
use dc_core::NumKind;
use dc_num::convert;
use dc_text::Event;
use std::alloc::{AllocError, Global};

// The remainder of a number, or the number itself where k is 0.
fn remainder(number: u64, k: u128) -> u64
    ensures { result ≡ number % k }
{
    if k == 0 {
        return number;
    }
    (number as u128 % k) as u64
}

/// Draws a number modulo k, unless the choices have ended. The room for the number is taken before it is drawn.
pub fn draw<C: Chooser, W: Watch>(
    k: u128,
    chooser: &mut C,
    used: &mut Vec<u64>,
    watch: &mut W,
    log: &mut Log,
) -> Result<Option<u64>, AllocError>
    ensures drawn { IsDrawing (λ n. n) (drawn_number k) result
        (supply (C.left chooser.old) (C.given chooser.old) (C.dry chooser.old) used.old.items)
        (supply (C.left chooser.new) (C.given chooser.new) (C.dry chooser.new) used.new.items)
        (hearing (W.records watch.old) (W.parts watch.old) log.old)
        (hearing (W.records watch.new) (W.parts watch.new) log.new) }
    ensures below { 0 < k → IfOk result (λ o. IfSome o (λ n. n < k)) }
{
    used.try_reserve(1)?;
    let Some(number) = chooser.next() else {
        return Ok(None);
    };
    used.push_reserved(number);
    log.tell(watch, Event::Draw(number));
    Ok(Some(remainder(number, k)))
}

// How many values the kind has.
fn values(kind: NumKind) -> u128
    ensures { result ≡ 2 ^ bits_of kind }
{
    kind.modulus() as u128
}

/// Draws a value of the kind.
pub fn draw_value<C: Chooser, W: Watch>(
    kind: NumKind,
    chooser: &mut C,
    used: &mut Vec<u64>,
    watch: &mut W,
    log: &mut Log,
) -> Result<Option<i128>, AllocError>
    ensures drawn { IsDrawing (λ z. z) (drawn_value kind) result
        (supply (C.left chooser.old) (C.given chooser.old) (C.dry chooser.old) used.old.items)
        (supply (C.left chooser.new) (C.given chooser.new) (C.dry chooser.new) used.new.items)
        (hearing (W.records watch.old) (W.parts watch.old) log.old)
        (hearing (W.records watch.new) (W.parts watch.new) log.new) }
    ensures valued { IfOk result (λ o. IfSome o (λ z. IsValue kind z)) }
{
    match draw(values(kind), chooser, used, watch, log)? {
        None => Ok(None),
        Some(number) => Ok(Some(convert(kind, number as i128))),
    }
}

/// Draws that many bytes.
pub fn draw_bytes<C: Chooser, W: Watch>(
    alloc: Global,
    count: u64,
    chooser: &mut C,
    used: &mut Vec<u64>,
    watch: &mut W,
    log: &mut Log,
) -> Result<Option<Vec<u8>>, AllocError>
    ensures { IsDrawing (λ bytes. bytes.items) (drawn_bytes count) result
        (supply (C.left chooser.old) (C.given chooser.old) (C.dry chooser.old) used.old.items)
        (supply (C.left chooser.new) (C.given chooser.new) (C.dry chooser.new) used.new.items)
        (hearing (W.records watch.old) (W.parts watch.old) log.old)
        (hearing (W.records watch.new) (W.parts watch.new) log.new) }
{
    let mut bytes = Vec::new(alloc);
    for _at in 0..count {
        bytes.try_reserve(1)?;
        let Some(byte) = draw(256, chooser, used, watch, log)? else {
            return Ok(None);
        };
        bytes.push_reserved(byte as u8);
    }
    Ok(Some(bytes))
}

/// Draws that many int arguments.
pub fn draw_arguments<C: Chooser, W: Watch>(
    alloc: Global,
    count: u64,
    chooser: &mut C,
    used: &mut Vec<u64>,
    watch: &mut W,
    log: &mut Log,
) -> Result<Option<Vec<i128>>, AllocError>
    ensures { IsDrawing (λ values. values.items) (drawn_arguments count) result
        (supply (C.left chooser.old) (C.given chooser.old) (C.dry chooser.old) used.old.items)
        (supply (C.left chooser.new) (C.given chooser.new) (C.dry chooser.new) used.new.items)
        (hearing (W.records watch.old) (W.parts watch.old) log.old)
        (hearing (W.records watch.new) (W.parts watch.new) log.new) }
{
    let mut values = Vec::new(alloc);
    for _at in 0..count {
        values.try_reserve(1)?;
        let Some(value) = draw_value(NumKind::S32, chooser, used, watch, log)? else {
            return Ok(None);
        };
        values.push_reserved(value);
    }
    Ok(Some(values))
}
