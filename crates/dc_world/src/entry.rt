// The objects that are drawn before anything of a program runs.
ghost use Rattle.std.specs.Prelude.{◌≡◌, suc, length};
ghost use Rattle.dc_core.specs.Event.{Create};
ghost use Rattle.dc_core.specs.Entry.{static_objects as drawn_statics, live_object as drawn_live, with_outside as drawn_with_outside, with_new as drawn_with_new};
ghost use Rattle.dc_core.specs.Objects.{dead};
ghost use Rattle.dc_world.specs.Told.{supply, happens};
ghost use Rattle.dc_world.specs.Log.{hearing};
ghost use Rattle.dc_world.specs.Sorts.{object_of, with_sorts};
ghost use Rattle.dc_world.specs.Drawing.{IsDrawing, next_object as drawn_next, with_objects};
ghost use Rattle.dc_world.specs.View.{kind_view, object_view, objects_view};

use crate::draws::{draw, draw_bytes};
use crate::fresh::{Fresh, Storage};
use crate::log::Log;
use crate::memory::add;
use crate::sorts::Sorts;
use dc_choice::{Chooser, Watch};
use dc_memory::Store;
use dc_text::Event;
use std::alloc::{AllocError, Global};

/// Draws the variables of file scope of these sizes, each byte of them.
pub fn static_objects<C: Chooser, W: Watch>(
    alloc: Global,
    sizes: &[u64],
    chooser: &mut C,
    used: &mut Vec<u64>,
    watch: &mut W,
    log: &mut Log,
) -> Result<Option<Vec<Fresh>>, AllocError>
    ensures { IsDrawing (λ objects. objects_view objects.items) (drawn_statics sizes.now) result
        (supply (C.left chooser.old) (C.given chooser.old) (C.dry chooser.old) used.old.items)
        (supply (C.left chooser.new) (C.given chooser.new) (C.dry chooser.new) used.new.items)
        (hearing (W.records watch.old) (W.parts watch.old) log.old)
        (hearing (W.records watch.new) (W.parts watch.new) log.new) }
{
    let mut objects = Vec::new(alloc);
    for size in sizes {
        objects.try_reserve(1)?;
        let Some(bytes) = draw_bytes(alloc, *size, chooser, used, watch, log)? else {
            return Ok(None);
        };
        objects.push_reserved(Fresh::Live(Storage::Static, bytes));
    }
    Ok(Some(objects))
}

// Draws a live object of this number: its size, then its bytes.
fn live_object<C: Chooser, W: Watch>(
    alloc: Global,
    number: u64,
    storage: Storage,
    chooser: &mut C,
    used: &mut Vec<u64>,
    watch: &mut W,
    log: &mut Log,
) -> Result<Option<Fresh>, AllocError>
    ensures { IsDrawing object_view (drawn_live number (kind_view storage)) result
        (supply (C.left chooser.old) (C.given chooser.old) (C.dry chooser.old) used.old.items)
        (supply (C.left chooser.new) (C.given chooser.new) (C.dry chooser.new) used.new.items)
        (hearing (W.records watch.old) (W.parts watch.old) log.old)
        (hearing (W.records watch.new) (W.parts watch.new) log.new) }
{
    let Some(size) = draw(16777217, chooser, used, watch, log)? else {
        return Ok(None);
    };
    log.tell(watch, Event::Create(number));
    let Some(bytes) = draw_bytes(alloc, size, chooser, used, watch, log)? else {
        return Ok(None);
    };
    Ok(Some(Fresh::Live(storage, bytes)))
}

// Draws an object of this number, of the sort that was drawn for it.
fn sorted_object<C: Chooser, W: Watch>(
    alloc: Global,
    sorts: Sorts,
    number: u64,
    sort: u64,
    chooser: &mut C,
    used: &mut Vec<u64>,
    watch: &mut W,
    log: &mut Log,
) -> Result<Option<Fresh>, AllocError>
    ensures { IsDrawing object_view (object_of sorts number sort) result
        (supply (C.left chooser.old) (C.given chooser.old) (C.dry chooser.old) used.old.items)
        (supply (C.left chooser.new) (C.given chooser.new) (C.dry chooser.new) used.new.items)
        (hearing (W.records watch.old) (W.parts watch.old) log.old)
        (hearing (W.records watch.new) (W.parts watch.new) log.new) }
{
    match sort {
        0 => Ok(Some(dead_object(number, Storage::Heap, watch, log))),
        1 => Ok(Some(dead_object(number, Storage::Stack, watch, log))),
        _ => live_object(
            alloc,
            number,
            sorts.live_storage(sort),
            chooser,
            used,
            watch,
            log,
        ),
    }
}

// A dead object of this number.
fn dead_object<W: Watch>(number: u64, storage: Storage, watch: &mut W, log: &mut Log) -> Fresh
    ensures seen { object_view result ≡ dead (kind_view storage) }
    ensures told { hearing (W.records watch.new) (W.parts watch.new) log.new
        ≡ happens (Create number) (hearing (W.records watch.old) (W.parts watch.old) log.old) }
{
    log.tell(watch, Event::Create(number));
    Fresh::Dead(storage)
}

// Draws an object behind the others: its sort, then what the sort asks for.
fn next_object<C: Chooser, W: Watch>(
    alloc: Global,
    sorts: Sorts,
    number: u64,
    chooser: &mut C,
    used: &mut Vec<u64>,
    watch: &mut W,
    log: &mut Log,
) -> Result<Option<Fresh>, AllocError>
    ensures { IsDrawing object_view (drawn_next sorts number) result
        (supply (C.left chooser.old) (C.given chooser.old) (C.dry chooser.old) used.old.items)
        (supply (C.left chooser.new) (C.given chooser.new) (C.dry chooser.new) used.new.items)
        (hearing (W.records watch.old) (W.parts watch.old) log.old)
        (hearing (W.records watch.new) (W.parts watch.new) log.new) }
{
    let Some(sort) = draw(sorts.count(), chooser, used, watch, log)? else {
        return Ok(None);
    };
    sorted_object(alloc, sorts, number, sort, chooser, used, watch, log)
}

// Draws that many objects behind those of the memory.
fn drawn_objects<C: Chooser, W: Watch>(
    alloc: Global,
    sorts: Sorts,
    memory: &mut Store,
    count: u64,
    chooser: &mut C,
    used: &mut Vec<u64>,
    watch: &mut W,
    log: &mut Log,
) -> Result<Option<()>, AllocError>
    ensures { IsDrawing (λ u. memory.new) (with_objects sorts memory.old count) result
        (supply (C.left chooser.old) (C.given chooser.old) (C.dry chooser.old) used.old.items)
        (supply (C.left chooser.new) (C.given chooser.new) (C.dry chooser.new) used.new.items)
        (hearing (W.records watch.old) (W.parts watch.old) log.old)
        (hearing (W.records watch.new) (W.parts watch.new) log.new) }
{
    for _at in 0..count {
        let number = memory.count() + 1;
        let Some(object) = next_object(alloc, sorts, number, chooser, used, watch, log)? else {
            return Ok(None);
        };
        add(memory, object)?;
    }
    Ok(Some(()))
}

// Draws objects of these sorts behind those of the memory, their count first.
fn with_drawn<C: Chooser, W: Watch>(
    alloc: Global,
    sorts: Sorts,
    memory: &mut Store,
    chooser: &mut C,
    used: &mut Vec<u64>,
    watch: &mut W,
    log: &mut Log,
) -> Result<Option<()>, AllocError>
    ensures { IsDrawing (λ u. memory.new) (with_sorts sorts memory.old) result
        (supply (C.left chooser.old) (C.given chooser.old) (C.dry chooser.old) used.old.items)
        (supply (C.left chooser.new) (C.given chooser.new) (C.dry chooser.new) used.new.items)
        (hearing (W.records watch.old) (W.parts watch.old) log.old)
        (hearing (W.records watch.new) (W.parts watch.new) log.new) }
{
    let most = 65536_u64.saturating_sub(memory.count());
    let Some(count) = draw(most as u128, chooser, used, watch, log)? else {
        return Ok(None);
    };
    drawn_objects(alloc, sorts, memory, count, chooser, used, watch, log)
}

/// Draws outside objects behind those of the memory, their count first: dead or live ones of the heap or of a stack.
#[tactic(auto, unfolding(dc_core::specs::Entry::with_outside))]
pub fn with_outside<C: Chooser, W: Watch>(
    alloc: Global,
    memory: &mut Store,
    chooser: &mut C,
    used: &mut Vec<u64>,
    watch: &mut W,
    log: &mut Log,
) -> Result<Option<()>, AllocError>
    ensures { IsDrawing (λ u. memory.new) (drawn_with_outside memory.old) result
        (supply (C.left chooser.old) (C.given chooser.old) (C.dry chooser.old) used.old.items)
        (supply (C.left chooser.new) (C.given chooser.new) (C.dry chooser.new) used.new.items)
        (hearing (W.records watch.old) (W.parts watch.old) log.old)
        (hearing (W.records watch.new) (W.parts watch.new) log.new) }
{
    with_drawn(alloc, Sorts::Outside, memory, chooser, used, watch, log)
}

/// Draws new objects behind those of the memory, their count first: dead ones of the heap or of a stack, or live ones of
/// the heap.
#[tactic(auto, unfolding(dc_core::specs::Entry::with_new))]
pub fn with_new<C: Chooser, W: Watch>(
    alloc: Global,
    memory: &mut Store,
    chooser: &mut C,
    used: &mut Vec<u64>,
    watch: &mut W,
    log: &mut Log,
) -> Result<Option<()>, AllocError>
    ensures { IsDrawing (λ u. memory.new) (drawn_with_new memory.old) result
        (supply (C.left chooser.old) (C.given chooser.old) (C.dry chooser.old) used.old.items)
        (supply (C.left chooser.new) (C.given chooser.new) (C.dry chooser.new) used.new.items)
        (hearing (W.records watch.old) (W.parts watch.old) log.old)
        (hearing (W.records watch.new) (W.parts watch.new) log.new) }
{
    with_drawn(alloc, Sorts::New, memory, chooser, used, watch, log)
}
