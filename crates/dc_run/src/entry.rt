// What is drawn before the function is called.
ghost use Rattle.std.specs.Prelude.{◌≡◌, ◌≤◌, length, map, IfOk, IfSome};
ghost use Rattle.dc_core.specs.Entry.{entry_memory as drawn_memory, static_sizes};
ghost use Rattle.dc_core.specs.View.{program_view};
ghost use Rattle.dc_world.specs.Drawing.{IsDrawing};
ghost use Rattle.dc_world.specs.Log.{hearing};
ghost use Rattle.dc_world.specs.Told.{supply};
ghost use Rattle.dc_run.specs.Entry.{drawn_variables, entry_view, starts};

use dc_choice::{Chooser, Watch};
use dc_core::parameters;
use dc_memory::Store;
use dc_program::Program;
use dc_world::{Log, add_all, add_function, draw_arguments, static_objects, with_outside};
use std::alloc::{AllocError, Global};

/// The memory and the arguments before the function is called.
#[derive(Drop)]
pub struct Entry {
    pub memory: Store,
    pub arguments: Vec<i128>,
}

// The sizes of the variables.
fn sizes(alloc: Global, p: &Program) -> Result<Vec<u64>, AllocError>
    ensures { IfOk result (λ sizes. sizes.items ≡ static_sizes (program_view p.now)) }
{
    let statics = p.statics();
    let count = statics.len();
    let sizes = vec![in alloc; 4; count]?;
    Ok(sizes)
}

// Draws the variables, which stand behind the function.
fn first_memory<C: Chooser, W: Watch>(
    alloc: Global,
    p: &Program,
    chooser: &mut C,
    used: &mut Vec<u64>,
    watch: &mut W,
    log: &mut Log,
) -> Result<Option<Store>, AllocError>
    ensures { IsDrawing (λ memory. memory) (drawn_variables (program_view p.now)) result
        (supply (C.left chooser.old) (C.given chooser.old) (C.dry chooser.old) used.old.items)
        (supply (C.left chooser.new) (C.given chooser.new) (C.dry chooser.new) used.new.items)
        (hearing (W.records watch.old) (W.parts watch.old) log.old)
        (hearing (W.records watch.new) (W.parts watch.new) log.new) }
{
    let sizes = sizes(alloc, p)?;
    let mut memory = Store::new(alloc);
    add_function(&mut memory)?;
    let Some(objects) = static_objects(alloc, sizes.as_slice(), chooser, used, watch, log)? else {
        return Ok(None);
    };
    add_all(&mut memory, objects)?;
    Ok(Some(memory))
}

// Draws the memory: the function, the variables, the outside objects.
fn entry_memory<C: Chooser, W: Watch>(
    alloc: Global,
    p: &Program,
    chooser: &mut C,
    used: &mut Vec<u64>,
    watch: &mut W,
    log: &mut Log,
) -> Result<Option<Store>, AllocError>
    ensures { IsDrawing (λ memory. memory) (drawn_memory (program_view p.now)) result
        (supply (C.left chooser.old) (C.given chooser.old) (C.dry chooser.old) used.old.items)
        (supply (C.left chooser.new) (C.given chooser.new) (C.dry chooser.new) used.new.items)
        (hearing (W.records watch.old) (W.parts watch.old) log.old)
        (hearing (W.records watch.new) (W.parts watch.new) log.new) }
{
    let Some(mut memory) = first_memory(alloc, p, chooser, used, watch, log)? else {
        return Ok(None);
    };
    let Some(()) = with_outside(alloc, &mut memory, chooser, used, watch, log)? else {
        return Ok(None);
    };
    Ok(Some(memory))
}

/// Draws the memory and the arguments.
pub fn draw_entry<C: Chooser, W: Watch>(
    alloc: Global,
    p: &Program,
    chooser: &mut C,
    used: &mut Vec<u64>,
    watch: &mut W,
    log: &mut Log,
) -> Result<Option<Entry>, AllocError>
    ensures drawn { IsDrawing entry_view (starts (program_view p.now)) result
        (supply (C.left chooser.old) (C.given chooser.old) (C.dry chooser.old) used.old.items)
        (supply (C.left chooser.new) (C.given chooser.new) (C.dry chooser.new) used.new.items)
        (hearing (W.records watch.old) (W.parts watch.old) log.old)
        (hearing (W.records watch.new) (W.parts watch.new) log.new) }
    ensures few { length p.now.1.0 ≤ 65534 → IfOk result (λ o. IfSome o (λ e. length e.memory ≤ 65535)) }
{
    let Some(memory) = entry_memory(alloc, p, chooser, used, watch, log)? else {
        return Ok(None);
    };
    let Some(arguments) = draw_arguments(alloc, parameters(p), chooser, used, watch, log)? else {
        return Ok(None);
    };
    Ok(Some(Entry { memory, arguments }))
}
