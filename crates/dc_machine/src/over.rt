// Bytes that are drawn straight into the objects of a memory.
ghost use Rattle.std.specs.Prelude.{◌≡◌, ◌<◌, ◌^◌, suc, ◌∷◌, []};
ghost use Rattle.dc_machine.specs.Over.{overwritten, statics_overwritten};
ghost use Rattle.dc_memory.specs.Objects.{changed};
ghost use Rattle.dc_memory.specs.Places.{with_bytes};
ghost use Rattle.dc_world.specs.Drawing.{IsDrawing};
ghost use Rattle.dc_world.specs.Told.{supply};
ghost use Rattle.dc_world.specs.Log.{hearing};

use dc_choice::{Chooser, Watch};
use dc_memory::Store;
use dc_world::{Log, draw, rewrite};
use std::alloc::AllocError;

// Writes a byte into the object of the number, where it has one at the index.
fn put_byte(memory: &mut Store, number: u64, index: u128, byte: u8)
    ensures { memory.new ≡ changed number (with_bytes index (byte ∷ [])) memory.old }
{
    let Some((_, _, size)) = memory.look(number) else {
        return;
    };
    if index <= size as u128 {
        rewrite(memory, number, index as u64, &[byte]);
    }
}

/// Draws so many bytes of the object of the number, from an index on, and writes each of them as it is drawn, so that those
/// before the choices' end are written. Those that the object has no room for are drawn too.
pub fn draw_over<C: Chooser, W: Watch>(
    memory: &mut Store,
    number: u64,
    from: u64,
    len: u64,
    chooser: &mut C,
    used: &mut Vec<u64>,
    watch: &mut W,
    log: &mut Log,
) -> Result<Option<()>, AllocError>
    ensures { IsDrawing (λ u. memory.new) (overwritten number from len memory.old) result
        (supply (C.left chooser.old) (C.given chooser.old) (C.dry chooser.old) used.old.items)
        (supply (C.left chooser.new) (C.given chooser.new) (C.dry chooser.new) used.new.items)
        (hearing (W.records watch.old) (W.parts watch.old) log.old)
        (hearing (W.records watch.new) (W.parts watch.new) log.new) }
{
    for at in 0..len {
        let Some(byte) = draw(256, chooser, used, watch, log)? else {
            return Ok(None);
        };
        put_byte(memory, number, from as u128 + at as u128, byte as u8);
    }
    Ok(Some(()))
}

/// Draws the bytes of variables of these sizes, whose objects stand behind so many others, as `draw_over` does.
pub fn draw_all_over<C: Chooser, W: Watch>(
    memory: &mut Store,
    count: usize,
    sizes: &[u64],
    chooser: &mut C,
    used: &mut Vec<u64>,
    watch: &mut W,
    log: &mut Log,
) -> Result<Option<()>, AllocError>
    requires { count < 2 ^ 63 }
    ensures { IsDrawing (λ u. memory.new) (statics_overwritten (suc count) sizes.now memory.old) result
        (supply (C.left chooser.old) (C.given chooser.old) (C.dry chooser.old) used.old.items)
        (supply (C.left chooser.new) (C.given chooser.new) (C.dry chooser.new) used.new.items)
        (hearing (W.records watch.old) (W.parts watch.old) log.old)
        (hearing (W.records watch.new) (W.parts watch.new) log.new) }
{
    let mut number = count as u64;
    for size in sizes {
        number += 1;
        let drawn = draw_over(memory, number, 0, *size, chooser, used, watch, log)?;
        let Some(()) = drawn else {
            return Ok(None);
        };
    }
    Ok(Some(()))
}
