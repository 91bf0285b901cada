// What runs do to a memory beside loads and stores.
ghost use Rattle.std.specs.Prelude.{◌≡◌, ◌<◌, ◌^◌, ◌∷◌, [], ◌++◌, suc, replicate, OnErr, OnOk};
ghost use Rattle.dc_memory.specs.Objects.{changed, function_kind, holding};
ghost use Rattle.dc_memory.specs.Places.{with_bytes};
ghost use Rattle.dc_core.specs.Objects.{died, function_object, rewritten};
ghost use Rattle.dc_world.specs.View.{kind_view, object_view, objects_view};

use crate::fresh::{Fresh, Storage};
use dc_memory::{Create, ObjKind, Store};
use std::alloc::AllocError;

// Why no object was created, where there are fewer than 65,535.
fn wanting(fault: Create) -> AllocError {
    match fault {
        Create::Full => AllocError,
        Create::Memory(error) => error,
    }
}

/// Adds a function. Where there may be no more objects, that is answered as want of memory; nothing has changed then.
pub fn add_function(memory: &mut Store) -> Result<(), AllocError>
    ensures ok { OnOk result (memory.new ≡ memory.old ++ function_object ∷ []) }
    ensures refused { OnErr result (memory.new ≡ memory.old) }
{
    match memory.create(ObjKind::Function, true, 0) {
        Ok(_) => Ok(()),
        Err(fault) => Err(wanting(fault)),
    }
}

/// Adds a live object of so many zero bytes. One that may not be added, since there are too many or it has more than
/// 16,777,216 bytes, is answered as want of memory; nothing has changed then.
pub fn add_zeros(memory: &mut Store, storage: Storage, size: u64) -> Result<(), AllocError>
    ensures ok { OnOk result (memory.new ≡ memory.old ++ holding (kind_view storage) (replicate size 0) ∷ []) }
    ensures refused { OnErr result (memory.new ≡ memory.old) }
{
    if size > 16777216 {
        return Err(AllocError);
    }
    match memory.create(storage.kind(), true, size) {
        Ok(_) => Ok(()),
        Err(fault) => Err(wanting(fault)),
    }
}

/// Adds an object that was drawn. One that may not be added, since there are too many or it has more than 16,777,216
/// bytes, is answered as want of memory; nothing has changed then.
pub fn add(memory: &mut Store, object: Fresh) -> Result<(), AllocError>
    ensures ok { OnOk result (memory.new ≡ memory.old ++ object_view object ∷ []) }
    ensures refused { OnErr result (memory.new ≡ memory.old) }
{
    let added = match object {
        Fresh::Dead(storage) => memory.create(storage.kind(), false, 0),
        Fresh::Live(storage, bytes) => {
            if bytes.len() > 16777216 {
                return Err(AllocError);
            }
            memory.create_with(storage.kind(), bytes)
        }
    };
    match added {
        Ok(_) => Ok(()),
        Err(fault) => Err(wanting(fault)),
    }
}

/// Adds objects that were drawn, in their order, as `add` does.
pub fn add_all(memory: &mut Store, objects: Vec<Fresh>) -> Result<(), AllocError>
    ensures { OnOk result (memory.new ≡ memory.old ++ objects_view objects.items) }
{
    for object in objects {
        add(memory, object)?;
    }
    Ok(())
}

// Whether the kind is a function's.
fn is_function(kind: ObjKind) -> bool
    ensures { result ≡ function_kind kind }
{
    matches!(kind, ObjKind::Function)
}

/// The object of the number dies, if it is live and no function.
pub fn let_die(memory: &mut Store, number: u64)
    ensures { memory.new ≡ changed number died memory.old }
{
    let Some((kind, live, _)) = memory.look(number) else {
        return;
    };
    if live && !is_function(kind) {
        memory.kill(number);
    }
}

/// Writes bytes into the object of the number from a byte of it on, as many as it has room for.
pub fn rewrite(memory: &mut Store, number: u64, from: u64, bytes: &[u8])
    ensures { memory.new ≡ changed number (with_bytes from bytes.now) memory.old }
{
    if number > memory.count() {
        return;
    }
    let Some((_, live, size)) = memory.look(number) else {
        return;
    };
    if live && from <= size {
        let count = bytes.len().min((size - from) as usize);
        memory.put(number * 281474976710656 + from, &bytes[..count]);
    }
}

// Writes the bytes of an object that was drawn into that of the number.
fn rewrite_as(memory: &mut Store, number: u64, object: &Fresh)
    ensures { memory.new ≡ changed number (with_bytes 0 (object_view object.now).bytes) memory.old }
{
    match object {
        Fresh::Dead(_) => (),
        Fresh::Live(_, bytes) => rewrite(memory, number, 0, bytes.as_slice()),
    }
}

/// Writes the bytes of objects that were drawn into those of a memory that stand behind so many, in their order.
pub fn rewrite_all(memory: &mut Store, count: usize, objects: &[Fresh])
    requires { count < 2 ^ 63 }
    ensures { memory.new ≡ rewritten (suc count) (objects_view objects.now) memory.old }
{
    let mut number = count as u64;
    for object in objects {
        number += 1;
        rewrite_as(memory, number, object);
    }
}
