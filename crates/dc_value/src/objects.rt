// Objects by the pointers into them.
ghost use Rattle.std.specs.Prelude.{◌≡◌, ◌≤◌, Bool, Some, None, pos, if◌then◌else◌};
ghost use Rattle.dc_memory.specs.Objects.{is_live, object_at};
ghost use Rattle.dc_memory.specs.Places.{start_of, object_of};
ghost use Rattle.dc_memory.specs.declared.object.ObjKind.{ObjKind};
ghost use Rattle.dc_goto.specs.Values.{is_heap_start as starts_heap, is_no_function, points_to};
ghost use Rattle.dc_program.specs.Values.{size_at};
ghost use Rattle.dc_value.specs.View.{some_kind};

use dc_memory::{ObjKind, Store, object_number, offset};

/// The pointer to the start of an object.
#[tactic(auto, unfolding(dc_memory::specs::Places::start_of))]
pub fn start(number: u64) -> i128
    ensures { result ≡ pos (start_of number) }
{
    number as i128 * 281474976710656
}

// How many bytes the object has that a pointer points into; none where there is no such object.
pub(crate) fn size_of_target(memory: &Store, pointer: u64) -> u64
    ensures value { result ≡ size_at (object_at memory.now (object_of pointer)) }
    ensures small { result ≤ 16777216 }
{
    match memory.look(object_number(pointer)) {
        None => 0,
        Some((_, _, size)) => size,
    }
}

// The kind of the object that a pointer points into, where it lives.
pub(crate) fn live_kind(memory: &Store, pointer: u64) -> Option<ObjKind>
    ensures { (test : ObjKind → Bool) → points_to test memory.now pointer ≡ some_kind test result }
{
    match memory.look(object_number(pointer)) {
        Some((kind, true, _)) => Some(kind),
        _ => None,
    }
}

// A number, where the pointer's object lives.
pub(crate) fn where_live(memory: &Store, pointer: u64, number: i128) -> Option<i128>
    ensures { result ≡ (if is_live memory.now (object_of pointer) then Some number else None) }
{
    match memory.look(object_number(pointer)) {
        Some((_, true, _)) => Some(number),
        _ => None,
    }
}

/// Whether the pointer is the start of a live heap object.
pub fn is_heap_start(memory: &Store, pointer: u64) -> bool
    ensures { result ≡ starts_heap memory.now pointer }
{
    offset(pointer) == 0 && matches!(live_kind(memory, pointer), Some(ObjKind::Heap))
}

/// Whether the pointer's object lives and is no function.
pub fn points_to_data(memory: &Store, pointer: u64) -> bool
    ensures { result ≡ points_to is_no_function memory.now pointer }
{
    matches!(
        live_kind(memory, pointer),
        Some(ObjKind::Static | ObjKind::Heap | ObjKind::Stack)
    )
}
