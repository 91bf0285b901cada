// Pointers into objects: moved, in their distance, and compared (C11 6.5.6, 6.5.8, 6.5.9).
ghost use Rattle.std.specs.Prelude.{◌≡◌, pos, ◌*ℤ◌};
ghost use Rattle.std.specs.Option.{option_map};
ghost use Rattle.dc_goto.specs.Values.{is_between as lies_between};
ghost use Rattle.dc_num.specs.Operators.{binary_of, is_equality as tests_equality};
ghost use Rattle.dc_num.specs.declared.kind.NumKind.TheVariants.{Ptr};
ghost use Rattle.dc_program.specs.Values.{are_together as stand_together, compared_pointers, distance_of, in_elements as counted_in, moved as moved_place};

use crate::objects::size_of_target;
use dc_core::{BinOp, NumKind};
use dc_memory::{Store, object_number, offset};
use dc_num::binary;

// A pointer, moved by so many elements of a size within its live object, its end included.
pub(crate) fn moved(memory: &Store, size: u64, pointer: u64, count: i128) -> Option<i128>
    ensures { result ≡ option_map (λ place. pos place) (moved_place memory.now pointer (count *ℤ pos size)) }
{
    if !memory.inside(pointer, 0) {
        return None;
    }
    let room = size_of_target(memory, pointer) as i128;
    let bytes = count.checked_mul(size as i128)?;
    let place = bytes.checked_add(offset(pointer) as i128)?;
    if place < 0 || room < place {
        return None;
    }
    Some(pointer as i128 + bytes)
}

// Whether two pointers point into one live object, its end included.
fn are_together(memory: &Store, p: u64, q: u64) -> bool
    ensures { result ≡ stand_together memory.now p q }
{
    object_number(p) == object_number(q) && memory.inside(p, 0) && memory.inside(q, 0)
}

// So many bytes in elements of a size, where they are a whole number of them.
fn in_elements(size: u64, bytes: i128) -> Option<i128>
    ensures { result ≡ counted_in size bytes }
{
    if size == 0 || bytes.rem_euclid(size as i128) != 0 {
        return None;
    }
    Some(bytes / size as i128)
}

// The distance of two pointers in elements of a size, from the second to the first.
pub(crate) fn distance(memory: &Store, size: u64, p: u64, q: u64) -> Option<i128>
    ensures { result ≡ distance_of memory.now size p q }
{
    if !are_together(memory, p, q) {
        return None;
    }
    in_elements(size, offset(p) as i128 - offset(q) as i128)
}

// Whether the operator tests for equality.
fn is_equality(op: BinOp) -> bool
    ensures { result ≡ tests_equality op }
{
    matches!(op, BinOp::Eq | BinOp::Ne)
}

// What an operator makes of two pointers' numbers, which have 64 bits.
fn operate_numbers(op: BinOp, p: u64, q: u64) -> Option<i128>
    ensures { result ≡ binary_of op Ptr (pos p) (pos q) }
{
    binary(op, NumKind::U64, p as i128, q as i128)
}

// What an operator makes of two pointers: they are in one object, or are tested for equality.
pub(crate) fn compare(memory: &Store, op: BinOp, p: u64, q: u64) -> Option<i128>
    ensures { result ≡ compared_pointers op memory.now (pos p) (pos q) }
{
    if is_equality(op) || are_together(memory, p, q) {
        operate_numbers(op, p, q)
    } else {
        None
    }
}

// Whether three pointers point into one live object, in this order.
pub(crate) fn is_between(memory: &Store, low: u64, pointer: u64, high: u64) -> bool
    ensures { result ≡ lies_between memory.now low pointer high }
{
    are_together(memory, low, pointer)
        && are_together(memory, pointer, high)
        && offset(low) <= offset(pointer)
        && offset(pointer) <= offset(high)
}
