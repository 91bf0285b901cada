//! Laws over the definitions alone, each a call without effect whose clause states it.
ghost use Rattle.std.specs.Prelude.{◌≡◌, ◌+◌, ◌<◌, ◌^◌, ℕ, ℤ, List, length, Some};
ghost use Rattle.dc_memory.specs.declared.kind.MemKind.{MemKind};
ghost use Rattle.dc_memory.specs.Kinds.{IsValue, size_of};
ghost use Rattle.dc_memory.specs.Objects.{Memory};
ghost use Rattle.dc_memory.specs.Places.{IsApart, start_of, object_of, offset_of, is_inside, range_bytes, written};
ghost use Rattle.dc_memory.specs.Encoding.{encoded, decoded};
ghost use Rattle.dc_memory.specs.Access.{load, store, copied};

/// A pointer is the number of an object times 2^48 and an offset.
pub fn pointers_are_pairs()
    ensures object { (object offset : ℕ) → offset < 2 ^ 48 → object_of (start_of object + offset) ≡ object }
    ensures offset { (object offset : ℕ) → offset < 2 ^ 48 → offset_of (start_of object + offset) ≡ offset }
{}

/// A value of a kind is what its bytes spell.
pub fn values_are_decoded()
    ensures { (kind : MemKind) (z : ℤ) → IsValue kind z → decoded kind (encoded kind z) ≡ z }
{}

/// A value of the kind that is stored is what is loaded from the same place.
pub fn stored_is_loaded()
    ensures { (kind : MemKind) (pointer : ℕ) (z : ℤ) (before after : Memory) →
        IsValue kind z → store kind pointer z before ≡ Some after → load kind pointer after ≡ Some z }
{}

/// Bytes that are copied are those that stood at the other place before, whether or not the ranges overlap.
pub fn copied_is_read()
    ensures { (to from len : ℕ) (before after : Memory) →
        copied to from len before ≡ Some after → range_bytes after to len ≡ range_bytes before from len }
{}

/// A write changes no byte beside it, and no range comes or goes.
pub fn others_stay()
    ensures bytes { (to from len : ℕ) (values : List ℕ) (memory : Memory) → IsApart to (length values) from len →
        range_bytes (written to values memory) from len ≡ range_bytes memory from len }
    ensures ranges { (to from len : ℕ) (values : List ℕ) (memory : Memory) →
        is_inside (written to values memory) from len ≡ is_inside memory from len }
{}
