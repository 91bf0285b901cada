// Sets one within the other.
ghost use Rattle.std.specs.Prelude.{◌≡◌, IsSome, OnErr, OnOk, length, slice_get};
ghost use Rattle.std.specs.Option.{option_copied, option_map};
ghost use Rattle.dc_writeset.specs.Sets.{frees_of, innermost, is_free_allowed, is_freed_since, is_inside_below, is_write_allowed, no_sets, parts_of, popped, pushed, ranges_of, with_free, with_freed, with_range};

use crate::named::{TaggedObject, TaggedRange, is_since};
use crate::set::{WriteSet, may_free, may_write};
use sqlite_items::at;
use std::alloc::{AllocError, Global};
use std::marker::Model;

/// Sets of what may be written and freed, one within the other, and the list of the objects that were freed. The
/// innermost set is the one that counts. It has a mark, ranges, and objects that may be freed; each range and each object
/// has a tag, the number of the target that denoted it. Numbers of objects, bytes and targets may be any.
#[derive(Drop)]
pub struct WriteSets {
    // The innermost set is the last one.
    sets: Vec<WriteSet>,
    freed: Vec<u64>,
}

impl Model for WriteSets {
    ghost use Rattle.std.specs.Prelude.{reverse};
    ghost use Rattle.dc_writeset.specs.Sets.{PlainSets};

    ghost Value = { PlainSets };

    ghost view = { λ s. record { sets = reverse s.sets.items; freed = s.freed.items } };
}

impl WriteSets {
    /// No sets, and nothing freed. It takes no memory.
    pub fn new(alloc: Global) -> WriteSets
        ensures { result ≡ no_sets }
    {
        WriteSets {
            sets: Vec::new(alloc),
            freed: Vec::new(alloc),
        }
    }

    /// Opens a set within the innermost one. It names nothing, and its mark is the number of objects of this moment: an
    /// object above it is new. A refused call, for want of memory, leaves everything as it was.
    pub fn push(&mut self, mark: u64) -> Result<(), AllocError>
        ensures ok { OnOk result (self.new ≡ pushed mark self.old) }
        ensures refused { OnErr result (self.new ≡ self.old) }
    {
        let set = WriteSet::new(*self.sets.allocator(), mark, self.freed.len());
        self.sets.push(set)?;
        Ok(())
    }

    /// Closes the innermost set; the one around it is the innermost again. What was freed stays in the list. Where there
    /// is no set, nothing happens. It takes no memory.
    pub fn pop(&mut self)
        ensures { self.new ≡ popped self.old }
    {
        let _ = self.sets.pop();
    }

    /// Adds a range behind those of the innermost set, which has to be there (`mark` tells). A refused call, for want of
    /// memory, leaves everything as it was.
    pub fn add_range(
        &mut self,
        tag: u64,
        object: u64,
        from: u64,
        len: u64,
    ) -> Result<(), AllocError>
        requires { IsSome (innermost self.old.sets) }
        ensures ok { OnOk result (self.new ≡ with_range (record { tag = tag; range = record { object = object; from = from; len = len } }) self.old) }
        ensures refused { OnErr result (self.new ≡ self.old) }
    {
        let last = self.sets.len() - 1;
        self.sets[last].add_range(TaggedRange {
            tag,
            object,
            from,
            len,
        })
    }

    /// Adds an object that may be freed behind those of the innermost set, which has to be there (`mark` tells). A
    /// refused call, for want of memory, leaves everything as it was.
    pub fn add_free(&mut self, tag: u64, object: u64) -> Result<(), AllocError>
        requires { IsSome (innermost self.old.sets) }
        ensures ok { OnOk result (self.new ≡ with_free (record { tag = tag; object = object }) self.old) }
        ensures refused { OnErr result (self.new ≡ self.old) }
    {
        let last = self.sets.len() - 1;
        self.sets[last].add_free(TaggedObject { tag, object })
    }

    /// Notes that an object was freed, at the end of the list. A refused call, for want of memory, leaves everything as
    /// it was.
    pub fn note_freed(&mut self, object: u64) -> Result<(), AllocError>
        ensures ok { OnOk result (self.new ≡ with_freed object self.old) }
        ensures refused { OnErr result (self.new ≡ self.old) }
    {
        self.freed.push(object)?;
        Ok(())
    }

    // The set that has so many others within it; none where there is no such set.
    fn set(&self, within: usize) -> Option<&WriteSet>
        ensures { option_copied result ≡ slice_get self.now.sets within }
    {
        let count = self.sets.len();
        if within >= count {
            return None;
        }
        at(&self.sets, count - 1 - within)
    }

    /// Whether the innermost set allows to write these bytes (contracts manual): the object is above its mark, or one of
    /// its ranges has them all. Two ranges never allow a write together, and the sets around don't count. Where there is
    /// no set, the answer is false. It takes no memory.
    pub fn covers(&self, object: u64, from: u64, len: u64) -> bool
        ensures { result ≡ is_write_allowed (innermost self.now.sets) object from len }
    {
        may_write(self.set(0), object, from, len)
    }

    /// Whether the innermost set allows to free the object (contracts manual): it is above the mark, or the set names it.
    /// The sets around don't count. Where there is no set, the answer is false. It takes no memory.
    pub fn may_free(&self, object: u64) -> bool
        ensures { result ≡ is_free_allowed (innermost self.now.sets) object }
    {
        may_free(self.set(0), object)
    }

    /// Whether the next set around the innermost one allows what the innermost one has with this tag (contracts manual):
    /// to write each such range, and to free each such object. Where there is no next set, it allows nothing. Where
    /// nothing has the tag, or there is no set, the answer is true. It takes no memory.
    pub fn inside_below(&self, tag: u64) -> bool
        ensures { result ≡ is_inside_below self.now.sets tag }
    {
        let next = self.set(1);
        match self.set(0) {
            None => true,
            Some(set) => set.ranges_below(next, tag) && set.frees_below(next, tag),
        }
    }

    /// Whether the object was there when the innermost set was made, and was freed since (contracts manual): it is at
    /// most the mark, and in the list behind what was freed before. Where there is no set, the answer is false. It takes
    /// no memory.
    pub fn was_freed(&self, object: u64) -> bool
        ensures { result ≡ is_freed_since (innermost self.now.sets) self.now.freed object }
    {
        match self.set(0) {
            None => false,
            Some(set) => object <= set.mark && is_since(&self.freed, set.start, object),
        }
    }

    /// The mark of the innermost set; none exactly where there is no set. It takes no memory.
    pub fn mark(&self) -> Option<u64>
        ensures { result ≡ option_map (λ set. set.mark) (innermost self.now.sets) }
    {
        match self.set(0) {
            None => None,
            Some(set) => Some(set.mark),
        }
    }

    /// How many ranges the innermost set has; 0 where there is no set. It takes no memory.
    pub fn range_count(&self) -> usize
        ensures { result ≡ length (ranges_of (innermost self.now.sets)) }
    {
        match self.set(0) {
            None => 0,
            Some(set) => set.ranges.len(),
        }
    }

    /// How many objects the innermost set names to be freed; 0 where there is no set. It takes no memory.
    pub fn free_count(&self) -> usize
        ensures { result ≡ length (frees_of (innermost self.now.sets)) }
    {
        match self.set(0) {
            None => 0,
            Some(set) => set.frees.len(),
        }
    }

    /// The object, the first byte and the length of the k-th range of the innermost set, from 0; none exactly where there
    /// is no set, or it has no more than k ranges. It takes no memory.
    pub fn range_at(&self, k: usize) -> Option<(u64, u64, u64)>
        ensures { result ≡ option_map parts_of (slice_get (ranges_of (innermost self.now.sets)) k) }
    {
        match at(&self.set(0)?.ranges, k) {
            None => None,
            Some(range) => Some(range.parts()),
        }
    }

    /// The k-th object that the innermost set names to be freed, from 0; none exactly where there is no set, or it names
    /// no more than k. It takes no memory.
    pub fn free_at(&self, k: usize) -> Option<u64>
        ensures { result ≡ option_map (λ f. f.object) (slice_get (frees_of (innermost self.now.sets)) k) }
    {
        match at(&self.set(0)?.frees, k) {
            None => None,
            Some(free) => Some(free.object),
        }
    }
}
