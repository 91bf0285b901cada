// One set.
ghost use Rattle.std.specs.Prelude.{◌≡◌, OnErr, OnOk};
ghost use Rattle.std.specs.List.{list_all};
ghost use Rattle.std.specs.Option.{option_copied};
ghost use Rattle.dc_memory.specs.Context.{is_allowed, is_freeable};
ghost use Rattle.dc_writeset.specs.Sets.{context_of, empty_set, is_free_allowed, is_object_below, is_range_below, is_write_allowed, set_with_free, set_with_range};

use crate::named::{TaggedObject, TaggedRange, some_has, some_is};
use std::alloc::{AllocError, Global};
use std::marker::Model;

// A mark, what the set names, and how many objects had been freed when it was made.
#[derive(Drop)]
pub(crate) struct WriteSet {
    pub(crate) mark: u64,
    pub(crate) ranges: Vec<TaggedRange>,
    pub(crate) frees: Vec<TaggedObject>,
    pub(crate) start: usize,
}

impl Model for WriteSet {
    ghost use Rattle.dc_writeset.specs.Sets.{PlainSet};

    ghost Value = { PlainSet };

    ghost view = { λ s. record { mark = s.mark; ranges = s.ranges.items; frees = s.frees.items; start = s.start } };
}

impl WriteSet {
    // A set that names nothing. It takes no memory.
    pub(crate) fn new(alloc: Global, mark: u64, start: usize) -> WriteSet
        ensures { result ≡ empty_set mark start }
    {
        WriteSet {
            mark,
            ranges: Vec::new(alloc),
            frees: Vec::new(alloc),
            start,
        }
    }

    // Adds a range behind the others. A refused call leaves the set as it was.
    pub(crate) fn add_range(&mut self, range: TaggedRange) -> Result<(), AllocError>
        ensures ok { OnOk result (self.new ≡ set_with_range range self.old) }
        ensures refused { OnErr result (self.new ≡ self.old) }
    {
        self.ranges.push(range)?;
        Ok(())
    }

    // Adds an object behind the others. A refused call leaves the set as it was.
    pub(crate) fn add_free(&mut self, object: TaggedObject) -> Result<(), AllocError>
        ensures ok { OnOk result (self.new ≡ set_with_free object self.old) }
        ensures refused { OnErr result (self.new ≡ self.old) }
    {
        self.frees.push(object)?;
        Ok(())
    }

    // Whether the set allows to write these bytes.
    fn allows_write(&self, object: u64, from: u64, len: u64) -> bool
        ensures { result ≡ is_allowed (context_of self.now) object from len }
    {
        self.mark < object || some_has(&self.ranges, object, from, len)
    }

    // Whether the set allows to free the object.
    fn allows_free(&self, object: u64) -> bool
        ensures { result ≡ is_freeable (context_of self.now) object }
    {
        self.mark < object || some_is(&self.frees, object)
    }

    // Whether the next set allows to write the ranges of this one that have the tag.
    pub(crate) fn ranges_below(&self, next: Option<&WriteSet>, tag: u64) -> bool
        ensures { result ≡ list_all (is_range_below (option_copied next.entry) tag) self.now.ranges }
    {
        for range in &self.ranges {
            if range.tag == tag && !may_write(next, range.object, range.from, range.len) {
                return false;
            }
        }
        true
    }

    // Whether the next set allows to free the objects of this one that have the tag.
    pub(crate) fn frees_below(&self, next: Option<&WriteSet>, tag: u64) -> bool
        ensures { result ≡ list_all (is_object_below (option_copied next.entry) tag) self.now.frees }
    {
        for free in &self.frees {
            if free.tag == tag && !may_free(next, free.object) {
                return false;
            }
        }
        true
    }
}

// Whether there is a set, and it allows to write these bytes.
pub(crate) fn may_write(set: Option<&WriteSet>, object: u64, from: u64, len: u64) -> bool
    ensures { result ≡ is_write_allowed (option_copied set.entry) object from len }
{
    match set {
        None => false,
        Some(set) => set.allows_write(object, from, len),
    }
}

// Whether there is a set, and it allows to free the object.
pub(crate) fn may_free(set: Option<&WriteSet>, object: u64) -> bool
    ensures { result ≡ is_free_allowed (option_copied set.entry) object }
{
    match set {
        None => false,
        Some(set) => set.allows_free(object),
    }
}
