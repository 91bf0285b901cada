// Write sets.
ghost use Rattle.std.specs.Prelude.{◌≡◌, OnOk, [], map};
ghost use Rattle.dc_core.specs.Contract.{allowed as is_allowed, contains, some_contains, denoted, with_ranges, new_set};
ghost use Rattle.dc_world.specs.Sets.{range_view, ranges_view, set_view};

use dc_memory::{Store, object_number, offset};
use std::alloc::{AllocError, Global};

/// Bytes of an object that may be written, with the number of the target that denotes them.
#[derive(Clone, Copy, Debug)]
pub struct Range {
    pub tag: u64,
    pub object: u64,
    pub from: u64,
    pub len: u64,
}

/// What may be written: ranges, and each object above the mark.
#[derive(Debug, Drop)]
pub struct WriteSet {
    pub mark: u64,
    pub ranges: Vec<Range>,
}

impl Range {
    // Whether the range has all these bytes.
    fn contains(&self, object: u64, from: u64, len: u64) -> bool
        ensures { result ≡ contains (range_view self.now) object from len }
    {
        self.object == object
            && (self.from <= from
                && from as u128 + len as u128 <= self.from as u128 + self.len as u128)
    }
}

// Whether one of the ranges has all these bytes.
fn some_range_contains(ranges: &[Range], object: u64, from: u64, len: u64) -> bool
    ensures { result ≡ some_contains (ranges_view ranges.now) object from len }
{
    for range in ranges {
        if range.contains(object, from, len) {
            return true;
        }
    }
    false
}

impl WriteSet {
    /// A set without ranges, whose mark is the number of objects of this moment. It takes no memory.
    pub fn new(alloc: Global, memory: &Store) -> WriteSet
        ensures { set_view result ≡ new_set memory.now }
    {
        WriteSet {
            mark: memory.count(),
            ranges: Vec::new(alloc),
        }
    }

    /// Whether a write is allowed: its object is above the mark, or one range has it whole.
    pub fn allows(&self, object: u64, from: u64, len: u64) -> bool
        ensures { result ≡ is_allowed (set_view self.now) object from len }
    {
        self.mark < object || some_range_contains(self.ranges.as_slice(), object, from, len)
    }

    /// Adds what a target denotes: a range where the test holds and there is a place and a length, and the range isn't
    /// empty and is wholly inside one live object.
    pub fn add(
        &mut self,
        memory: &Store,
        tag: u64,
        test: bool,
        place: Option<u64>,
        len: Option<u64>,
    ) -> Result<(), AllocError>
        ensures { OnOk result (set_view self.new ≡ with_ranges (denoted tag memory.now test place len) (set_view self.old)) }
    {
        let (Some(pointer), Some(len)) = (place, len) else {
            return Ok(());
        };
        if !(test && len > 0 && memory.inside(pointer, len)) {
            return Ok(());
        }
        self.ranges.push(Range {
            tag,
            object: object_number(pointer),
            from: offset(pointer),
            len,
        })?;
        Ok(())
    }
}
