// What a set names: ranges of bytes and objects, each with the number of the target that denoted it.
ghost use Rattle.std.specs.Prelude.{◌≡◌, drop, map};
ghost use Rattle.dc_memory.specs.Context.{contains, is_among, some_contains};
ghost use Rattle.dc_writeset.specs.Sets.{parts_of};

use std::marker::Model;

// Bytes of an object, with a tag.
#[derive(Drop)]
pub(crate) struct TaggedRange {
    pub(crate) tag: u64,
    pub(crate) object: u64,
    pub(crate) from: u64,
    pub(crate) len: u64,
}

impl Model for TaggedRange {
    ghost use Rattle.dc_writeset.specs.Sets.{TaggedRange};

    ghost Value = { TaggedRange };

    ghost view = { λ r. record { tag = r.tag; range = record { object = r.object; from = r.from; len = r.len } } };
}

impl TaggedRange {
    // Whether it has all these bytes. Both ends may be beyond 64 bits.
    fn contains(&self, object: u64, from: u64, len: u64) -> bool
        ensures { result ≡ contains self.now.range object from len }
    {
        self.object == object
            && self.from <= from
            && from as u128 + len as u128 <= self.from as u128 + self.len as u128
    }

    // The object, the first byte and the length.
    pub(crate) fn parts(&self) -> (u64, u64, u64)
        ensures { result ≡ parts_of self.now }
    {
        (self.object, self.from, self.len)
    }
}

// An object, with a tag.
#[derive(Drop)]
pub(crate) struct TaggedObject {
    pub(crate) tag: u64,
    pub(crate) object: u64,
}

impl Model for TaggedObject {
    ghost use Rattle.dc_writeset.specs.Sets.{TaggedObject};

    ghost Value = { TaggedObject };

    ghost view = { λ f. record { tag = f.tag; object = f.object } };
}

// Whether one of the ranges has all these bytes.
pub(crate) fn some_has(ranges: &[TaggedRange], object: u64, from: u64, len: u64) -> bool
    ensures { result ≡ some_contains (map (λ r. r.range) ranges.now) object from len }
{
    for range in ranges {
        if range.contains(object, from, len) {
            return true;
        }
    }
    false
}

// Whether the object is one of these.
pub(crate) fn some_is(objects: &[TaggedObject], object: u64) -> bool
    ensures { result ≡ is_among object (map (λ f. f.object) objects.now) }
{
    for tagged in objects {
        if tagged.object == object {
            return true;
        }
    }
    false
}

// The objects from an index on.
fn since(objects: &[u64], start: usize) -> &[u64]
    ensures { result.now ≡ drop start objects.now }
{
    if start < objects.len() {
        &objects[start..]
    } else {
        &[]
    }
}

// Whether the object is one of these, from an index on.
pub(crate) fn is_since(objects: &[u64], start: usize, object: u64) -> bool
    ensures { result ≡ is_among object (drop start objects.now) }
{
    for listed in since(objects, start) {
        if *listed == object {
            return true;
        }
    }
    false
}
