// What is read and written in a store.
ghost use Rattle.std.specs.Prelude.{◌≡◌, ◌≢◌, true, length, replicate, IfSome};
ghost use Rattle.dc_memory.specs.Kinds.{IsValue};
ghost use Rattle.dc_memory.specs.Places.{object_of, is_inside, range_bytes, written};
ghost use Rattle.dc_memory.specs.Access.{load, store, copied, filled, IsWritten};

use crate::bytes::Bytes;
use crate::encoding::{all_bytes, bits_value, number_of, value_bits};
use crate::kind::MemKind;
use crate::pointer::{object_number, offset};
use crate::store::Store;
use std::mem;

impl Store {
    /// The value of the kind at a place; none exactly where its bytes aren't wholly inside one live object
    /// (C11 6.2.6.1). A `_Bool` is 1 where its byte isn't 0.
    #[tactic(auto, unfolding(crate::specs::Access::load))]
    pub fn load(&self, ptr: u64, kind: MemKind) -> Option<i128>
        ensures value { result ≡ load kind ptr self.now }
        ensures valued { IfSome result (λ z. IsValue kind z) }
    {
        let object = self.object(object_number(ptr))?;
        let from = offset(ptr);
        let len = kind.size();
        if !object.holds(from, len) {
            return None;
        }
        let bytes = &object.bytes.as_slice()[from as usize..(from + len) as usize];
        Some(bits_value(kind, number_of(bytes)))
    }

    /// Converts a number to the kind and writes it at a place, its bytes alone, and says whether it did: false comes
    /// exactly where they aren't wholly inside one live object, and then nothing has changed (C11 6.2.6.1, 6.3.1).
    #[tactic(auto, unfolding(crate::specs::Access::store))]
    pub fn store(&mut self, ptr: u64, kind: MemKind, v: i128) -> bool
        ensures { IsWritten result (store kind ptr v self.old) self.old self.new }
    {
        let len = kind.size();
        if !self.inside(ptr, len) {
            return false;
        }
        let bytes = all_bytes(value_bits(kind, v));
        self.put(ptr, &bytes[..len as usize]);
        true
    }

    /// Copies so many bytes from one place to another, as if through a buffer, and says whether it did: false comes exactly
    /// where one of the ranges isn't wholly inside one live object, and then nothing has changed (C11 7.24.2.2).
    #[tactic(auto, unfolding(crate::specs::Access::copied))]
    pub fn copy(&mut self, to: u64, from: u64, len: u64) -> bool
        ensures { IsWritten result (copied to from len self.old) self.old self.new }
    {
        if !self.inside(to, len) || !self.inside(from, len) {
            return false;
        }
        if object_number(to) == object_number(from) {
            self.copy_within(to, from, len);
        } else {
            self.copy_across(to, from, len);
        }
        true
    }

    /// Writes a byte to each place of a range, and says whether it did: false comes exactly where the range isn't wholly
    /// inside one live object, and then nothing has changed (C11 7.24.6.1).
    #[tactic(auto, unfolding(crate::specs::Access::filled))]
    pub fn fill(&mut self, to: u64, byte: u8, len: u64) -> bool
        ensures { IsWritten result (filled to byte len self.old) self.old self.new }
    {
        if !self.inside(to, len) {
            return false;
        }
        self.fill_range(to, byte, len);
        true
    }

    /// Writes these bytes at a place where they are wholly inside one live object.
    pub fn put(&mut self, ptr: u64, values: &[u8])
        requires { is_inside self.old ptr (length values.now) ≡ true }
        ensures { self.new ≡ written ptr values.now self.old }
    {
        let number = object_number(ptr);
        self.objects[(number - 1) as usize]
            .bytes
            .put(offset(ptr) as usize, values);
    }

    // Writes a byte to each place of a range.
    fn fill_range(&mut self, ptr: u64, byte: u8, len: u64)
        requires { is_inside self.old ptr len ≡ true }
        ensures { self.new ≡ written ptr (replicate len byte) self.old }
    {
        let number = object_number(ptr);
        self.objects[(number - 1) as usize]
            .bytes
            .fill(offset(ptr) as usize, len as usize, byte);
    }

    // Copies bytes within one object.
    fn copy_within(&mut self, to: u64, from: u64, len: u64)
        requires target { is_inside self.old to len ≡ true }
        requires source { is_inside self.old from len ≡ true }
        requires same { object_of to ≡ object_of from }
        ensures { self.new ≡ written to (range_bytes self.old from len) self.old }
    {
        let number = object_number(to);
        self.objects[(number - 1) as usize]
            .bytes
            .copy_within(offset(to) as usize, offset(from) as usize, len as usize);
    }

    // Copies bytes from one object to another one.
    fn copy_across(&mut self, to: u64, from: u64, len: u64)
        requires target { is_inside self.old to len ≡ true }
        requires source { is_inside self.old from len ≡ true }
        requires apart { object_of to ≢ object_of from }
        ensures { self.new ≡ written to (range_bytes self.old from len) self.old }
    {
        let alloc = *self.objects.allocator();
        let at = (object_number(to) - 1) as usize;
        let mut bytes = mem::replace(&mut self.objects[at].bytes, Bytes::empty(alloc));
        let start = offset(from) as usize;
        let source = &self.objects[(object_number(from) - 1) as usize].bytes;
        bytes.put(
            offset(to) as usize,
            &source.as_slice()[start..start + len as usize],
        );
        self.objects[at].bytes = bytes;
    }
}
