// The store: objects by their numbers.
ghost use Rattle.std.specs.Prelude.{◌≡◌, ◌<◌, ◌≤◌, ◌+◌, ◌↔◌, true, false, [], ◌∷◌, ◌++◌, length, nat_eq, option_map, option_copied, IfOk, OnOk, OnErr, Err, IfSome, Some};
ghost use Rattle.dc_memory.specs.declared.store.Create.TheVariants.{Memory};
ghost use Rattle.dc_memory.specs.Objects.{IsMemory, IsObject, created, function_kind, holding, killed, object_at, changed, is_live, is_function, seen as seen_of};
ghost use Rattle.dc_memory.specs.Places.{is_inside};

use crate::bytes::Bytes;
use crate::object::{ObjKind, Object};
use crate::pointer::{object_number, offset};
use sqlite_items::at;
use std::alloc::{AllocError, Global};
use std::marker::Model;
use thiserror::Error;

/// Why an object isn't created.
#[derive(Debug, Drop, Error)]
pub enum Create {
    /// There are 65,535 objects, and there may be no more.
    #[error("full")]
    Full,

    /// There was no memory.
    #[error("memory")]
    Memory(AllocError),
}

impl From<AllocError> for Create {
    ghost from_gives = { λ e create. create ≡ Memory e };

    fn from(error: AllocError) -> Self {
        Create::Memory(error)
    }
}

/// Objects, numbered from 1 in the order of their creation: at most 65,535, each of at most 16,777,216 bytes. Contracts
/// see the list of them.
#[derive(Drop)]
pub struct Store {
    pub(crate) objects: Vec<Object>,
}

impl Model for Store {
    ghost use Rattle.dc_memory.specs.Objects.{Memory, IsMemory};

    ghost Value = { Memory };

    ghost view = { λ store. store.objects.items };

    ghost invariant = { λ store. IsMemory store.objects.items };
}

impl Store {
    /// A store without objects. It takes no memory.
    pub fn new(alloc: Global) -> Store
        ensures { result ≡ [] }
    {
        Store {
            objects: Vec::new(alloc),
        }
    }

    /// How many objects there are, the dead ones too.
    pub fn count(&self) -> u64
        ensures value { result ≡ length self.now }
        ensures few { result ≤ 65535 }
        ensures memory { IsMemory self.now }
    {
        self.objects.len() as u64
    }

    // Whether there may be no more objects.
    fn is_full(&self) -> bool
        ensures value { result ≡ nat_eq (length self.now) 65535 }
        ensures memory { IsMemory self.now }
    {
        self.objects.len() == 65535
    }

    // Adds an object where there may be one more, and answers its number.
    fn add(&mut self, object: Object) -> Result<u64, AllocError>
        requires few { length self.old < 65535 }
        requires formed { IsObject object }
        ensures number { IfOk result (λ number. number ≡ length self.old + 1) }
        ensures ok { OnOk result (self.new ≡ self.old ++ object ∷ []) }
        ensures refused { OnErr result (self.new ≡ self.old) }
    {
        self.objects.push(object)?;
        Ok(self.objects.len() as u64)
    }

    /// Adds an object of so many bytes, all zero, and answers its number: one more than there were. It has at most
    /// 16,777,216 bytes, none where it is dead, and a function is live and has none. `Full` comes exactly where there are
    /// 65,535 objects, and `Memory` where there is no memory; after either nothing has changed.
    pub fn create(&mut self, kind: ObjKind, live: bool, size: u64) -> Result<u64, Create>
        requires small { size ≤ 16777216 }
        requires dead { live ≡ false → size ≡ 0 }
        requires function { kind ≡ ObjKind.Function → (live ≡ true) × (size ≡ 0) }
        ensures number { IfOk result (λ number. number ≡ length self.old + 1) }
        ensures ok { IfOk result (λ _. self.new ≡ self.old ++ created kind live size ∷ []) }
        ensures full { (result ≡ Err Create.Full) ↔ (length self.old ≡ 65535) }
        ensures refused { OnErr result (self.new ≡ self.old) }
    {
        if self.is_full() {
            return Err(Create::Full);
        }
        let alloc = *self.objects.allocator();
        let bytes = Bytes::zeros(alloc, size as usize)?;
        Ok(self.add(Object { kind, live, bytes })?)
    }

    /// Adds a live object of these bytes, at most 16,777,216, which is no function, and answers its number: one more than
    /// there were. `Full` comes exactly where there are 65,535 objects, and `Memory` where there is no memory; after
    /// either nothing has changed.
    pub fn create_with(&mut self, kind: ObjKind, bytes: Vec<u8>) -> Result<u64, Create>
        requires small { length bytes.items ≤ 16777216 }
        requires plain { function_kind kind ≡ false }
        ensures number { IfOk result (λ number. number ≡ length self.old + 1) }
        ensures ok { IfOk result (λ _. self.new ≡ self.old ++ holding kind bytes.items ∷ []) }
        ensures full { (result ≡ Err Create.Full) ↔ (length self.old ≡ 65535) }
        ensures refused { OnErr result (self.new ≡ self.old) }
    {
        if self.is_full() {
            return Err(Create::Full);
        }
        let bytes = Bytes::of(bytes);
        let live = true;
        Ok(self.add(Object { kind, live, bytes })?)
    }

    /// Makes a live object dead that is no function. It keeps its number and its kind, and its bytes are gone
    /// (C11 6.2.4, 7.22.3.3).
    pub fn kill(&mut self, object: u64)
        requires live { is_live self.old object ≡ true }
        requires plain { is_function self.old object ≡ false }
        ensures { self.new ≡ changed object killed self.old }
    {
        let alloc = *self.objects.allocator();
        self.objects[(object - 1) as usize].kill(alloc);
    }

    // The object of a number.
    pub(crate) fn object(&self, number: u64) -> Option<&Object>
        ensures value { option_copied result ≡ object_at self.now number }
        ensures memory { IsMemory self.now }
    {
        let objects = self.objects.as_slice();
        if number == 0 {
            return None;
        }
        at(objects, (number - 1) as usize)
    }

    /// The kind of an object, whether it is live, and its size in bytes; none exactly where no object has the number.
    pub fn look(&self, object: u64) -> Option<(ObjKind, bool, u64)>
        ensures value { result ≡ option_map seen_of (object_at self.now object) }
        ensures small { IfSome result (λ seen. seen.2 ≤ 16777216) }
    {
        match self.object(object) {
            None => None,
            Some(found) => Some(found.seen()),
        }
    }

    /// Whether a range of bytes is wholly inside one live object. An empty range needs a live object too, and an offset
    /// that is at most its size.
    pub fn inside(&self, ptr: u64, len: u64) -> bool
        ensures { result ≡ is_inside self.now ptr len }
    {
        match self.object(object_number(ptr)) {
            None => false,
            Some(object) => object.holds(offset(ptr), len),
        }
    }

    /// The bytes of an object; none exactly where no object has the number.
    pub fn bytes(&self, object: u64) -> Option<&[u8]>
        ensures { option_copied result ≡ option_map (λ found. found.bytes) (object_at self.now object) }
    {
        match self.object(object) {
            None => None,
            Some(found) => Some(found.bytes.as_slice()),
        }
    }
}
