// Stores to try, and what is seen of them.
use dc_memory::{Create, MemKind, ObjKind, Store};
use std::alloc::Global;

/// The pointer to the first byte of the first object.
pub const FIRST: u64 = 281474976710656;

/// A store of one object, whose bytes count up from 0.
pub fn counting(alloc: Global, size: u8) -> Result<Store, Create> {
    let mut store = Store::new(alloc);
    store.create(ObjKind::Heap, true, size as u64)?;
    for at in 0..size {
        store.store(FIRST + at as u64, MemKind::U8, at as i128);
    }
    Ok(store)
}

/// Whether an object has these bytes.
pub fn has_bytes(store: &Store, object: u64, bytes: &[u8]) -> bool {
    match store.bytes(object) {
        None => false,
        Some(found) => found == bytes,
    }
}

/// Kills an object that is live and no function, and says whether it was one.
pub fn killed(store: &mut Store, object: u64) -> bool {
    match store.look(object) {
        None | Some((ObjKind::Function, _, _)) | Some((_, false, _)) => false,
        Some((_, true, _)) => {
            store.kill(object);
            true
        }
    }
}
