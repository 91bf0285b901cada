// The memory, with small objects and many stores and loads.
use dc_memory::{Create, MemKind, ObjKind, Store};
use std::alloc::{AllocError, Global};

const KINDS: [MemKind; 10] = [
    MemKind::Bool,
    MemKind::S8,
    MemKind::U8,
    MemKind::S16,
    MemKind::U16,
    MemKind::S32,
    MemKind::U32,
    MemKind::S64,
    MemKind::U64,
    MemKind::Ptr,
];

// The most objects that there may be, of 8 to 15 bytes.
fn small_objects(alloc: Global) -> Result<Store, Create> {
    let mut store = Store::new(alloc);
    for number in 0..65535u64 {
        store.create(ObjKind::Heap, true, 8 + number % 8)?;
    }
    Ok(store)
}

// Places that are spread over all objects.
fn place_of(turn: u64) -> u64 {
    (1 + turn % 65535 * 40503 % 65535) * 281474976710656 + turn % 4
}

fn stores(store: &mut Store, count: u64) -> u64 {
    let mut stored = 0u64;
    for turn in 0..count {
        let kind = KINDS[(turn % 10) as usize];
        if store.store(place_of(turn), kind, turn as i128 - 500000) {
            stored = stored.wrapping_add(1);
        }
    }
    stored
}

fn loads(store: &Store, count: u64) -> u64 {
    let mut sum = 0u64;
    for turn in 0..count {
        let kind = KINDS[(turn % 10) as usize];
        if let Some(value) = store.load(place_of(turn), kind) {
            sum = sum.wrapping_add(value.rem_euclid(1 << 64) as u64);
        }
    }
    sum
}

/// Creates objects, and stores and loads so many numbers; what came of it, as a line.
pub fn answer(alloc: Global, count: u64) -> Result<String, AllocError> {
    match small_objects(alloc) {
        Ok(mut store) => {
            let stored = stores(&mut store, count);
            let sum = loads(&store, count);
            format!(in alloc; "stored {stored} sum {sum}")
        }
        Err(Create::Full) => String::from_str(alloc, "full"),
        Err(Create::Memory(error)) => Err(error),
    }
}
