//! Keys for the tests, and what is shown of an interner.

use intern_api::{InternFault, PlainInterner};
use key_model::Key;
use sqlite_items::Boxed;
use std::alloc::Global;
use tree_model::{NoMemory, TypeTree, one};

/// `iN`
pub fn int(width: u32) -> Key {
    Key::OfType(TypeTree::Int(width))
}

/// `!llvm.struct<(i1)>`
pub fn single(alloc: Global) -> Result<Key, NoMemory> {
    let fields = one(alloc, TypeTree::Int(1))?;
    Ok(Key::OfType(TypeTree::Struct(fields)))
}

/// `!llvm.struct<(i1, i1)>`
pub fn double(alloc: Global) -> Result<Key, NoMemory> {
    let mut fields = one(alloc, TypeTree::Int(1))?;
    fields.push(TypeTree::Int(1))?;
    Ok(Key::OfType(TypeTree::Struct(fields)))
}

/// `i1` in so many arrays.
pub fn nested(alloc: Global, depth: u32) -> Result<Key, NoMemory> {
    let mut element = TypeTree::Int(1);
    for _ in 0..depth {
        element = TypeTree::Array(1, Boxed::new(alloc, element)?);
    }
    Ok(Key::OfType(element))
}

/// Whether the key gets this shard and place.
pub fn stands(interner: &mut PlainInterner, key: &Key, shard: u32, place: u64) -> bool {
    match interner.intern(key) {
        Ok(handle) => handle.shard() == shard && handle.place() == place,
        Err(_) => false,
    }
}

/// Whether `iN` gets this shard and place.
pub fn int_stands(interner: &mut PlainInterner, width: u32, shard: u32, place: u64) -> bool {
    let key = int(width);
    stands(interner, &key, shard, place)
}

/// Whether the shard of `iN` is full with so many.
pub fn int_is_full(interner: &mut PlainInterner, width: u32, count: u32) -> bool {
    let key = int(width);
    interner.intern(&key) == Err(InternFault::Full { count })
}
