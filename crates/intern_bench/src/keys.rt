//! The keys of a kind, by number.

use itoa::Buffer;
use key_model::Key;
use sqlite_items::{Boxed, Items};
use std::alloc::{AllocError, Global};
use tree_model::{AttrTree, Dim, Name, TypeTree, one};

/// `N : i32`
fn number_key(number: u32) -> Key {
    Key::OfAttr(AttrTree::Int(i64::from(number), TypeTree::Int(32)))
}

/// `memref<Nx?xi32>`
fn buffer_key(alloc: Global, number: u32) -> Result<Key, AllocError> {
    let dims = Items::from_slice(alloc, &[Dim::Fixed(u64::from(number)), Dim::Dynamic])?;
    let element = Boxed::new(alloc, TypeTree::Int(32))?;
    Ok(Key::OfType(TypeTree::Memref(dims, element)))
}

/// `#arith.overflow<N>`
fn word_key(alloc: Global, number: u32) -> Result<Key, AllocError> {
    let mut digits = Buffer::new();
    let word = Name::from_slice(alloc, digits.format(number).as_bytes())?;
    let name = Name::from_slice(alloc, b"arith.overflow")?;
    Ok(Key::OfAttr(AttrTree::Dialect(name, one(alloc, word)?)))
}

/// The key of a number, of kind 0, 1 or 2, or of one after another.
pub fn key_of(alloc: Global, kind: u32, number: u32) -> Result<Key, AllocError> {
    let kind = if kind < 3 { kind } else { number % 3 };
    match kind {
        0 => Ok(number_key(number)),
        1 => buffer_key(alloc, number),
        _ => word_key(alloc, number),
    }
}
