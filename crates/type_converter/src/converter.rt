//! A converter and its pairs.

use key_model::Handle;
use std::alloc::Global;
use std::collections::HashMap;

/// What converts types where an index has so many bits. It keeps the handles that it has converted, each with that of its
/// new type, so it stays with one interner's table.
#[derive(Drop)]
pub struct TypeConverter {
    pub(crate) alloc: Global,
    pub(crate) bits: u32,
    pub(crate) pairs: HashMap<Handle, Handle>,
}
