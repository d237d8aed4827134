//! The interner of one worker.

ghost use Rattle.intern_api.specs.Knowing.{AreKnown};

use crate::tables::Tables;
use key_model::{Handle, Key};
use std::collections::HashMap;

/// An interner that owns its tables.
#[derive(Drop)]
pub struct PlainInterner {
    pub(crate) tables: Tables,
    // Handles that were given lately. They save a walk through the tables.
    pub(crate) recent: HashMap<Key, Handle>,
    pub ghost known: { AreKnown tables recent },
}
