//! The table of one shard: its entries in order, and an index of them.

ghost use Rattle.std.specs.Prelude.{◌≡◌, ◌<◌, ◌≤◌, ◌^◌, ℕ, Some, length};
ghost use Rattle.key_model.specs.declared.entry.Entry.{Entry};
ghost use Rattle.intern_api.specs.Entries.{AreDistinct};

use indexmap::IndexSet;
use key_model::Entry;

/// The entries of one shard. Each entry stands once.
#[derive(Drop)]
pub struct ShardTable {
    pub(crate) shard: u32,
    pub(crate) shards: u32,
    pub(crate) cap: Option<u32>,
    pub(crate) entries: IndexSet<Entry>,
    pub ghost distinct: { AreDistinct entries.keys },
    pub ghost small: { length entries.keys < 2 ^ 32 },
    pub ghost low: { shard < 16 },
    pub ghost few: { (most : ℕ) → cap ≡ Some most → length entries.keys ≤ most },
}
