//! The tables of all shards.

ghost use Rattle.std.specs.Prelude.{◌≡◌, ◌<◌, ◌≤◌, ℕ, Some, length, slice_get};
ghost use Rattle.intern_api.specs.declared.shard_table.ShardTable.{ShardTable};
ghost use Rattle.intern_api.specs.Held.{AreKeys};

use crate::shard_table::ShardTable;
use std::alloc::Global;

/// The tables of all shards, with one cap. Each entry stands for a key.
#[derive(Drop)]
pub struct Tables {
    pub(crate) alloc: Global,
    pub(crate) shards: u32,
    pub(crate) cap: Option<u32>,
    pub(crate) list: Vec<ShardTable>,
    pub ghost some: { 0 < shards },
    pub ghost few: { shards ≤ 16 },
    pub ghost sized: { length list.items ≡ shards },
    pub ghost numbered: { (k : ℕ) (t : ShardTable) → slice_get list.items k ≡ Some t → t.shard ≡ k },
    pub ghost capped: { (k : ℕ) (t : ShardTable) → slice_get list.items k ≡ Some t → t.cap ≡ cap },
    pub ghost keys: { AreKeys shards list.items },
}
