//! What a build has so far.

use crate::cells::{BlockCell, RegionCell};
use flat_model::OpNode;
use key_model::Handle;
use std::alloc::Global;

/// The nodes so far. Parts of a tree come before what holds them, and no node is written twice.
#[derive(Drop)]
pub struct Build {
    pub alloc: Global,
    pub ops: Vec<OpNode>,
    pub blocks: Vec<BlockCell>,
    pub regions: Vec<RegionCell>,
    pub types: Vec<Handle>,
}
