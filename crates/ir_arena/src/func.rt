//! Functions.

use crate::cells::{BlockCell, RegionCell};
use flat_model::OpNode;
use key_model::Handle;
use std::marker::Model;

/// A function: its operations, blocks, regions and values by their numbers, and the operation that holds all others.
/// Its types and attributes are handles of some interner.
#[derive(Debug, Drop)]
pub struct Func {
    pub(crate) ops: Vec<OpNode>,
    pub(crate) blocks: Vec<BlockCell>,
    pub(crate) regions: Vec<RegionCell>,
    pub(crate) types: Vec<Handle>,
    pub(crate) root: u32,
}

impl Model for Func {
    ghost use Rattle.flat_model.specs.Flat.{IsClosed};
    ghost use Rattle.ir_arena.specs.Arena.{Arena, flat_of, rooms_of};

    ghost Value = { Arena };

    ghost view = { λ f. record { flat = flat_of f.ops.items f.blocks.items f.regions.items f.types.items f.root; rooms = rooms_of f.blocks.items } };

    ghost invariant = { λ f. IsClosed (flat_of f.ops.items f.blocks.items f.regions.items f.types.items f.root) };
}
