//! Functions that are written node by node.

ghost use Rattle.std.specs.Prelude.{◌≡◌, ◌<◌, ◌∷◌, [], ◌++◌, length, set, IfSome, IfNone, IfOk, OnOk, OnErr};
ghost use Rattle.flat_model.specs.Flat.{IsClosed};
ghost use Rattle.edit_model.specs.Writes.{with_value};
ghost use Rattle.ir_arena.specs.Building.{blank_nodes, block_of};

use crate::cells::BlockCell;
use crate::closing::is_closed;
use crate::fresh::Build;
use crate::from_trees::blank;
use crate::func::Func;
use crate::pushing::{push_block, push_op, push_region, push_value};
use edit_list::EditList;
use flat_model::{BlockId, OpId, OpNode, RegionId, ValueId};
use key_model::Handle;
use std::alloc::Global;
use std::marker::Model;
use tree_model::NoMemory;

/// A function that is being written. Each new node gets the next number of its kind, and may name what comes later:
/// only at the end each number has to name something.
#[derive(Drop)]
pub struct FuncBuilder {
    build: Build,
}

impl Model for FuncBuilder {
    ghost use Rattle.flat_model.specs.Flat.{Flat};
    ghost use Rattle.ir_arena.specs.Building.{nodes_of};

    ghost Value = { Flat };

    ghost view = { λ b. nodes_of b.build };
}

impl FuncBuilder {
    /// No nodes yet.
    pub fn new(alloc: Global) -> FuncBuilder
        ensures { result ≡ blank_nodes }
    {
        FuncBuilder {
            build: blank(alloc),
        }
    }

    /// One value more, of a type.
    pub fn add_value(&mut self, ty: Handle) -> Result<ValueId, NoMemory>
        ensures value { IfOk result (λ value. value ≡ length self.old.types) }
        ensures ok { OnOk result (self.new ≡ with_value self.old ty) }
        ensures err { OnErr result (self.new ≡ self.old) }
    {
        push_value(&mut self.build, ty)
    }

    /// One operation more.
    pub fn add_op(&mut self, node: OpNode) -> Result<OpId, NoMemory>
        ensures op { IfOk result (λ op. op ≡ length self.old.ops) }
        ensures ok { OnOk result (self.new ≡ record self.old { ops = self.old.ops ++ node ∷ [] }) }
        ensures err { OnErr result (self.new ≡ self.old) }
    {
        push_op(&mut self.build, node)
    }

    /// One block more, with these arguments and operations.
    pub fn add_block(&mut self, args: Vec<ValueId>, ops: Vec<OpId>) -> Result<BlockId, NoMemory>
        ensures block { IfOk result (λ block. block ≡ length self.old.blocks) }
        ensures ok { OnOk result (self.new ≡ record self.old { blocks = self.old.blocks ++ block_of args.items ops.items ∷ [] }) }
        ensures err { OnErr result (self.new ≡ self.old) }
    {
        let ops = EditList::from_vec(ops);
        push_block(&mut self.build, BlockCell { args, ops })
    }

    /// Gives a block these arguments and operations, in place of those that it has.
    pub fn fill_block(&mut self, block: BlockId, args: Vec<ValueId>, ops: Vec<OpId>)
        requires { block < length self.old.blocks }
        ensures { self.new ≡ record self.old { blocks = set self.old.blocks block (block_of args.items ops.items) } }
    {
        let ops = EditList::from_vec(ops);
        self.build.blocks[block as usize] = BlockCell { args, ops };
    }

    /// One region more, with these blocks.
    pub fn add_region(&mut self, blocks: Vec<BlockId>) -> Result<RegionId, NoMemory>
        ensures region { IfOk result (λ region. region ≡ length self.old.regions) }
        ensures ok { OnOk result (self.new ≡ record self.old { regions = self.old.regions ++ blocks.items ∷ [] }) }
        ensures err { OnErr result (self.new ≡ self.old) }
    {
        push_region(&mut self.build, blocks)
    }

    /// The function, with this operation as the one that holds all others, where each number names something in it.
    pub fn finish(self, root: OpId) -> Option<Func>
        ensures some { IfSome result (λ f. f.flat ≡ record self { root = root }) }
        ensures none { IfNone result (¬ IsClosed (record self { root = root })) }
    {
        if !is_closed(&self.build, root) {
            return None;
        }
        let FuncBuilder { build } = self;
        let Build {
            alloc: _,
            ops,
            blocks,
            regions,
            types,
        } = build;
        Some(Func {
            ops,
            blocks,
            regions,
            types,
            root,
        })
    }
}
