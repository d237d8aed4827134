//! Blocks cut in two, and joined again.

ghost use Rattle.std.specs.Prelude.{◌≡◌, ◌+◌, ◌<◌, ◌≤◌, length, get_or, take, drop, IfOk, OnOk, OnErr};
ghost use Rattle.flat_model.specs.Flat.{IsClosed, block_at};
ghost use Rattle.edit_model.specs.Writes.{with_ops};
ghost use Rattle.edit_effects.specs.Cuts.{with_cut, joined};

use edit_list::EditList;
use flat_model::BlockId;
use ir_arena::Func;
use std::alloc::Global;
use tree_model::NoMemory;

/// Takes what stands in a block from a place on out of it.
fn take_back(
    func: &mut Func,
    alloc: Global,
    block: BlockId,
    at: usize,
) -> Result<EditList, NoMemory>
    requires block { block < length func.old.flat.blocks }
    requires at { at ≤ length (block_at func.old.flat block).ops }
    ensures back { IfOk result (λ back. back.list ≡ drop at (block_at func.old.flat block).ops) }
    ensures flat { OnOk result (func.new.flat ≡ with_ops func.old.flat block (take at (block_at func.old.flat block).ops)) }
    ensures rooms { func.new.rooms ≡ func.old.rooms }
    ensures room { length (block_at func.old.flat block).ops ≤ get_or func.old.rooms block 0 }
    ensures err { OnErr result (func.new.flat ≡ func.old.flat) }
    ensures closed { IsClosed func.old.flat }
{
    let mut list = func.exchange_ops(block, EditList::new(alloc));
    let _count = list.len();
    match list.split_off(alloc, at) {
        Ok(back) => {
            let _empty = func.exchange_ops(block, list);
            Ok(back)
        }
        Err(e) => {
            let _empty = func.exchange_ops(block, list);
            Err(e)
        }
    }
}

/// Cuts a block in two: what stands in it from a place on stands in a new block.
pub fn cut_off(
    func: &mut Func,
    alloc: Global,
    block: BlockId,
    at: usize,
) -> Result<BlockId, NoMemory>
    requires block { block < length func.old.flat.blocks }
    requires at { at ≤ length (block_at func.old.flat block).ops }
    ensures end { IfOk result (λ end. end ≡ length func.old.flat.blocks) }
    ensures flat { OnOk result (func.new.flat ≡ with_cut func.old.flat block at) }
    ensures rooms { OnOk result (take (length func.old.flat.blocks) func.new.rooms ≡ func.old.rooms) }
    ensures room { OnOk result (length (block_at func.old.flat block).ops ≤ get_or func.old.rooms block 0) }
    ensures err { OnErr result (func.new ≡ func.old) }
    ensures closed { IsClosed func.old.flat }
{
    func.closed();
    let end = func.add_block(alloc)?;
    match take_back(func, alloc, block, at) {
        Ok(back) => {
            let _empty = func.exchange_ops(end, back);
            Ok(end)
        }
        Err(e) => {
            func.drop_blocks(end as usize);
            Err(e)
        }
    }
}

/// Puts what stands in the block `end` back behind what stands in another one, and takes off the blocks from `end` on.
/// This can't fail.
pub fn join_again(func: &mut Func, alloc: Global, block: BlockId, end: BlockId)
    requires block { block < end }
    requires end { end < length func.old.flat.blocks }
    requires room { length (block_at func.old.flat block).ops + length (block_at func.old.flat end).ops ≤ get_or func.old.rooms block 0 }
    requires closed { IsClosed (joined func.old.flat block end) }
    ensures flat { func.new.flat ≡ joined func.old.flat block end }
    ensures rooms { func.new.rooms ≡ take end func.old.rooms }
{
    let back = func.exchange_ops(end, EditList::new(alloc));
    let mut front = func.exchange_ops(block, EditList::new(alloc));
    front.join_back(&back);
    let _empty = func.exchange_ops(block, front);
    func.drop_blocks(end as usize);
}
