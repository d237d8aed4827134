//! Blocks put into the list of a region, and taken out again.

ghost use Rattle.std.specs.Prelude.{◌≡◌, ◌+◌, ◌<◌, ◌≤◌, ◌++◌, length, take, drop, OnOk, OnErr};
ghost use Rattle.flat_model.specs.Flat.{AllBelow, IsClosed, blocks_at};
ghost use Rattle.edit_model.specs.Writes.{with_blocks};

use flat_model::{BlockId, RegionId};
use ir_arena::Func;
use std::alloc::Global;
use tree_model::NoMemory;

/// Puts numbers before the one at a place, or at the end.
fn put_in(list: &mut Vec<u32>, at: usize, more: &[u32]) -> Result<(), NoMemory>
    requires { at ≤ length list.old.items }
    ensures ok { OnOk result (list.new.items ≡ take at list.old.items ++ more.now ++ drop at list.old.items) }
    ensures err { OnErr result (list.new.items ≡ list.old.items) }
{
    let behind = list.len() - at;
    list.extend_from_slice(more)?;
    list[at..].rotate_left(behind);
    Ok(())
}

/// Takes so many numbers out, from a place on.
fn take_out(list: &mut Vec<u32>, at: usize, count: usize)
    requires { at + count ≤ length list.old.items }
    ensures { list.new.items ≡ take at list.old.items ++ drop (at + count) list.old.items }
{
    let left = list.len() - count;
    list[at..].rotate_left(count);
    list.truncate(left);
}

/// Puts blocks into a region, before the one at a place or at the end.
pub fn list_blocks(
    func: &mut Func,
    alloc: Global,
    region: RegionId,
    at: usize,
    blocks: &[BlockId],
) -> Result<(), NoMemory>
    requires region { region < length func.old.flat.regions }
    requires at { at ≤ length (blocks_at func.old.flat region) }
    requires blocks { AllBelow (length func.old.flat.blocks) blocks.now }
    ensures flat { OnOk result (func.new.flat ≡ with_blocks func.old.flat region (take at (blocks_at func.old.flat region) ++ blocks.now ++ drop at (blocks_at func.old.flat region))) }
    ensures rooms { func.new.rooms ≡ func.old.rooms }
    ensures err { OnErr result (func.new ≡ func.old) }
    ensures closed { IsClosed func.old.flat }
{
    let mut list = func.exchange_blocks(region, Vec::new(alloc));
    match put_in(&mut list, at, blocks) {
        Ok(()) => {
            let _empty = func.exchange_blocks(region, list);
            Ok(())
        }
        Err(e) => {
            let _empty = func.exchange_blocks(region, list);
            Err(e)
        }
    }
}

/// Takes so many blocks out of a region, from a place on. This can't fail.
pub fn unlist_blocks(func: &mut Func, alloc: Global, region: RegionId, at: usize, count: usize)
    requires region { region < length func.old.flat.regions }
    requires count { at + count ≤ length (blocks_at func.old.flat region) }
    ensures flat { func.new.flat ≡ with_blocks func.old.flat region (take at (blocks_at func.old.flat region) ++ drop (at + count) (blocks_at func.old.flat region)) }
    ensures rooms { func.new.rooms ≡ func.old.rooms }
{
    let mut list = func.exchange_blocks(region, Vec::new(alloc));
    take_out(&mut list, at, count);
    let _empty = func.exchange_blocks(region, list);
}
