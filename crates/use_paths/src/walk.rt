//! The walk over the operations of a function.
#![tactic(auto, using(crate::proofs::Stack::stack))]

ghost use Rattle.std.specs.Prelude.{◌≡◌, ◌+◌, ◌↔◌, None, IfOk, OnOk, true, [], ◌∷◌, map};
ghost use Rattle.std.specs.List.{All};
ghost use Rattle.plain_tree.specs.Ops.{blocks_in, ops_in, plain_op, regions_in};
ghost use Rattle.rule_model.specs.Words.{AnyOf};
ghost use Rattle.value_types.specs.Trees.{plain_block, plain_region};
ghost use Rattle.first_places.specs.First.{FirstAt};
ghost use Rattle.use_paths.specs.Levels.{known_of, Missed, spot_at, with_block, with_left, without_first};
ghost use Rattle.use_paths.specs.Uses.{blocks_uses, FoundBy, InBlock, InRegion, Misses, op_uses, ops_uses, Passes, regions_uses, use_at};
ghost use Rattle.use_paths.specs.Views.{HomeBy, IsRight, spots_in};

use crate::homes::Home;
use crate::level::Level;
use crate::region::region_of;
use std::alloc::{AllocError, Global};
use tree_model::{BlockTree, NoMemory, OpTree, RegionTree};

/// Where a value is defined, and in which of the regions around, the outermost at 0.
#[derive(Clone, Copy)]
pub struct HomeLevel {
    pub depth: usize,
    pub home: Home,
}

/// Where the walk is: the places in the regions around, the innermost last, how many operations were passed, and the number of the
/// first that uses something which isn't defined there.
#[derive(Drop)]
pub struct Walk {
    pub levels: Vec<Level>,
    pub count: usize,
    pub found: Option<usize>,
}

impl Walk {
    fn new(alloc: Global) -> Walk
        ensures right { All IsRight result.levels.items }
        ensures spots { spots_in result.levels.items ≡ [] }
        ensures count { result.count ≡ 0 }
        ensures found { result.found ≡ None }
    {
        Walk {
            levels: Vec::new(alloc),
            count: 0,
            found: None,
        }
    }

    /// The region around that defines a value, the innermost one, and where it does.
    fn home_of(&self, value: u32) -> Option<HomeLevel>
        ensures { HomeBy self.now.levels.items value result }
    {
        let mut depth = self.levels.len();
        while depth > 0 {
            depth -= 1;
            if let Some(home) = self.levels[depth].home(value) {
                return Some(HomeLevel { depth, home });
            }
        }
        None
    }

    /// Whether a value isn't defined here.
    fn is_missed(&mut self, alloc: Global, value: u32) -> Result<bool, NoMemory>
        requires { All IsRight self.old.levels.items }
        ensures right { OnOk result (All IsRight self.new.levels.items) }
        ensures kept { OnOk result (spots_in self.new.levels.items ≡ spots_in self.old.levels.items) }
        ensures count { self.new.count ≡ self.old.count }
        ensures found { self.new.found ≡ self.old.found }
        ensures exact { IfOk result (λ b. (b ≡ true) ↔ Missed (spots_in self.old.levels.items) value) }
    {
        let Some(place) = self.home_of(value) else {
            return Ok(true);
        };
        let missing = self.levels[place.depth].is_missing(alloc, place.home)?;
        Ok(missing)
    }

    fn is_one_missed(&mut self, alloc: Global, values: &[u32]) -> Result<bool, NoMemory>
        requires { All IsRight self.old.levels.items }
        ensures right { OnOk result (All IsRight self.new.levels.items) }
        ensures kept { OnOk result (spots_in self.new.levels.items ≡ spots_in self.old.levels.items) }
        ensures count { self.new.count ≡ self.old.count }
        ensures found { self.new.found ≡ self.old.found }
        ensures exact { IfOk result (λ b. (b ≡ true) ↔ AnyOf (Missed (spots_in self.old.levels.items)) values.now) }
    {
        for value in values {
            if self.is_missed(alloc, *value)? {
                return Ok(true);
            }
        }
        Ok(false)
    }

    /// The first operation that misses something, up to the one with these operands here.
    fn first_here(&mut self, alloc: Global, operands: &[u32]) -> Result<Option<usize>, NoMemory>
        requires { All IsRight self.old.levels.items }
        ensures right { OnOk result (All IsRight self.new.levels.items) }
        ensures kept { OnOk result (spots_in self.new.levels.items ≡ spots_in self.old.levels.items) }
        ensures count { self.new.count ≡ self.old.count }
        ensures found { IfOk result (FoundBy (use_at (spots_in self.old.levels.items) operands.now) self.old.count self.old.found) }
    {
        match self.found {
            Some(first) => Ok(Some(first)),
            None => {
                if self.is_one_missed(alloc, operands)? {
                    Ok(Some(self.count))
                } else {
                    Ok(None)
                }
            }
        }
    }

    /// Looks at the operands of an operation here.
    fn look(&mut self, alloc: Global, operands: &[u32]) -> Result<(), NoMemory>
        requires { All IsRight self.old.levels.items }
        ensures right { OnOk result (All IsRight self.new.levels.items) }
        ensures kept { OnOk result (spots_in self.new.levels.items ≡ spots_in self.old.levels.items) }
        ensures ahead { OnOk result (Passes (λ rest. use_at (spots_in self.old.levels.items) operands.now ∷ rest) self.old.count self.old.found self.new.count self.new.found) }
    {
        let found = self.first_here(alloc, operands)?;
        self.found = found;
        self.count = one_more(self.count)?;
        Ok(())
    }

    fn enter(&mut self, alloc: Global, blocks: &[BlockTree]) -> Result<(), NoMemory>
        requires { All IsRight self.old.levels.items }
        ensures right { OnOk result (All IsRight self.new.levels.items) }
        ensures spots { OnOk result (spots_in self.new.levels.items ≡ spot_at (known_of (blocks_in (map plain_block blocks.now))) 0 0 ∷ spots_in self.old.levels.items) }
        ensures count { self.new.count ≡ self.old.count }
        ensures found { self.new.found ≡ self.old.found }
    {
        let region = region_of(alloc, blocks)?;
        self.levels.push(Level {
            region,
            block: 0,
            left: 0,
        })?;
        Ok(())
    }

    fn leave(&mut self)
        requires { All IsRight self.old.levels.items }
        ensures right { All IsRight self.new.levels.items }
        ensures spots { spots_in self.new.levels.items ≡ without_first (spots_in self.old.levels.items) }
        ensures count { self.new.count ≡ self.old.count }
        ensures found { self.new.found ≡ self.old.found }
    {
        let _ = self.levels.pop();
    }

    fn begin(&mut self, label: u32) -> Result<(), NoMemory>
        requires { All IsRight self.old.levels.items }
        ensures right { OnOk result (All IsRight self.new.levels.items) }
        ensures spots { OnOk result (spots_in self.new.levels.items ≡ with_block label (spots_in self.old.levels.items)) }
        ensures count { self.new.count ≡ self.old.count }
        ensures found { self.new.found ≡ self.old.found }
    {
        let Some(level) = self.levels.pop() else {
            return Ok(());
        };
        self.levels.push(level.at_block(label))?;
        Ok(())
    }

    fn stand(&mut self, left: usize) -> Result<(), NoMemory>
        requires { All IsRight self.old.levels.items }
        ensures right { OnOk result (All IsRight self.new.levels.items) }
        ensures spots { OnOk result (spots_in self.new.levels.items ≡ with_left left (spots_in self.old.levels.items)) }
        ensures count { self.new.count ≡ self.old.count }
        ensures found { self.new.found ≡ self.old.found }
    {
        let Some(level) = self.levels.pop() else {
            return Ok(());
        };
        self.levels.push(level.with_left(left))?;
        Ok(())
    }
}

fn one_more(count: usize) -> Result<usize, NoMemory>
    ensures { IfOk result (λ n. n ≡ count + 1) }
{
    match count.checked_add(1) {
        Some(more) => Ok(more),
        None => Err(AllocError),
    }
}

#[cycle(walk_op)]
fn walk_op(walk: &mut Walk, alloc: Global, op: &OpTree) -> Result<(), NoMemory>
    requires { All IsRight walk.old.levels.items }
    ensures right { OnOk result (All IsRight walk.new.levels.items) }
    ensures kept { OnOk result (spots_in walk.new.levels.items ≡ spots_in walk.old.levels.items) }
    ensures ahead { OnOk result (Passes (λ rest. op_uses (spots_in walk.old.levels.items) (plain_op op.now) rest) walk.old.count walk.old.found walk.new.count walk.new.found) }
{
    let operands = op.operands.as_slice();
    walk.look(alloc, operands)?;
    let regions = op.regions.as_slice();
    walk_regions(walk, alloc, regions)?;
    Ok(())
}

#[cycle(walk_op)]
fn walk_regions(walk: &mut Walk, alloc: Global, regions: &[RegionTree]) -> Result<(), NoMemory>
    requires { All IsRight walk.old.levels.items }
    ensures right { OnOk result (All IsRight walk.new.levels.items) }
    ensures kept { OnOk result (spots_in walk.new.levels.items ≡ spots_in walk.old.levels.items) }
    ensures ahead { OnOk result (Passes (λ rest. regions_uses (spots_in walk.old.levels.items) (regions_in (map plain_region regions.now)) rest) walk.old.count walk.old.found walk.new.count walk.new.found) }
{
    for region in regions {
        walk_region(walk, alloc, region)?;
    }
    Ok(())
}

#[cycle(walk_op)]
fn walk_region(walk: &mut Walk, alloc: Global, region: &RegionTree) -> Result<(), NoMemory>
    requires { All IsRight walk.old.levels.items }
    ensures right { OnOk result (All IsRight walk.new.levels.items) }
    ensures kept { OnOk result (spots_in walk.new.levels.items ≡ spots_in walk.old.levels.items) }
    ensures ahead { OnOk result (Passes (λ rest. blocks_uses (spots_in walk.old.levels.items) (known_of (plain_region region.now)) (plain_region region.now) rest) walk.old.count walk.old.found walk.new.count walk.new.found) }
{
    let blocks = region.blocks.as_slice();
    walk.enter(alloc, blocks)?;
    walk_blocks(walk, alloc, blocks)?;
    walk.leave();
    Ok(())
}

#[cycle(walk_op)]
fn walk_blocks(walk: &mut Walk, alloc: Global, blocks: &[BlockTree]) -> Result<(), NoMemory>
    requires { All IsRight walk.old.levels.items }
    ensures right { OnOk result (All IsRight walk.new.levels.items) }
    ensures passes { OnOk result (InRegion (spots_in walk.old.levels.items) (spots_in walk.new.levels.items) (λ outer known rest. blocks_uses outer known (blocks_in (map plain_block blocks.now)) rest) walk.old.count walk.old.found walk.new.count walk.new.found) }
{
    for block in blocks {
        walk_block(walk, alloc, block)?;
    }
    Ok(())
}

#[cycle(walk_op)]
fn walk_block(walk: &mut Walk, alloc: Global, block: &BlockTree) -> Result<(), NoMemory>
    requires { All IsRight walk.old.levels.items }
    ensures right { OnOk result (All IsRight walk.new.levels.items) }
    ensures passes { OnOk result (InRegion (spots_in walk.old.levels.items) (spots_in walk.new.levels.items) (λ outer known rest. ops_uses outer known (known.places (plain_block block.now).label) (plain_block block.now).ops rest) walk.old.count walk.old.found walk.new.count walk.new.found) }
{
    walk.begin(block.label)?;
    let ops = block.ops.as_slice();
    walk_ops(walk, alloc, ops)?;
    Ok(())
}

#[cycle(walk_op)]
fn walk_ops(walk: &mut Walk, alloc: Global, ops: &[OpTree]) -> Result<(), NoMemory>
    requires { All IsRight walk.old.levels.items }
    ensures right { OnOk result (All IsRight walk.new.levels.items) }
    ensures passes { OnOk result (InBlock (spots_in walk.old.levels.items) (spots_in walk.new.levels.items) (λ outer known n rest. ops_uses outer known n (ops_in (map plain_op ops.now)) rest) walk.old.count walk.old.found walk.new.count walk.new.found) }
{
    for (index, op) in ops.iter().enumerate() {
        walk.stand(ops.len() - index)?;
        walk_op(walk, alloc, op)?;
    }
    Ok(())
}

/// The number of the first operation that misses a value, in the order of the text.
pub fn first_missed(alloc: Global, function: &OpTree) -> Result<Option<usize>, NoMemory>
    ensures { IfOk result (FirstAt Misses (op_uses [] (plain_op function.now) [])) }
{
    let mut walk = Walk::new(alloc);
    walk_op(&mut walk, alloc, function)?;
    Ok(walk.found)
}
