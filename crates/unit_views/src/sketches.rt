//! The sketch of an operation.
#![tactic(auto, using(crate::proofs::Layers::layers))]

ghost use Rattle.std.specs.Prelude.{◌≡◌, IfOk, map};
ghost use Rattle.plain_tree.specs.Ops.{ops_in, plain_op};
ghost use Rattle.pattern_model.specs.ScfRows.{passed_by as passed_in};
ghost use Rattle.cut_code.specs.Sketches.{block_view, blocks_seen, region_view, sketch_of, sketch_view};
ghost use Rattle.value_types.specs.Trees.{plain_block, plain_region};
ghost use Rattle.unit_views.specs.Seen.{block_seen};

use crate::demand::goes_with_holder;
use cut_code::{BlockSketch, OpSketch, RegionSketch};
use sqlite_items::Items;
use std::alloc::{AllocError, Global};
use tree_model::{BlockTree, IdList, NoMemory, OpTree, RegionTree, copy_dict, copy_values};

/// The operands of the first `scf.yield` or `scf.condition` among operations.
fn passed_by(alloc: Global, ops: &[OpTree]) -> Result<Option<IdList>, NoMemory>
    ensures { IfOk result (λ p. p ≡ passed_in (ops_in (map plain_op ops.now))) }
{
    'each: for op in ops {
        if goes_with_holder(&op.name) {
            let operands = Items::from_slice(alloc, op.operands.as_slice())?;
            return Ok(Some(operands));
        }
    }
    Ok(None)
}

fn block_sketch(alloc: Global, block: &BlockTree) -> Result<BlockSketch, NoMemory>
    ensures { IfOk result (λ b. block_view b ≡ block_seen (plain_block block.now)) }
{
    let args = copy_values(alloc, block.args.as_slice())?;
    let passed = passed_by(alloc, block.ops.as_slice())?;
    Ok(BlockSketch {
        label: block.label,
        args,
        passed,
    })
}

fn region_sketch(alloc: Global, region: &RegionTree) -> Result<RegionSketch, NoMemory>
    ensures { IfOk result (λ r. region_view r ≡ blocks_seen (plain_region region.now)) }
{
    let blocks = block_sketches(alloc, region.blocks.as_slice())?;
    Ok(RegionSketch { blocks })
}

fn block_sketches(alloc: Global, blocks: &[BlockTree]) -> Result<Items<BlockSketch>, NoMemory>
    ensures { IfOk result (λ bs. map block_view bs ≡ map block_seen (map plain_block blocks.now)) }
{
    let mut sketches = Items::new(alloc);
    'each: for block in blocks {
        sketches.push(block_sketch(alloc, block)?)?;
    }
    Ok(sketches)
}

fn region_sketches(alloc: Global, regions: &[RegionTree]) -> Result<Items<RegionSketch>, NoMemory>
    ensures { IfOk result (λ rs. map region_view rs ≡ map blocks_seen (map plain_region regions.now)) }
{
    let mut sketches = Items::new(alloc);
    'each: for region in regions {
        sketches.push(region_sketch(alloc, region)?)?;
    }
    Ok(sketches)
}

/// All that a cut looks at in an operation.
pub fn op_sketch(alloc: Global, op: &OpTree) -> Result<OpSketch, NoMemory>
    ensures { IfOk result (λ s. sketch_view s ≡ sketch_of (plain_op op.now)) }
{
    let Ok(successors) = u32::try_from(op.successors.len()) else {
        return Err(AllocError);
    };
    let results = copy_values(alloc, op.results.as_slice())?;
    let operands = Items::from_slice(alloc, op.operands.as_slice())?;
    let props = copy_dict(alloc, op.props.as_slice())?;
    let regions = region_sketches(alloc, op.regions.as_slice())?;
    Ok(OpSketch {
        results,
        operands,
        props,
        regions,
        successors,
    })
}
