//! Regions of one block.

ghost use Rattle.std.specs.Prelude.{◌≡◌, IfOk};
ghost use Rattle.pattern_model.specs.ScfRows.{or_none};
ghost use Rattle.scf_rows.specs.Trees.{all_alone as every_one, only_block as only};

use cut_code::{BlockSketch, RegionSketch};
use sqlite_items::Items;
use std::alloc::Global;
use tree_model::{IdList, NoMemory, ValueList, copy_values};

/// The one block of a region, with what its yield passes.
#[derive(Debug, Drop)]
pub struct Alone {
    pub label: u32,
    pub args: ValueList,
    pub passed: IdList,
}

fn passed_or_none(alloc: Global, passed: &Option<IdList>) -> Result<IdList, NoMemory>
    ensures { IfOk result (λ ids. ids ≡ or_none passed.now) }
{
    match passed {
        Some(ids) => {
            let ids = Items::from_slice(alloc, ids.as_slice())?;
            Ok(ids)
        }
        None => Ok(Items::new(alloc)),
    }
}

/// The one block, where there is one.
pub fn only_block(alloc: Global, blocks: &[BlockSketch]) -> Result<Option<Alone>, NoMemory>
    ensures { IfOk result (λ a. a ≡ only blocks.now) }
{
    let [block] = blocks else {
        return Ok(None);
    };
    let args = copy_values(alloc, block.args.as_slice())?;
    let passed = passed_or_none(alloc, &block.passed)?;
    Ok(Some(Alone {
        label: block.label,
        args,
        passed,
    }))
}

/// The one block of each region, where each has one block.
pub fn all_alone(alloc: Global, regions: &[RegionSketch]) -> Result<Option<Items<Alone>>, NoMemory>
    ensures { IfOk result (λ o. o ≡ every_one regions.now) }
{
    let mut all = Items::new(alloc);
    'each: for region in regions {
        let Some(block) = only_block(alloc, region.blocks.as_slice())? else {
            return Ok(None);
        };
        all.push(block)?;
    }
    Ok(Some(all))
}
