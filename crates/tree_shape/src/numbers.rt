//! The numbers of a function, place by place.

ghost use Rattle.std.specs.Prelude.{◌≡◌, [], ◌++◌, OnOk, map, flat_map};
ghost use Rattle.tree_shape.specs.NumbersOf.{numbers_of_values, values_of_op, values_of_block, values_of_region, labels_of_op, labels_of_block, labels_of_region};

use std::alloc::Global;
use tree_model::{BlockTree, NoMemory, OpTree, RegionTree, TypeTree};

/// The numbers that stand in a tree, in the order of its text.
#[derive(Drop)]
pub struct Numbers {
    pub values: Vec<u32>,
    pub labels: Vec<u32>,
}

impl Numbers {
    pub fn new(alloc: Global) -> Numbers
        ensures values { result.values.items ≡ [] }
        ensures labels { result.labels.items ≡ [] }
    {
        Numbers {
            values: Vec::new(alloc),
            labels: Vec::new(alloc),
        }
    }
}

#[cycle(put_op)]
#[tactic(auto, using(crate::proofs::NumbersLaws::numbers_laws))]
pub fn put_op(numbers: &mut Numbers, op: &OpTree) -> Result<(), NoMemory>
    ensures values { OnOk result (numbers.new.values.items ≡ numbers.old.values.items ++ values_of_op op.now) }
    ensures labels { OnOk result (numbers.new.labels.items ≡ numbers.old.labels.items ++ labels_of_op op.now) }
{
    put_values(&mut numbers.values, op.results.as_slice())?;
    numbers.values.extend_from_slice(op.operands.as_slice())?;
    numbers.labels.extend_from_slice(op.successors.as_slice())?;
    put_regions(numbers, op.regions.as_slice())
}

#[cycle(put_op)]
#[tactic(auto, using(crate::proofs::NumbersLaws::numbers_laws))]
fn put_regions(numbers: &mut Numbers, regions: &[RegionTree]) -> Result<(), NoMemory>
    ensures values { OnOk result (numbers.new.values.items ≡ numbers.old.values.items ++ flat_map (λ ns. ns) (map values_of_region regions.now)) }
    ensures labels { OnOk result (numbers.new.labels.items ≡ numbers.old.labels.items ++ flat_map (λ ns. ns) (map labels_of_region regions.now)) }
{
    for region in regions {
        put_blocks(numbers, region.blocks.as_slice())?;
    }
    Ok(())
}

#[cycle(put_op)]
#[tactic(auto, using(crate::proofs::NumbersLaws::numbers_laws))]
fn put_blocks(numbers: &mut Numbers, blocks: &[BlockTree]) -> Result<(), NoMemory>
    ensures values { OnOk result (numbers.new.values.items ≡ numbers.old.values.items ++ flat_map (λ ns. ns) (map values_of_block blocks.now)) }
    ensures labels { OnOk result (numbers.new.labels.items ≡ numbers.old.labels.items ++ flat_map (λ ns. ns) (map labels_of_block blocks.now)) }
{
    for block in blocks {
        put_block(numbers, block)?;
    }
    Ok(())
}

#[cycle(put_op)]
#[tactic(auto, using(crate::proofs::NumbersLaws::numbers_laws))]
fn put_block(numbers: &mut Numbers, block: &BlockTree) -> Result<(), NoMemory>
    ensures values { OnOk result (numbers.new.values.items ≡ numbers.old.values.items ++ values_of_block block.now) }
    ensures labels { OnOk result (numbers.new.labels.items ≡ numbers.old.labels.items ++ labels_of_block block.now) }
{
    numbers.labels.push(block.label)?;
    put_values(&mut numbers.values, block.args.as_slice())?;
    put_ops(numbers, block.ops.as_slice())
}

#[cycle(put_op)]
#[tactic(auto, using(crate::proofs::NumbersLaws::numbers_laws))]
fn put_ops(numbers: &mut Numbers, ops: &[OpTree]) -> Result<(), NoMemory>
    ensures values { OnOk result (numbers.new.values.items ≡ numbers.old.values.items ++ flat_map (λ ns. ns) (map values_of_op ops.now)) }
    ensures labels { OnOk result (numbers.new.labels.items ≡ numbers.old.labels.items ++ flat_map (λ ns. ns) (map labels_of_op ops.now)) }
{
    for op in ops {
        put_op(numbers, op)?;
    }
    Ok(())
}

fn put_values(numbers: &mut Vec<u32>, values: &[(u32, TypeTree)]) -> Result<(), NoMemory>
    ensures { OnOk result (numbers.new.items ≡ numbers.old.items ++ numbers_of_values values.now) }
{
    for value in values {
        numbers.push(value.0)?;
    }
    Ok(())
}
