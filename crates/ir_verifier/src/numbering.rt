//! Whether a function numbers each of its values and each of its blocks once.
#![tactic(auto, using(crate::proofs::Numbers::layers))]

ghost use Rattle.std.specs.Prelude.{◌≡◌, ◌++◌, ◌∷◌, IfOk, OnOk, map};
ghost use Rattle.plain_tree.specs.Ops.{blocks_in, ops_in, plain_op, plain_values, regions_in};
ghost use Rattle.rule_model.specs.Words.{numbers};
ghost use Rattle.rule_model.specs.Formed as formed;
ghost use Rattle.value_types.specs.Trees.{plain_block, plain_region};
ghost use Rattle.first_places.specs.Numbering.{is_numbered_once};
ghost use Rattle.ir_verifier.specs.Numbering as model;

use std::alloc::Global;
use std::collections::HashSet;
use tree_model::{BlockTree, NoMemory, OpTree, RegionTree, TypeTree};

/// Whether no number stands twice.
fn are_once(alloc: Global, found: &[u32]) -> Result<bool, NoMemory>
    ensures { IfOk result (λ b. b ≡ formed.are_once found.now) }
{
    let mut seen = HashSet::new(alloc);
    let mut index = found.len();
    while index > 0 {
        index -= 1;
        if seen.contains(&found[index]) {
            return Ok(false);
        }
        seen.insert(found[index])?;
    }
    Ok(true)
}

fn push_values(found: &mut Vec<u32>, values: &[(u32, TypeTree)]) -> Result<(), NoMemory>
    ensures { OnOk result (found.new.items ≡ found.old.items ++ numbers (plain_values values.now)) }
{
    for value in values {
        found.push(value.0)?;
    }
    Ok(())
}

#[cycle(values)]
fn values_of_op(found: &mut Vec<u32>, op: &OpTree) -> Result<(), NoMemory>
    ensures { OnOk result (found.new.items ≡ found.old.items ++ model.op_numbers (plain_op op.now)) }
{
    push_values(found, op.results.as_slice())?;
    values_of_regions(found, op.regions.as_slice())
}

#[cycle(values)]
fn values_of_regions(found: &mut Vec<u32>, regions: &[RegionTree]) -> Result<(), NoMemory>
    ensures { OnOk result (found.new.items ≡ found.old.items ++ model.regions_numbers (regions_in (map plain_region regions.now))) }
{
    for region in regions {
        values_of_region(found, region)?;
    }
    Ok(())
}

#[cycle(values)]
fn values_of_region(found: &mut Vec<u32>, region: &RegionTree) -> Result<(), NoMemory>
    ensures { OnOk result (found.new.items ≡ found.old.items ++ model.blocks_numbers (plain_region region.now)) }
{
    values_of_blocks(found, region.blocks.as_slice())
}

#[cycle(values)]
fn values_of_blocks(found: &mut Vec<u32>, blocks: &[BlockTree]) -> Result<(), NoMemory>
    ensures { OnOk result (found.new.items ≡ found.old.items ++ model.blocks_numbers (blocks_in (map plain_block blocks.now))) }
{
    for block in blocks {
        values_of_block(found, block)?;
    }
    Ok(())
}

#[cycle(values)]
fn values_of_block(found: &mut Vec<u32>, block: &BlockTree) -> Result<(), NoMemory>
    ensures { OnOk result (found.new.items ≡ found.old.items ++ (numbers (plain_block block.now).args ++ model.ops_numbers (plain_block block.now).ops)) }
{
    push_values(found, block.args.as_slice())?;
    values_of_ops(found, block.ops.as_slice())
}

#[cycle(values)]
fn values_of_ops(found: &mut Vec<u32>, ops: &[OpTree]) -> Result<(), NoMemory>
    ensures { OnOk result (found.new.items ≡ found.old.items ++ model.ops_numbers (ops_in (map plain_op ops.now))) }
{
    for op in ops {
        values_of_op(found, op)?;
    }
    Ok(())
}

#[cycle(labels)]
fn labels_of_op(found: &mut Vec<u32>, op: &OpTree) -> Result<(), NoMemory>
    ensures { OnOk result (found.new.items ≡ found.old.items ++ formed.op_labels (plain_op op.now)) }
{
    labels_of_regions(found, op.regions.as_slice())
}

#[cycle(labels)]
fn labels_of_regions(found: &mut Vec<u32>, regions: &[RegionTree]) -> Result<(), NoMemory>
    ensures { OnOk result (found.new.items ≡ found.old.items ++ formed.regions_labels (regions_in (map plain_region regions.now))) }
{
    for region in regions {
        labels_of_region(found, region)?;
    }
    Ok(())
}

#[cycle(labels)]
fn labels_of_region(found: &mut Vec<u32>, region: &RegionTree) -> Result<(), NoMemory>
    ensures { OnOk result (found.new.items ≡ found.old.items ++ formed.blocks_labels (plain_region region.now)) }
{
    labels_of_blocks(found, region.blocks.as_slice())
}

#[cycle(labels)]
fn labels_of_blocks(found: &mut Vec<u32>, blocks: &[BlockTree]) -> Result<(), NoMemory>
    ensures { OnOk result (found.new.items ≡ found.old.items ++ formed.blocks_labels (blocks_in (map plain_block blocks.now))) }
{
    for block in blocks {
        labels_of_block(found, block)?;
    }
    Ok(())
}

#[cycle(labels)]
fn labels_of_block(found: &mut Vec<u32>, block: &BlockTree) -> Result<(), NoMemory>
    ensures { OnOk result (found.new.items ≡ found.old.items ++ (plain_block block.now).label ∷ formed.ops_labels (plain_block block.now).ops) }
{
    found.push(block.label)?;
    labels_of_ops(found, block.ops.as_slice())
}

#[cycle(labels)]
fn labels_of_ops(found: &mut Vec<u32>, ops: &[OpTree]) -> Result<(), NoMemory>
    ensures { OnOk result (found.new.items ≡ found.old.items ++ formed.ops_labels (ops_in (map plain_op ops.now))) }
{
    for op in ops {
        labels_of_op(found, op)?;
    }
    Ok(())
}

fn values_once(alloc: Global, op: &OpTree) -> Result<bool, NoMemory>
    ensures { IfOk result (λ b. b ≡ formed.are_once (model.op_numbers (plain_op op.now))) }
{
    let mut found = Vec::new(alloc);
    values_of_op(&mut found, op)?;
    are_once(alloc, found.as_slice())
}

fn labels_once(alloc: Global, op: &OpTree) -> Result<bool, NoMemory>
    ensures { IfOk result (λ b. b ≡ formed.are_once (formed.op_labels (plain_op op.now))) }
{
    let mut found = Vec::new(alloc);
    labels_of_op(&mut found, op)?;
    are_once(alloc, found.as_slice())
}

/// Whether a function defines each number of a value once, and has each label once: what a use of a number means then doesn't depend on
/// which definition is found first.
pub fn is_numbered_once(alloc: Global, op: &OpTree) -> Result<bool, NoMemory>
    ensures { IfOk result (λ b. b ≡ is_numbered_once (plain_op op.now)) }
{
    let values = values_once(alloc, op)?;
    if values {
        Ok(labels_once(alloc, op)?)
    } else {
        Ok(false)
    }
}
