//! The walk through a function that finds numbers above its own.
#![tactic(auto, using(crate::proofs::TopLayers::layers))]

ghost use Rattle.std.specs.Prelude.{◌≡◌, map};
ghost use Rattle.plain_tree.specs.Ops.{plain_op, plain_values, ops_in, blocks_in, regions_in};
ghost use Rattle.new_numbers.specs.Tops.{block_plain, over_blocks, over_labels, over_numbers, over_op, over_ops, over_regions, over_values, region_plain};

use crate::tops::Tops;
use tree_model::{BlockTree, OpTree, RegionTree, TypeTree};

fn see_values(tops: &mut Tops, values: &[(u32, TypeTree)])
    ensures { tops.new ≡ over_values (plain_values values.now) tops.old }
{
    for value in values {
        tops.see_value(value.0);
    }
}

fn see_numbers(tops: &mut Tops, numbers: &[u32])
    ensures { tops.new ≡ over_numbers numbers.now tops.old }
{
    for number in numbers {
        tops.see_value(*number);
    }
}

fn see_labels(tops: &mut Tops, labels: &[u32])
    ensures { tops.new ≡ over_labels labels.now tops.old }
{
    for label in labels {
        tops.see_label(*label);
    }
}

/// Sees all numbers of an operation.
#[cycle(see_op)]
pub fn see_op(tops: &mut Tops, op: &OpTree)
    ensures { tops.new ≡ over_op (plain_op op.now) tops.old }
{
    see_values(tops, op.results.as_slice());
    see_numbers(tops, op.operands.as_slice());
    see_regions(tops, op.regions.as_slice());
    see_labels(tops, op.successors.as_slice());
}

#[cycle(see_op)]
fn see_regions(tops: &mut Tops, regions: &[RegionTree])
    ensures { tops.new ≡ over_regions (regions_in (map region_plain regions.now)) tops.old }
{
    for region in regions {
        see_blocks(tops, region.blocks.as_slice());
    }
}

#[cycle(see_op)]
fn see_blocks(tops: &mut Tops, blocks: &[BlockTree])
    ensures { tops.new ≡ over_blocks (blocks_in (map block_plain blocks.now)) tops.old }
{
    for block in blocks {
        tops.see_label(block.label);
        see_values(tops, block.args.as_slice());
        see_ops(tops, block.ops.as_slice());
    }
}

#[cycle(see_op)]
fn see_ops(tops: &mut Tops, ops: &[OpTree])
    ensures { tops.new ≡ over_ops (ops_in (map plain_op ops.now)) tops.old }
{
    for op in ops {
        see_op(tops, op);
    }
}
