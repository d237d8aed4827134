//! Operations, blocks and regions as a run sees them.
#![tactic(auto, using(crate::proofs::CodeLayers::layers))]

ghost use Rattle.std.specs.Prelude.{◌≡◌, IfOk, map};
ghost use Rattle.run_code.specs.Views.{block_in_front, form_of as stands_for_form, op_in_front, region_in_front};
ghost use Rattle.form_model.specs.Decoding as model;
ghost use Rattle.decode_code.specs.CodeBy.{block_by, block_from, code_by, form_by, op_from, region_by, region_from};
ghost use Rattle.decode_code.specs.Readings.{reading_of};

use crate::value_types::ValueTypes;
use form_code::{Places, Seen, form_of};
use run_code::{
    Block, BlockList, Form, IdList, Operation, OperationList, Region, RegionList, Width,
};
use sqlite_items::Items;
use std::alloc::Global;
use tree_model::{BlockTree, NoMemory, OpTree, RegionTree, TypeTree};

/// What the decoding of a function looks up: the width of `index`, the types of its values, the type of one that is defined nowhere,
/// and the places of functions.
#[derive(Drop)]
pub(crate) struct Context<'a> {
    pub bits: Width,
    pub types: ValueTypes<'a>,
    pub other: &'a TypeTree,
    pub places: &'a Places<'a>,
}

/// The numbers of values.
fn numbers_of(alloc: Global, values: &[(u32, TypeTree)]) -> Result<IdList, NoMemory>
    ensures { IfOk result (λ ns. ns ≡ model.numbers_of values.now) }
{
    let mut numbers = Items::new(alloc);
    for value in values {
        numbers.push(value.0)?;
    }
    Ok(numbers)
}

/// The form of an operation.
fn form_in(alloc: Global, context: &Context<'_>, op: &OpTree) -> Result<Form, NoMemory>
    ensures { IfOk result (λ f. stands_for_form f ≡ form_by (reading_of context.now) op.now) }
{
    let operands = context
        .types
        .types_of(alloc, op.operands.as_slice(), context.other)?;
    let seen = Seen {
        bits: context.bits,
        props: op.props.as_slice(),
        operands: operands.as_slice(),
        results: op.results.as_slice(),
        places: context.places,
    };
    form_of(alloc, &op.name, &seen)
}

/// An operation of these parts.
#[tactic(auto, using(crate::proofs::CodeLayers::makers))]
fn operation(
    form: Form,
    results: IdList,
    operands: IdList,
    successors: IdList,
    regions: RegionList,
) -> Operation
    ensures { op_in_front result ≡ op_from (stands_for_form form) results operands successors (map region_in_front regions) }
{
    Operation {
        form,
        results,
        operands,
        successors,
        regions,
    }
}

/// A block of these parts.
#[tactic(auto, using(crate::proofs::CodeLayers::makers))]
fn block_of(label: u32, args: IdList, ops: OperationList) -> Block
    ensures { block_in_front result ≡ block_from label args (map op_in_front ops) }
{
    Block { label, args, ops }
}

/// A region of these blocks.
#[tactic(auto, using(crate::proofs::CodeLayers::makers))]
fn region_of(blocks: BlockList) -> Region
    ensures { region_in_front result ≡ region_from (map block_in_front blocks) }
{
    Region { blocks }
}

#[cycle(decode_op)]
fn decode_op(alloc: Global, context: &Context<'_>, op: &OpTree) -> Result<Operation, NoMemory>
    ensures { IfOk result (λ o. op_in_front o ≡ code_by (reading_of context.now) op.now) }
{
    let form = form_in(alloc, context, op)?;
    let results = numbers_of(alloc, op.results.as_slice())?;
    let operands = Items::from_slice(alloc, op.operands.as_slice())?;
    let successors = Items::from_slice(alloc, op.successors.as_slice())?;
    let regions = decode_regions(alloc, context, op.regions.as_slice())?;
    Ok(operation(form, results, operands, successors, regions))
}

#[cycle(decode_op)]
fn decode_regions(
    alloc: Global,
    context: &Context<'_>,
    regions: &[RegionTree],
) -> Result<RegionList, NoMemory>
    ensures { IfOk result (λ rs. map region_in_front rs ≡ map (region_by (reading_of context.now)) regions.now) }
{
    let mut list = Items::new(alloc);
    for region in regions {
        list.push(decode_region(alloc, context, region)?)?;
    }
    Ok(list)
}

#[cycle(decode_op)]
fn decode_region(
    alloc: Global,
    context: &Context<'_>,
    region: &RegionTree,
) -> Result<Region, NoMemory>
    ensures { IfOk result (λ r. region_in_front r ≡ region_by (reading_of context.now) region.now) }
{
    let blocks = decode_blocks(alloc, context, region.blocks.as_slice())?;
    Ok(region_of(blocks))
}

/// Blocks in order.
#[cycle(decode_op)]
pub(crate) fn decode_blocks(
    alloc: Global,
    context: &Context<'_>,
    blocks: &[BlockTree],
) -> Result<BlockList, NoMemory>
    ensures { IfOk result (λ bs. map block_in_front bs ≡ map (block_by (reading_of context.now)) blocks.now) }
{
    let mut list = Items::new(alloc);
    for block in blocks {
        list.push(decode_block(alloc, context, block)?)?;
    }
    Ok(list)
}

#[cycle(decode_op)]
fn decode_block(alloc: Global, context: &Context<'_>, block: &BlockTree) -> Result<Block, NoMemory>
    ensures { IfOk result (λ b. block_in_front b ≡ block_by (reading_of context.now) block.now) }
{
    let args = numbers_of(alloc, block.args.as_slice())?;
    let ops = decode_ops(alloc, context, block.ops.as_slice())?;
    Ok(block_of(block.label, args, ops))
}

#[cycle(decode_op)]
fn decode_ops(
    alloc: Global,
    context: &Context<'_>,
    ops: &[OpTree],
) -> Result<OperationList, NoMemory>
    ensures { IfOk result (λ os. map op_in_front os ≡ map (code_by (reading_of context.now)) ops.now) }
{
    let mut list = Items::new(alloc);
    for op in ops {
        list.push(decode_op(alloc, context, op)?)?;
    }
    Ok(list)
}
