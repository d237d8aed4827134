//! A function written anew.
#![tactic(auto, using(crate::proofs::Layers::layers))]

ghost use Rattle.std.specs.Prelude.{◌≡◌, ◌∷◌, ◌++◌, [], IfOk, OnOk, Some, None, map};
ghost use Rattle.plain_tree.specs.Types.{plain_type};
ghost use Rattle.plain_tree.specs.Ops.{blocks_in, plain_op, plain_values, regions_in};
ghost use Rattle.conversion_model.specs.Conversion.{framed_blocks as blocks_by, framed_regions as regions_by, regions_of};
ghost use Rattle.conversion_model.specs.Items.{held_blocks, held_regions};
ghost use Rattle.conversion_model.specs.Templates.{numbers as numbers_in};
ghost use Rattle.choice_code.specs.Plain.{plain_template};
ghost use Rattle.new_numbers.specs.Tables.{numbering_of, supply_of};
ghost use Rattle.unit_slots.specs.Slots.{plain_frame, plain_framing};
ghost use Rattle.unit_writer.specs.Names.{Asked};
ghost use Rattle.unit_writer.specs.Pages.{block_plain, region_plain};
ghost use Rattle.unit_writer.specs.Functions.{IsWritten, WritesAll, WritesFirst, WritesText, WritesTree, entry_types, first_items, function_with, params_behind, with_frame};
ghost use Rattle.unit_writer.specs.Says.{EachOpsIn, EachBlockIn, EachRegionIn, said_by};
ghost use Rattle.unit_writer.specs.Writes.{notes_view};

use crate::guide::{Guide, no_copy};
use crate::kept::{kept_op, operation, region_of};
use crate::line::{Replaced, write_template};
use crate::notes::Notes;
use crate::page::Page;
use crate::sizes::sizes_of;
use crate::walk::{write_blocks, write_ops, write_regions};
use cut_code::{FrameTree, PartTree};
use new_numbers::{NewNumbers, ValuePlace};
use sqlite_items::Items;
use std::alloc::{AllocError, Global};
use tree_model::{
    BlockList, BlockTree, IdList, NoMemory, OpTree, RegionList, RegionTree, TypeTree, ValueList,
    copy_dict, copy_type, copy_values,
};
use unit_slots::{Choices, Framing};

/// Parameters of these types, behind those that are there.
fn add_params(
    alloc: Global,
    params: &mut ValueList,
    types: &[TypeTree],
    numbers: &mut NewNumbers,
) -> Result<(), NoMemory>
    ensures { OnOk result (Asked (numbering_of numbers.old) (numbering_of numbers.new) (λ u. plain_values params.old ++ params_behind u params.old (map plain_type types.now) ≡ plain_values params.new)) }
{
    for t in types {
        let Ok(place) = u32::try_from(params.len()) else {
            return Err(AllocError);
        };
        let number = numbers.value(ValuePlace::OfFunction(place))?;
        params.push((number, copy_type(alloc, t)?))?;
    }
    Ok(())
}

/// The new parameters of a function whose first block's arguments become these parts.
fn params_of(
    alloc: Global,
    entry: &[PartTree],
    numbers: &mut NewNumbers,
) -> Result<ValueList, NoMemory>
    ensures { IfOk result (λ vs. Asked (numbering_of numbers.old) (numbering_of numbers.new) (λ u. params_behind u [] (entry_types entry.now) ≡ plain_values vs)) }
{
    let mut params = Items::new(alloc);
    for part in entry {
        add_params(alloc, &mut params, part.takes.as_slice(), numbers)?;
    }
    Ok(params)
}

fn numbers_of(alloc: Global, values: &[(u32, TypeTree)]) -> Result<IdList, NoMemory>
    ensures { IfOk result (λ ns. ns ≡ numbers_in (plain_values values.now)) }
{
    let mut list = Items::new(alloc);
    for value in values {
        list.push(value.0)?;
    }
    Ok(list)
}

/// The blocks that the first one becomes: the new parameters are its arguments, and the old ones are given by steps in front.
fn first_block(
    block: &BlockTree,
    framing: &Framing,
    guide: &Guide<'_>,
    notes: &mut Notes,
) -> Result<BlockList, NoMemory>
    ensures { IfOk result (λ bs. WritesFirst (λ m. EachOpsIn (said_by guide.now m) 1 (block_plain block.now).ops) (first_items (plain_frame framing.now.frame) (plain_template framing.now.entry) (block_plain block.now)) (notes_view notes.old) (notes_view notes.new) (map block_plain bs)) }
{
    let params = params_of(
        guide.alloc,
        framing.frame.entry.as_slice(),
        &mut notes.numbers,
    )?;
    let operands = numbers_of(guide.alloc, params.as_slice())?;
    let of = Replaced {
        results: block.args.as_slice(),
        operands: operands.as_slice(),
        labels: &[],
    };
    let mut page = Page::new(guide.alloc, block.label, params);
    write_template(guide.alloc, &framing.entry, (0, 0), &of, &mut page, notes)?;
    write_ops(block.ops.as_slice(), 1, false, guide, &mut page, notes)?;
    let blocks = page.end()?;
    Ok(blocks)
}

/// The blocks of a framed function.
fn new_blocks(
    blocks: &[BlockTree],
    framing: &Framing,
    guide: &Guide<'_>,
    notes: &mut Notes,
) -> Result<BlockList, NoMemory>
    ensures { IfOk result (λ bs. WritesText (λ m. EachBlockIn (said_by guide.now m) 1 (blocks_in (map block_plain blocks.now))) (λ m. blocks_by (supply_of m.table) (plain_frame framing.now.frame) (plain_template framing.now.entry) (held_blocks m.ways 1 (blocks_in (map block_plain blocks.now)))) (notes_view notes.old) (notes_view notes.new) (map block_plain bs)) }
{
    let [first, rest @ ..] = blocks else {
        return Ok(Items::new(guide.alloc));
    };
    let mut list = first_block(first, framing, guide, notes)?;
    let number = guide.behind(first.ops.as_slice(), 1)?;
    let more = write_blocks(rest, number, guide, notes)?;
    list.append(more)?;
    Ok(list)
}

/// A list of one region.
fn region_alone(alloc: Global, blocks: BlockList) -> Result<RegionList, NoMemory>
    ensures { IfOk result (λ rs. map region_plain rs ≡ blocks_in (map block_plain blocks) ∷ []) }
{
    let mut list = Items::new(alloc);
    list.push(region_of(blocks))?;
    Ok(list)
}

/// The regions of a framed function.
fn new_regions(
    regions: &[RegionTree],
    framing: &Framing,
    guide: &Guide<'_>,
    notes: &mut Notes,
) -> Result<RegionList, NoMemory>
    ensures { IfOk result (λ rs. WritesAll (λ m. EachRegionIn (said_by guide.now m) 1 (regions_in (map region_plain regions.now))) (λ m. regions_by (supply_of m.table) (plain_frame framing.now.frame) (plain_template framing.now.entry) (held_regions m.ways 1 (regions_in (map region_plain regions.now)))) (notes_view notes.old) (notes_view notes.new) (map region_plain rs)) }
{
    let [first, rest @ ..] = regions else {
        return Ok(Items::new(guide.alloc));
    };
    let blocks = new_blocks(first.blocks.as_slice(), framing, guide, notes)?;
    let mut list = region_alone(guide.alloc, blocks)?;
    let number = guide.behind_blocks(first.blocks.as_slice(), 1)?;
    let more = write_regions(rest, number, guide, notes)?;
    list.append(more)?;
    Ok(list)
}

/// The operation as a frame says, over other regions.
#[tactic(auto, using(crate::proofs::FrameLayers::frame_layers))]
fn framed_op(
    op: &OpTree,
    frame: &FrameTree,
    regions: RegionList,
    alloc: Global,
) -> Result<OpTree, NoMemory>
    ensures { IfOk result (λ o. plain_op o ≡ with_frame (plain_op op.now) (plain_frame frame.now) (regions_in (map region_plain regions))) }
{
    let name = frame.name.copy(alloc)?;
    let props = copy_dict(alloc, frame.props.as_slice())?;
    let attrs = copy_dict(alloc, frame.attrs.as_slice())?;
    let results = copy_values(alloc, op.results.as_slice())?;
    let operands = Items::from_slice(alloc, op.operands.as_slice())?;
    let successors = Items::from_slice(alloc, op.successors.as_slice())?;
    Ok(operation(name, props, attrs, results, operands, regions, successors))
}

/// A function as its framing says, over the regions that its own become.
fn framed(
    function: &OpTree,
    framing: &Framing,
    guide: &Guide<'_>,
    notes: &mut Notes,
) -> Result<OpTree, NoMemory>
    ensures { IfOk result (λ o. WritesTree (λ m. EachRegionIn (said_by guide.now m) 1 (regions_of (plain_op function.now))) (λ m. function_with (supply_of m.table) (plain_op function.now) (plain_framing (Some framing.now)) (held_regions m.ways 1 (regions_of (plain_op function.now)))) (notes_view notes.old) (notes_view notes.new) (plain_op o)) }
{
    let regions = new_regions(function.regions.as_slice(), framing, guide, notes)?;
    no_copy(&framing.frame.name);
    let op = framed_op(function, &framing.frame, regions, guide.alloc)?;
    Ok(op)
}

/// A function over the regions that its own become.
fn unframed(function: &OpTree, guide: &Guide<'_>, notes: &mut Notes) -> Result<OpTree, NoMemory>
    ensures { IfOk result (λ o. WritesTree (λ m. EachRegionIn (said_by guide.now m) 1 (regions_of (plain_op function.now))) (λ m. function_with (supply_of m.table) (plain_op function.now) None (held_regions m.ways 1 (regions_of (plain_op function.now)))) (notes_view notes.old) (notes_view notes.new) (plain_op o)) }
{
    let regions = write_regions(function.regions.as_slice(), 1, guide, notes)?;
    no_copy(&function.name);
    let op = kept_op(function, regions, guide.alloc)?;
    Ok(op)
}

/// The function that choices make of one, without copies. What stands for a value is noted as a pair, in the order of the
/// text.
pub fn function_written(
    alloc: Global,
    function: &OpTree,
    choices: &Choices,
    notes: &mut Notes,
) -> Result<OpTree, NoMemory>
    ensures { IfOk result (λ o. IsWritten choices.now (plain_op function.now) (notes_view notes.old) (notes_view notes.new) (plain_op o)) }
{
    let sizes = sizes_of(alloc, function)?;
    let guide = Guide {
        alloc,
        slots: choices.slots.as_slice(),
        sizes: sizes.as_slice(),
    };
    match &choices.framing {
        Some(framing) => Ok(framed(function, framing, &guide, notes)?),
        None => Ok(unframed(function, &guide, notes)?),
    }
}
