//! The walk through a function that writes it anew.
#![tactic(auto, using(crate::proofs::Layers::layers))]

ghost use Rattle.std.specs.Prelude.{◌≡◌, ◌&&◌, ◌+◌, ◌∷◌, ◌++◌, ℕ, [], IfOk, OnOk, map};
ghost use Rattle.plain_tree.specs.Ops.{blocks_in, ops_in, plain_op, regions_in};
ghost use Rattle.conversion_model.specs.Conversion.{regions_of};
ghost use Rattle.conversion_model.specs.Targets.{goes_with_holder, name_of};
ghost use Rattle.conversion_model.specs.Items.{Puts, cut as cut_into, held_at, held_blocks, held_in, held_regions, items, op_items, whole_regions};
ghost use Rattle.cut_code.specs.Pieces.{piece_of, pieces_of};
ghost use Rattle.new_numbers.specs.Tables.{supply_of};
ghost use Rattle.unit_slots.specs.Slots.{LinesSay};
ghost use Rattle.unit_writer.specs.Names.{plain_line};
ghost use Rattle.unit_writer.specs.Pages.{block_plain, region_plain};
ghost use Rattle.unit_writer.specs.Says.{EachBlockIn, EachOpIn, EachOpsIn, EachRegionIn, PieceSays, said_by};
ghost use Rattle.unit_writer.specs.Writes.{Writes, WritesBlocks, WritesRegions, notes_view, one_block, state_of, with_regions};

use crate::guide::{Guide, goes_with_its_holder, sum};
use crate::kept::region_of;
use crate::notes::Notes;
use crate::page::Page;
use crate::pieces::line_at;
use crate::put::{put_kept, write_line, write_opens, write_product};
use conversion_model::TemplateTree;
use cut_code::PieceTree;
use sqlite_items::Items;
use std::alloc::AllocError;
use tree_model::{BlockList, BlockTree, NoMemory, OpTree, RegionList, RegionTree, copy_values};
use unit_slots::Slot;

/// Whether operations that are held end in front of this one.
fn stops_at(held: bool, op: &OpTree) -> bool
    ensures { result ≡ (held && goes_with_holder (name_of (plain_op op.now))) }
{
    held && goes_with_its_holder(&op.name)
}

/// Operations from this number on; where they are held, those in front of the first terminator that goes with its holder.
#[cycle(write)]
pub fn write_ops(
    ops: &[OpTree],
    number: u32,
    held: bool,
    guide: &Guide<'_>,
    page: &mut Page,
    notes: &mut Notes,
) -> Result<(), NoMemory>
    ensures { OnOk result (Writes (λ m. EachOpsIn (said_by guide.now m) number (ops_in (map plain_op ops.now))) (λ m more. items m.ways held number (ops_in (map plain_op ops.now)) more) (state_of page.old notes.old) (state_of page.new notes.new)) }
{
    let mut number = number;
    for op in ops {
        if stops_at(held, op) {
            return Ok(());
        }
        write_op(op, number, guide, page, notes)?;
        number = sum(number, guide.size(number))?;
    }
    Ok(())
}

#[cycle(write)]
fn write_op(
    op: &OpTree,
    number: u32,
    guide: &Guide<'_>,
    page: &mut Page,
    notes: &mut Notes,
) -> Result<(), NoMemory>
    ensures { OnOk result (Writes (λ m. EachOpIn (said_by guide.now m) number (plain_op op.now)) (λ m more. op_items m.ways number (plain_op op.now) more) (state_of page.old notes.old) (state_of page.new notes.new)) }
{
    match guide.slot(number) {
        None => write_kept(op, number, guide, page, notes)?,
        Some(Slot::Keeps) => write_kept(op, number, guide, page, notes)?,
        Some(Slot::Line(template)) => write_line(
            op,
            (number, 0),
            template.as_ref(),
            guide,
            page,
            notes,
        )?,
        Some(Slot::Cuts(cut)) => write_cut(
            op,
            number,
            cut.pieces.as_slice(),
            cut.lines.as_slice(),
            guide,
            page,
            notes,
        )?,
    }
    Ok(())
}

/// An operation over the regions that its own become.
#[cycle(write)]
fn write_kept(
    op: &OpTree,
    number: u32,
    guide: &Guide<'_>,
    page: &mut Page,
    notes: &mut Notes,
) -> Result<(), NoMemory>
    ensures { OnOk result (Writes (λ m. EachRegionIn (said_by guide.now m) (number + 1) (regions_of (plain_op op.now))) (λ m more. Puts (with_regions (plain_op op.now) (whole_regions (held_regions m.ways (number + 1) (regions_of (plain_op op.now))))) ∷ more) (state_of page.old notes.old) (state_of page.new notes.new)) }
{
    let first = sum(number, 1)?;
    let regions = write_regions(op.regions.as_slice(), first, guide, notes)?;
    put_kept(op, regions, guide, page)?;
    Ok(())
}

/// The regions that these become, the first operation in which has this number.
#[cycle(write)]
pub fn write_regions(
    regions: &[RegionTree],
    number: u32,
    guide: &Guide<'_>,
    notes: &mut Notes,
) -> Result<RegionList, NoMemory>
    ensures { IfOk result (λ rs. WritesRegions (λ m. EachRegionIn (said_by guide.now m) number (regions_in (map region_plain regions.now))) (λ m more. held_regions m.ways number (regions_in (map region_plain regions.now)) ++ more) (record { regions = []; notes = notes_view notes.old }) (record { regions = map region_plain rs; notes = notes_view notes.new })) }
{
    let mut list = Items::new(guide.alloc);
    let mut number = number;
    for region in regions {
        let blocks = write_blocks(region.blocks.as_slice(), number, guide, notes)?;
        list.push(region_of(blocks))?;
        number = guide.behind_blocks(region.blocks.as_slice(), number)?;
    }
    Ok(list)
}

/// The blocks that these become.
#[cycle(write)]
pub fn write_blocks(
    blocks: &[BlockTree],
    number: u32,
    guide: &Guide<'_>,
    notes: &mut Notes,
) -> Result<BlockList, NoMemory>
    ensures { IfOk result (λ bs. WritesBlocks (λ m. EachBlockIn (said_by guide.now m) number (blocks_in (map block_plain blocks.now))) (λ m more. held_blocks m.ways number (blocks_in (map block_plain blocks.now)) ++ more) (record { blocks = []; notes = notes_view notes.old }) (record { blocks = map block_plain bs; notes = notes_view notes.new })) }
{
    let mut list = Items::new(guide.alloc);
    let mut number = number;
    for block in blocks {
        let more = write_block(block, number, guide, notes)?;
        list.append(more)?;
        number = guide.behind(block.ops.as_slice(), number)?;
    }
    Ok(list)
}

/// The blocks that one becomes.
#[cycle(write)]
fn write_block(
    block: &BlockTree,
    number: u32,
    guide: &Guide<'_>,
    notes: &mut Notes,
) -> Result<BlockList, NoMemory>
    ensures { IfOk result (λ bs. WritesBlocks (λ m. EachBlockIn (said_by guide.now m) number (one_block (block_plain block.now))) (λ m more. held_blocks m.ways number (one_block (block_plain block.now)) ++ more) (record { blocks = []; notes = notes_view notes.old }) (record { blocks = map block_plain bs; notes = notes_view notes.new })) }
{
    let args = copy_values(guide.alloc, block.args.as_slice())?;
    let mut page = Page::new(guide.alloc, block.label, args);
    write_ops(block.ops.as_slice(), number, false, guide, &mut page, notes)?;
    let blocks = page.end()?;
    Ok(blocks)
}

/// The place of a piece, from 1 on.
fn piece_place(index: usize) -> Result<u32, NoMemory>
    ensures { IfOk result (λ k. k ≡ index + 1) }
{
    let Ok(index) = u32::try_from(index) else {
        return Err(AllocError);
    };
    sum(index, 1)
}

/// The pieces that an operation is cut into.
#[cycle(write)]
fn write_cut(
    op: &OpTree,
    number: u32,
    pieces: &[PieceTree],
    lines: &[Option<TemplateTree>],
    guide: &Guide<'_>,
    page: &mut Page,
    notes: &mut Notes,
) -> Result<(), NoMemory>
    ensures { OnOk result ((at : ℕ) → Writes (λ m. EachRegionIn (said_by guide.now m) (number + 1) (regions_of (plain_op op.now)) × LinesSay m.ways (supply_of m.table) number at 1 (pieces_of ((supply_of m.table).row number) m.types pieces.now) lines.now)
        (λ m more. cut_into m.ways number at (held_regions m.ways (number + 1) (regions_of (plain_op op.now))) 1 (pieces_of ((supply_of m.table).row number) m.types pieces.now) more) (state_of page.old notes.old) (state_of page.new notes.new)) }
{
    for (index, piece) in pieces.iter().enumerate() {
        let place = piece_place(index)?;
        write_piece(
            op,
            piece,
            (number, place),
            line_at(lines, index),
            guide,
            page,
            notes,
        )?;
    }
    Ok(())
}

/// A piece of a cut, by the number of the operation and the place of the piece.
#[cycle(write)]
fn write_piece(
    op: &OpTree,
    piece: &PieceTree,
    place: (u32, u32),
    line: Option<&TemplateTree>,
    guide: &Guide<'_>,
    page: &mut Page,
    notes: &mut Notes,
) -> Result<(), NoMemory>
    ensures { OnOk result ((at : ℕ) → Writes (λ m. EachRegionIn (said_by guide.now m) (place.0 + 1) (regions_of (plain_op op.now)) × PieceSays m.ways (supply_of m.table) place.0 at place.1 (piece_of ((supply_of m.table).row place.0) m.types piece.now) (plain_line line.entry))
        (λ m more. cut_into m.ways place.0 at (held_regions m.ways (place.0 + 1) (regions_of (plain_op op.now))) place.1 (piece_of ((supply_of m.table).row place.0) m.types piece.now ∷ []) more) (state_of page.old notes.old) (state_of page.new notes.new)) }
{
    match piece {
        PieceTree::Product(product) => write_product(product, place, line, guide, page, notes)?,
        PieceTree::Opens(label, args) => write_opens(
            *label,
            args.as_slice(),
            place.0,
            guide,
            page,
            notes,
        )?,
        PieceTree::Held(region, block) => {
            let first = sum(place.0, 1)?;
            write_held(
                op.regions.as_slice(),
                first,
                (*region, *block),
                guide,
                page,
                notes,
            )?;
        }
        PieceTree::Stands(known, _, value) => notes.pairs.push((*known, *value))?,
    }
    Ok(())
}

/// The operations of a block in front of its terminator, by the places of its region and of itself; none where there is no
/// such block.
#[cycle(write)]
fn write_held(
    regions: &[RegionTree],
    number: u32,
    place: (u32, u32),
    guide: &Guide<'_>,
    page: &mut Page,
    notes: &mut Notes,
) -> Result<(), NoMemory>
    ensures { OnOk result (Writes (λ m. EachRegionIn (said_by guide.now m) number (regions_in (map region_plain regions.now))) (λ m more. held_at place.0 place.1 (held_regions m.ways number (regions_in (map region_plain regions.now))) more) (state_of page.old notes.old) (state_of page.new notes.new)) }
{
    let mut number = number;
    let mut left = place.0;
    for region in regions {
        if left == 0 {
            write_held_in(
                region.blocks.as_slice(),
                number,
                place.1,
                guide,
                page,
                notes,
            )?;
            return Ok(());
        }
        left -= 1;
        number = guide.behind_blocks(region.blocks.as_slice(), number)?;
    }
    Ok(())
}

#[cycle(write)]
fn write_held_in(
    blocks: &[BlockTree],
    number: u32,
    place: u32,
    guide: &Guide<'_>,
    page: &mut Page,
    notes: &mut Notes,
) -> Result<(), NoMemory>
    ensures { OnOk result (Writes (λ m. EachBlockIn (said_by guide.now m) number (blocks_in (map block_plain blocks.now))) (λ m more. held_in place (held_blocks m.ways number (blocks_in (map block_plain blocks.now))) more) (state_of page.old notes.old) (state_of page.new notes.new)) }
{
    let mut number = number;
    let mut left = place;
    for block in blocks {
        if left == 0 {
            write_ops(block.ops.as_slice(), number, true, guide, page, notes)?;
            return Ok(());
        }
        left -= 1;
        number = guide.behind(block.ops.as_slice(), number)?;
    }
    Ok(())
}
