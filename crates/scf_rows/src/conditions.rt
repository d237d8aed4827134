//! `scf.if`, `scf.execute_region`.

ghost use Rattle.std.specs.Prelude.{◌≡◌, ◌++◌, IfOk, OnOk, Some};
ghost use Rattle.scf_rows.specs.Trees.{execute_blocks as blocks_cut, execute_trees, held_trees, if_either as either_cut, if_one as one_cut, if_trees, if_two as two_cut, block_trees, passed_tree};

use crate::products::{conditional, open, plain_branch, push_yields};
use crate::regions::{Alone, only_block};
use cut_code::{BlockSketch, CutLabel, CutValue, OpSketch, PieceList, PieceTree};
use sqlite_items::Items;
use std::alloc::{AllocError, Global};
use tree_model::{IdList, NoMemory, TypeTree, one};

/// Without an else region the second successor is the rest.
fn if_one(
    alloc: Global,
    results: &[(u32, TypeTree)],
    on: u32,
    first: &Alone,
) -> Result<PieceList, NoMemory>
    ensures { IfOk result (λ ps. Some ps ≡ one_cut results.now on (Some first.now)) }
{
    let to = CutLabel::Old(first.label);
    let rest = CutLabel::New(0);
    let test = conditional(alloc, Items::new(alloc), CutValue::Old(on), &[], to, rest)?;
    let mut pieces = one(alloc, test)?;
    push_yields(&mut pieces, alloc, 0, first)?;
    open(&mut pieces, alloc, rest, results)?;
    Ok(pieces)
}

fn if_two(
    alloc: Global,
    results: &[(u32, TypeTree)],
    on: u32,
    first: &Alone,
    other: &Alone,
) -> Result<PieceList, NoMemory>
    ensures { IfOk result (λ ps. Some ps ≡ two_cut results.now on (Some first.now) (Some other.now)) }
{
    let to = CutLabel::Old(first.label);
    let second = CutLabel::Old(other.label);
    let test = conditional(alloc, Items::new(alloc), CutValue::Old(on), &[], to, second)?;
    let mut pieces = one(alloc, test)?;
    push_yields(&mut pieces, alloc, 0, first)?;
    push_yields(&mut pieces, alloc, 1, other)?;
    open(&mut pieces, alloc, CutLabel::New(0), results)?;
    Ok(pieces)
}

fn if_either(
    alloc: Global,
    results: &[(u32, TypeTree)],
    on: u32,
    first: &Alone,
    others: &[BlockSketch],
) -> Result<Option<PieceList>, NoMemory>
    ensures { IfOk result (λ o. o ≡ either_cut results.now on (Some first.now) others.now) }
{
    if others.is_empty() {
        let pieces = if_one(alloc, results, on, first)?;
        return Ok(Some(pieces));
    }
    let Some(other) = only_block(alloc, others)? else {
        return Ok(None);
    };
    let pieces = if_two(alloc, results, on, first, &other)?;
    Ok(Some(pieces))
}

pub fn if_cut(alloc: Global, op: &OpSketch) -> Result<Option<PieceList>, NoMemory>
    ensures { IfOk result (λ o. o ≡ if_trees op.now.results op.now.operands op.now.regions op.now.successors) }
{
    if op.successors != 0 {
        return Ok(None);
    }
    let ([on], [first, other]) = (op.operands.as_slice(), op.regions.as_slice()) else {
        return Ok(None);
    };
    let Some(first) = only_block(alloc, first.blocks.as_slice())? else {
        return Ok(None);
    };
    let pieces = if_either(
        alloc,
        op.results.as_slice(),
        *on,
        &first,
        other.blocks.as_slice(),
    )?;
    Ok(pieces)
}

// Where a block yields, a branch to the rest.
fn push_passed(
    pieces: &mut PieceList,
    alloc: Global,
    passed: &Option<IdList>,
) -> Result<(), NoMemory>
    ensures { OnOk result (pieces.new ≡ pieces.old ++ passed_tree passed.now) }
{
    if let Some(passed) = passed {
        let end = plain_branch(alloc, passed.as_slice(), CutLabel::New(0))?;
        pieces.push(end)?;
        return Ok(());
    }
    Ok(())
}

fn push_block(
    pieces: &mut PieceList,
    alloc: Global,
    place: usize,
    block: &BlockSketch,
) -> Result<(), NoMemory>
    ensures { OnOk result (pieces.new ≡ pieces.old ++ block_trees place block.now) }
{
    let Ok(place) = u32::try_from(place) else {
        return Err(AllocError);
    };
    open(
        pieces,
        alloc,
        CutLabel::Old(block.label),
        block.args.as_slice(),
    )?;
    pieces.push(PieceTree::Held(0, place))?;
    push_passed(pieces, alloc, &block.passed)?;
    Ok(())
}

fn push_blocks(
    pieces: &mut PieceList,
    alloc: Global,
    blocks: &[BlockSketch],
) -> Result<(), NoMemory>
    ensures { OnOk result (pieces.new ≡ pieces.old ++ held_trees 0 blocks.now) }
{
    'each: for place in 0..blocks.len() {
        push_block(pieces, alloc, place, &blocks[place])?;
    }
    Ok(())
}

fn execute_blocks(
    alloc: Global,
    results: &[(u32, TypeTree)],
    blocks: &[BlockSketch],
) -> Result<Option<PieceList>, NoMemory>
    ensures { IfOk result (λ o. o ≡ blocks_cut results.now blocks.now) }
{
    let [first, ..] = blocks else {
        return Ok(None);
    };
    let begin = plain_branch(alloc, &[], CutLabel::Old(first.label))?;
    let mut pieces = one(alloc, begin)?;
    push_blocks(&mut pieces, alloc, blocks)?;
    open(&mut pieces, alloc, CutLabel::New(0), results)?;
    Ok(Some(pieces))
}

pub fn execute_cut(alloc: Global, op: &OpSketch) -> Result<Option<PieceList>, NoMemory>
    ensures { IfOk result (λ o. o ≡ execute_trees op.now.results op.now.operands op.now.regions op.now.successors) }
{
    if op.successors != 0 {
        return Ok(None);
    }
    let ([], [region]) = (op.operands.as_slice(), op.regions.as_slice()) else {
        return Ok(None);
    };
    let pieces = execute_blocks(alloc, op.results.as_slice(), region.blocks.as_slice())?;
    Ok(pieces)
}
