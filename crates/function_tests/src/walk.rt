//! The operations of a function in the order of the text.
#![tactic(auto, using(crate::proofs::Runs::layers))]

ghost use Rattle.std.specs.Prelude.{◌≡◌, ◌+◌, true, IfOk, Some, None, map};
ghost use Rattle.std.specs.Option.{option_map};
ghost use Rattle.plain_tree.specs.Ops.{blocks_in, end_of_blocks, ops_in, plain_op, regions_in};
ghost use Rattle.plain_tree.specs.Types.{plain_type};
ghost use Rattle.tree_model.specs.declared.op_tree.OpTree.{out-OpTree};
ghost use Rattle.value_types.specs.Trees.{plain_block, plain_region};
ghost use Rattle.value_types.specs.Views.{plain_types};
ghost use Rattle.rule_facts.specs.Views.{heads_view, holder_view};
ghost use Rattle.rule_tests.specs.Firsts.{all_tests, first_of};
ghost use Rattle.function_tests.specs.Heads.{heads_in};
ghost use Rattle.function_tests.specs.Walks.{Passed, Ready, answered, blocks_facts, facts_at, holder_of, op_facts, ops_facts, regions_facts, run, seen_by, typed_by};

use crate::gather::{heads_of, regions_of};
use crate::operation::{Around, Walk, first_at};
use rule_facts::Holder;
use rule_model::Rule;
use std::alloc::{AllocError, Global};
use tree_model::{BlockTree, NoMemory, OpTree, RegionTree, TypeTree};
use value_types::borrowed;

/// One operation more. So many that a `usize` can't tell would have no place in memory.
fn one_more(count: usize) -> Result<usize, NoMemory>
    ensures { IfOk result (λ n. n ≡ count + 1) }
{
    match count.checked_add(1) {
        Some(next) => Ok(next),
        None => Err(AllocError),
    }
}

/// The first test that an operation breaks, with these types of operands and results.
fn first_with(
    alloc: Global,
    walk: &Walk<'_>,
    around: &Around<'_>,
    last: bool,
    op: &OpTree,
    operands: &[&TypeTree],
    results: &[&TypeTree],
) -> Result<Option<Rule>, NoMemory>
    requires ready { Ready walk.now }
    requires heads { heads_view around.now.heads.now ≡ heads_in around.now.blocks.now }
    requires operands { plain_types operands.now ≡ map (typed_by walk.now) (out-OpTree op.now).operands }
    requires results { plain_types results.now ≡ map (λ v. plain_type v.1) (out-OpTree op.now).results }
    ensures { IfOk result (λ r. r ≡ first_of (seen_by walk.now) (facts_at (typed_by walk.now) (option_map holder_view around.now.holder) (blocks_in (map plain_block around.now.blocks.now)) last (plain_op op.now)) all_tests) }
{
    let regions = regions_of(alloc, op.regions.as_slice())?;
    first_at(
        alloc,
        walk,
        around,
        last,
        op,
        operands,
        results,
        regions.as_slice(),
    )
}

#[cycle(walk)]
fn first_in_op(
    alloc: Global,
    walk: &Walk<'_>,
    around: &Around<'_>,
    last: bool,
    op: &OpTree,
    count: &mut usize,
) -> Result<Option<Rule>, NoMemory>
    requires ready { Ready walk.now }
    requires heads { heads_view around.now.heads.now ≡ heads_in around.now.blocks.now }
    ensures { IfOk result (λ r. answered r count.new ≡ run (seen_by walk.now) (Passed count.old) (op_facts (typed_by walk.now) (option_map holder_view around.now.holder) (blocks_in (map plain_block around.now.blocks.now)) last (plain_op op.now))) }
{
    let operands = walk
        .types
        .types_of(alloc, op.operands.as_slice(), walk.void)?;
    let results = borrowed(alloc, op.results.as_slice())?;
    let holder = Holder {
        name: &op.name,
        props: op.props.as_slice(),
        operands: operands.as_slice(),
        results: results.as_slice(),
        region: 0,
    };
    match first_with(
        alloc,
        walk,
        around,
        last,
        op,
        holder.operands,
        holder.results,
    )? {
        Some(rule) => Ok(Some(rule)),
        None => {
            *count = one_more(*count)?;
            Ok(first_in_regions(alloc, walk, &holder, op.regions.as_slice(), count)?)
        }
    }
}

#[cycle(walk)]
fn first_in_regions(
    alloc: Global,
    walk: &Walk<'_>,
    holder: &Holder<'_>,
    regions: &[RegionTree],
    count: &mut usize,
) -> Result<Option<Rule>, NoMemory>
    requires ready { Ready walk.now }
    ensures { IfOk result (λ r. answered r count.new ≡ run (seen_by walk.now) (Passed count.old) (regions_facts (typed_by walk.now) (holder_of (holder_view holder.now)) 0 (regions_in (map plain_region regions.now)))) }
{
    for (place, region) in regions.iter().enumerate() {
        let here = Holder {
            region: place,
            ..*holder
        };
        if let Some(rule) = first_in_region(alloc, walk, here, region, count)? {
            return Ok(Some(rule));
        }
    }
    Ok(None)
}

#[cycle(walk)]
fn first_in_region(
    alloc: Global,
    walk: &Walk<'_>,
    holder: Holder<'_>,
    region: &RegionTree,
    count: &mut usize,
) -> Result<Option<Rule>, NoMemory>
    requires ready { Ready walk.now }
    ensures { IfOk result (λ r. answered r count.new ≡ run (seen_by walk.now) (Passed count.old) (blocks_facts (typed_by walk.now) (Some (holder_view holder.entry)) (plain_region region.now) (plain_region region.now))) }
{
    let heads = heads_of(alloc, region.blocks.as_slice())?;
    let around = Around {
        holder: Some(holder),
        blocks: region.blocks.as_slice(),
        heads: heads.as_slice(),
    };
    first_in_blocks(alloc, walk, &around, region.blocks.as_slice(), count)
}

#[cycle(walk)]
fn first_in_blocks(
    alloc: Global,
    walk: &Walk<'_>,
    around: &Around<'_>,
    blocks: &[BlockTree],
    count: &mut usize,
) -> Result<Option<Rule>, NoMemory>
    requires ready { Ready walk.now }
    requires heads { heads_view around.now.heads.now ≡ heads_in around.now.blocks.now }
    ensures { IfOk result (λ r. answered r count.new ≡ run (seen_by walk.now) (Passed count.old) (blocks_facts (typed_by walk.now) (option_map holder_view around.now.holder) (blocks_in (map plain_block around.now.blocks.now)) (blocks_in (map plain_block blocks.now)))) }
{
    for block in blocks {
        if let Some(rule) = first_in_block(alloc, walk, around, block, count)? {
            return Ok(Some(rule));
        }
    }
    Ok(None)
}

#[cycle(walk)]
fn first_in_block(
    alloc: Global,
    walk: &Walk<'_>,
    around: &Around<'_>,
    block: &BlockTree,
    count: &mut usize,
) -> Result<Option<Rule>, NoMemory>
    requires ready { Ready walk.now }
    requires heads { heads_view around.now.heads.now ≡ heads_in around.now.blocks.now }
    ensures { IfOk result (λ r. answered r count.new ≡ run (seen_by walk.now) (Passed count.old) (ops_facts (typed_by walk.now) (option_map holder_view around.now.holder) (blocks_in (map plain_block around.now.blocks.now)) (plain_block block.now).ops)) }
{
    first_in_ops(alloc, walk, around, block.ops.as_slice(), count)
}

#[cycle(walk)]
fn first_in_ops(
    alloc: Global,
    walk: &Walk<'_>,
    around: &Around<'_>,
    ops: &[OpTree],
    count: &mut usize,
) -> Result<Option<Rule>, NoMemory>
    requires ready { Ready walk.now }
    requires heads { heads_view around.now.heads.now ≡ heads_in around.now.blocks.now }
    ensures { IfOk result (λ r. answered r count.new ≡ run (seen_by walk.now) (Passed count.old) (ops_facts (typed_by walk.now) (option_map holder_view around.now.holder) (blocks_in (map plain_block around.now.blocks.now)) (ops_in (map plain_op ops.now)))) }
{
    for (place, op) in ops.iter().enumerate() {
        let last = place + 1 == ops.len();
        match first_in_op(alloc, walk, around, last, op, count)? {
            Some(rule) => return Ok(Some(rule)),
            None => {}
        }
    }
    Ok(None)
}

/// The first operation of a function that breaks a test, by its number, and the first test that it breaks; else how many there are.
pub fn first_in(
    alloc: Global,
    walk: &Walk<'_>,
    op: &OpTree,
    count: &mut usize,
) -> Result<Option<Rule>, NoMemory>
    requires { Ready walk.now }
    ensures { IfOk result (λ r. answered r count.new ≡ run (seen_by walk.now) (Passed count.old) (op_facts (typed_by walk.now) None end_of_blocks true (plain_op op.now))) }
{
    let around = Around {
        holder: None,
        blocks: &[],
        heads: &[],
    };
    first_in_op(alloc, walk, &around, true, op, count)
}
