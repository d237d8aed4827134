//! The graph of the uses of a function's operations.
#![tactic(auto, using(crate::proofs::Layers::layers))]

ghost use Rattle.std.specs.Prelude.{◌≡◌, ◌++◌, [], IfOk, OnOk, map};
ghost use Rattle.plain_tree.specs.Ops.{blocks_in, ops_in, plain_op, plain_values, regions_in};
ghost use Rattle.rule_model.specs.Chains.{blocks_operands, op_operands, ops_operands, regions_operands};
ghost use Rattle.rule_model.specs.Words.{numbers};
ghost use Rattle.value_types.specs.Trees.{plain_block, plain_region};
ghost use Rattle.block_search.specs.Reach.{rows};
ghost use Rattle.first_places.specs.Tables.{nothing_yet, table_in, with_first, with_firsts};
ghost use Rattle.own_uses.specs.Flat.{graph, if_made, maker_in, makers_from, makers_of, numbered, row_for, row_of};
ghost use Rattle.own_uses.specs.Views.{plain_ops};

use std::alloc::Global;
use std::collections::HashMap;
use tree_model::{BlockTree, NoMemory, OpTree, RegionTree, TypeTree};

/// The numbers of the operations by their results.
type Makers = HashMap<u32, usize>;

fn note(makers: &mut Makers, value: u32, number: usize) -> Result<(), NoMemory>
    ensures { OnOk result (table_in makers.new ≡ with_first (table_in makers.old) value number) }
{
    if makers.contains_key(&value) {
        return Ok(());
    }
    makers.insert(value, number)?;
    Ok(())
}

fn note_results(
    makers: &mut Makers,
    results: &[(u32, TypeTree)],
    number: usize,
) -> Result<(), NoMemory>
    ensures { OnOk result (table_in makers.new ≡ with_firsts (table_in makers.old) (numbered number (numbers (plain_values results.now)))) }
{
    for value in results {
        note(makers, value.0, number)?;
    }
    Ok(())
}

fn makers_in(alloc: Global, ops: &[&OpTree]) -> Result<Makers, NoMemory>
    ensures { IfOk result (λ makers. table_in makers ≡ maker_in (plain_ops ops.now)) }
{
    let mut makers = HashMap::new(alloc);
    for (number, op) in ops.iter().enumerate() {
        note_results(&mut makers, op.results.as_slice(), number)?;
    }
    Ok(makers)
}

fn maker_of(makers: &Makers, value: u32) -> Option<usize>
    ensures { result ≡ table_in makers.now value }
{
    makers.get(&value).copied()
}

fn put_maker(row: &mut Vec<usize>, maker: Option<usize>) -> Result<(), NoMemory>
    ensures { OnOk result (row.new.items ≡ row.old.items ++ if_made maker []) }
{
    match maker {
        Some(number) => {
            row.push(number)?;
            Ok(())
        }
        None => Ok(()),
    }
}

fn collect_values(row: &mut Vec<usize>, makers: &Makers, values: &[u32]) -> Result<(), NoMemory>
    ensures { OnOk result (row.new.items ≡ row.old.items ++ makers_of (table_in makers.now) values.now) }
{
    for value in values {
        put_maker(row, maker_of(makers, *value))?;
    }
    Ok(())
}

#[cycle(collect_op)]
fn collect_op(row: &mut Vec<usize>, makers: &Makers, op: &OpTree) -> Result<(), NoMemory>
    ensures { OnOk result (row.new.items ≡ row.old.items ++ makers_of (table_in makers.now) (op_operands (plain_op op.now))) }
{
    collect_values(row, makers, op.operands.as_slice())?;
    collect_regions(row, makers, op.regions.as_slice())
}

#[cycle(collect_op)]
fn collect_regions(
    row: &mut Vec<usize>,
    makers: &Makers,
    regions: &[RegionTree],
) -> Result<(), NoMemory>
    ensures { OnOk result (row.new.items ≡ row.old.items ++ makers_of (table_in makers.now) (regions_operands (regions_in (map plain_region regions.now)))) }
{
    for region in regions {
        collect_region(row, makers, region)?;
    }
    Ok(())
}

#[cycle(collect_op)]
fn collect_region(
    row: &mut Vec<usize>,
    makers: &Makers,
    region: &RegionTree,
) -> Result<(), NoMemory>
    ensures { OnOk result (row.new.items ≡ row.old.items ++ makers_of (table_in makers.now) (blocks_operands (plain_region region.now))) }
{
    collect_blocks(row, makers, region.blocks.as_slice())
}

#[cycle(collect_op)]
fn collect_blocks(
    row: &mut Vec<usize>,
    makers: &Makers,
    blocks: &[BlockTree],
) -> Result<(), NoMemory>
    ensures { OnOk result (row.new.items ≡ row.old.items ++ makers_of (table_in makers.now) (blocks_operands (blocks_in (map plain_block blocks.now)))) }
{
    for block in blocks {
        collect_block(row, makers, block)?;
    }
    Ok(())
}

#[cycle(collect_op)]
fn collect_block(row: &mut Vec<usize>, makers: &Makers, block: &BlockTree) -> Result<(), NoMemory>
    ensures { OnOk result (row.new.items ≡ row.old.items ++ makers_of (table_in makers.now) (ops_operands (plain_block block.now).ops)) }
{
    collect_ops(row, makers, block.ops.as_slice())
}

#[cycle(collect_op)]
fn collect_ops(row: &mut Vec<usize>, makers: &Makers, ops: &[OpTree]) -> Result<(), NoMemory>
    ensures { OnOk result (row.new.items ≡ row.old.items ++ makers_of (table_in makers.now) (ops_operands (ops_in (map plain_op ops.now)))) }
{
    for op in ops {
        collect_op(row, makers, op)?;
    }
    Ok(())
}

/// The operations that make what an operation with these results, or one in it, uses; nothing where it has no result, since nothing
/// uses it then.
fn row_for(
    alloc: Global,
    makers: &Makers,
    op: &OpTree,
    results: &[(u32, TypeTree)],
) -> Result<Vec<usize>, NoMemory>
    ensures { IfOk result (λ row. row.items ≡ row_for (table_in makers.now) (numbers (plain_values results.now)) (op_operands (plain_op op.now))) }
{
    let mut row = Vec::new(alloc);
    match results {
        [] => Ok(row),
        [_first, ..] => {
            collect_op(&mut row, makers, op)?;
            Ok(row)
        }
    }
}

fn row_of(alloc: Global, makers: &Makers, op: &OpTree) -> Result<Vec<usize>, NoMemory>
    ensures { IfOk result (λ row. row.items ≡ row_of (table_in makers.now) (plain_op op.now)) }
{
    let results = op.results.as_slice();
    let row = row_for(alloc, makers, op, results)?;
    Ok(row)
}

fn rows_of(alloc: Global, makers: &Makers, ops: &[&OpTree]) -> Result<Vec<Vec<usize>>, NoMemory>
    ensures { IfOk result (λ edges. rows edges.items ≡ map (row_of (table_in makers.now)) (plain_ops ops.now)) }
{
    let mut edges = Vec::with_capacity(alloc, ops.len())?;
    for op in ops {
        edges.push(row_of(alloc, makers, op)?)?;
    }
    Ok(edges)
}

/// The graph of the uses of these operations by their numbers.
pub fn edges_of(alloc: Global, ops: &[&OpTree]) -> Result<Vec<Vec<usize>>, NoMemory>
    ensures { IfOk result (λ edges. rows edges.items ≡ graph (plain_ops ops.now)) }
{
    let makers = makers_in(alloc, ops)?;
    rows_of(alloc, &makers, ops)
}
