//! The walk along the places of a function, which fills its table.

ghost use Rattle.std.specs.Prelude.{◌≡◌, OnOk, IfOk, map, flat_map};
ghost use Rattle.text_model.specs.PrintedPlaces.{places_of_op, places_of_region, places_of_block, places_from};
ghost use Rattle.text_model.specs.PrintedNames.{names_of};
ghost use Rattle.generic_printer.specs.Counters.{with_places};
ghost use Rattle.generic_printer.specs.NamesIn.{names_in, counters_in};

use crate::table::{Table, next};
use std::alloc::Global;
use tree_model::{BlockTree, NoMemory, OpTree, RegionTree};

/// The table of a function, by the operation that defines it.
#[tactic(auto, using(crate::proofs::Counts::names_by_walk))]
pub fn table_of<'a>(alloc: Global, op: &'a OpTree) -> Result<Table<'a>, NoMemory>
    ensures { IfOk result (λ table. names_in table ≡ names_of op.now) }
{
    let mut table = Table::new(alloc);
    name_op(&mut table, op)?;
    Ok(table)
}

#[cycle(name_op)]
#[tactic(auto, using(crate::proofs::Walk::walk_laws))]
fn name_op<'a>(table: &mut Table<'a>, op: &'a OpTree) -> Result<(), NoMemory>
    ensures { OnOk result (counters_in table.new
        ≡ with_places (counters_in table.old) (places_of_op op.now)) }
{
    table.name_results(op.results.as_slice())?;
    table.name_targets(op.successors.as_slice())?;
    name_regions(table, op.regions.as_slice())
}

#[cycle(name_op)]
#[tactic(auto, using(crate::proofs::Walk::walk_laws))]
fn name_regions<'a>(table: &mut Table<'a>, regions: &'a [RegionTree]) -> Result<(), NoMemory>
    ensures { OnOk result (counters_in table.new
        ≡ with_places (counters_in table.old) (flat_map (λ ps. ps) (map places_of_region regions.now))) }
{
    for region in regions {
        name_blocks(table, region.blocks.as_slice())?;
    }
    Ok(())
}

#[cycle(name_op)]
#[tactic(auto, using(crate::proofs::Walk::walk_laws))]
fn name_blocks<'a>(table: &mut Table<'a>, blocks: &'a [BlockTree]) -> Result<(), NoMemory>
    ensures { OnOk result (counters_in table.new
        ≡ with_places (counters_in table.old) (places_from 0 (map places_of_block blocks.now))) }
{
    let mut position = 0;
    for block in blocks {
        table.name_block(position, block.label)?;
        table.name_block_arguments(position, block.args.as_slice())?;
        name_ops(table, block.ops.as_slice())?;
        position = next(position)?;
    }
    Ok(())
}

#[cycle(name_op)]
#[tactic(auto, using(crate::proofs::Walk::walk_laws))]
fn name_ops<'a>(table: &mut Table<'a>, ops: &'a [OpTree]) -> Result<(), NoMemory>
    ensures { OnOk result (counters_in table.new
        ≡ with_places (counters_in table.old) (flat_map (λ ps. ps) (map places_of_op ops.now))) }
{
    for op in ops {
        name_op(table, op)?;
    }
    Ok(())
}
