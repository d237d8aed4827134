//! Where the values of a region are defined.
#![tactic(auto, using(crate::proofs::Layers::layers))]

ghost use Rattle.std.specs.Prelude.{◌≡◌, IfOk, OnOk, map};
ghost use Rattle.plain_tree.specs.Ops.{blocks_in, ops_in, plain_op, plain_values};
ghost use Rattle.rule_model.specs.Words.{count_of, numbers};
ghost use Rattle.value_types.specs.Trees.{plain_block};
ghost use Rattle.use_paths.specs.Blocks.{all_at, homes_from, op_homes};
ghost use Rattle.first_places.specs.Tables.{nothing_yet, table_in, with_first, with_firsts};

use std::alloc::Global;
use std::collections::HashMap;
use tree_model::{BlockTree, NoMemory, OpTree, TypeTree};

/// Where a value is defined in a region: the place of the block, and how many of its operations stand behind the definition.
#[derive(Clone, Copy)]
pub struct Home {
    pub block: usize,
    pub left: usize,
}

fn note(homes: &mut HashMap<u32, Home>, value: u32, home: Home) -> Result<(), NoMemory>
    ensures { OnOk result (table_in homes.new ≡ with_first (table_in homes.old) value home) }
{
    if homes.contains_key(&value) {
        return Ok(());
    }
    homes.insert(value, home)?;
    Ok(())
}

fn note_values(
    homes: &mut HashMap<u32, Home>,
    values: &[(u32, TypeTree)],
    home: Home,
) -> Result<(), NoMemory>
    ensures { OnOk result (table_in homes.new ≡ with_firsts (table_in homes.old) (all_at home (numbers (plain_values values.now)))) }
{
    for value in values {
        note(homes, value.0, home)?;
    }
    Ok(())
}

fn note_ops(homes: &mut HashMap<u32, Home>, ops: &[OpTree], block: usize) -> Result<(), NoMemory>
    ensures { OnOk result (table_in homes.new ≡ with_firsts (table_in homes.old) (op_homes block (ops_in (map plain_op ops.now)))) }
{
    for (index, op) in ops.iter().enumerate() {
        let left = ops.len() - index - 1;
        note_values(homes, op.results.as_slice(), Home { block, left })?;
    }
    Ok(())
}

fn note_block(
    homes: &mut HashMap<u32, Home>,
    block: &BlockTree,
    place: usize,
) -> Result<(), NoMemory>
    ensures { OnOk result (table_in homes.new ≡ with_firsts (with_firsts (table_in homes.old) (all_at (record { block = place; left = count_of (plain_block block.now).ops }) (numbers (plain_block block.now).args))) (op_homes place (plain_block block.now).ops)) }
{
    let left = block.ops.len();
    note_values(homes, block.args.as_slice(), Home { block: place, left })?;
    note_ops(homes, block.ops.as_slice(), place)?;
    Ok(())
}

/// Where each value is defined that a region itself defines, as an argument of a block or as a result of an operation of one.
pub fn homes_of(alloc: Global, blocks: &[BlockTree]) -> Result<HashMap<u32, Home>, NoMemory>
    ensures { IfOk result (λ homes. table_in homes ≡ with_firsts nothing_yet (homes_from 0 (blocks_in (map plain_block blocks.now)))) }
{
    let mut homes = HashMap::new(alloc);
    for (place, block) in blocks.iter().enumerate() {
        note_block(&mut homes, block, place)?;
    }
    Ok(homes)
}
