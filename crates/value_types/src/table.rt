//! The types of the values of a function, by their numbers.
#![tactic(auto, using(crate::proofs::Layers::layers))]

ghost use Rattle.std.specs.Prelude.{◌≡◌, IfOk, OnOk, [], map};
ghost use Rattle.plain_tree.specs.Types.{plain_type, Void};
ghost use Rattle.plain_tree.specs.Ops.{blocks_in, ops_in, plain_op, plain_values, regions_in};
ghost use Rattle.plain_tree.specs.Values as model;
ghost use Rattle.value_types.specs.Trees.{plain_block, plain_region};
ghost use Rattle.value_types.specs.Views.{at_start, plain_types, type_at, types_in, with_first, with_types};

use std::alloc::Global;
use std::collections::HashMap;
use tree_model::{BlockTree, NoMemory, OpTree, RegionTree, TypeTree};

/// The types of values by their numbers. A number that is defined twice has the type that it got first.
#[derive(Drop)]
pub struct ValueTypes<'a> {
    pub by_number: HashMap<u32, &'a TypeTree>,
}

impl<'a> ValueTypes<'a> {
    fn new(alloc: Global) -> ValueTypes<'a>
        ensures { types_in result ≡ at_start }
    {
        ValueTypes {
            by_number: HashMap::new(alloc),
        }
    }

    /// Gives a number its type, where it has none yet.
    fn note(&mut self, value: &'a (u32, TypeTree)) -> Result<(), NoMemory>
        ensures { OnOk result (types_in self.new ≡ with_first (types_in self.old) value.now.0 (plain_type value.now.1)) }
    {
        if self.by_number.contains_key(&value.0) {
            return Ok(());
        }
        self.by_number.insert(value.0, &value.1)?;
        Ok(())
    }

    fn note_values(&mut self, values: &'a [(u32, TypeTree)]) -> Result<(), NoMemory>
        ensures { OnOk result (types_in self.new ≡ with_types (types_in self.old) (plain_values values.now)) }
    {
        for value in values {
            self.note(value)?;
        }
        Ok(())
    }

    /// The type of a value, `void` where it is defined nowhere.
    pub fn type_of(&self, number: u32, void: &'a TypeTree) -> &'a TypeTree
        requires { plain_type void.now ≡ Void }
        ensures { plain_type result.now ≡ type_at self.now number }
    {
        match self.by_number.get(&number) {
            Some(t) => *t,
            None => void,
        }
    }

    /// The types of values.
    pub fn types_of(
        &self,
        alloc: Global,
        numbers: &[u32],
        void: &'a TypeTree,
    ) -> Result<Vec<&'a TypeTree>, NoMemory>
        requires { plain_type void.now ≡ Void }
        ensures { IfOk result (λ ts. plain_types ts.items ≡ map (type_at self.now) numbers.now) }
    {
        let mut types = Vec::with_capacity(alloc, numbers.len())?;
        for number in numbers {
            types.push(self.type_of(*number, void))?;
        }
        Ok(types)
    }
}

#[cycle(note_op)]
fn note_op<'a>(types: &mut ValueTypes<'a>, op: &'a OpTree) -> Result<(), NoMemory>
    ensures { OnOk result (types_in types.new ≡ with_types (types_in types.old) (model.op_values (plain_op op.now) [])) }
{
    types.note_values(op.results.as_slice())?;
    note_regions(types, op.regions.as_slice())
}

#[cycle(note_op)]
fn note_regions<'a>(types: &mut ValueTypes<'a>, regions: &'a [RegionTree]) -> Result<(), NoMemory>
    ensures { OnOk result (types_in types.new ≡ with_types (types_in types.old) (model.regions_values (regions_in (map plain_region regions.now)) [])) }
{
    for region in regions {
        note_region(types, region)?;
    }
    Ok(())
}

#[cycle(note_op)]
fn note_region<'a>(types: &mut ValueTypes<'a>, region: &'a RegionTree) -> Result<(), NoMemory>
    ensures { OnOk result (types_in types.new ≡ with_types (types_in types.old) (model.blocks_values (plain_region region.now) [])) }
{
    note_blocks(types, region.blocks.as_slice())
}

#[cycle(note_op)]
fn note_blocks<'a>(types: &mut ValueTypes<'a>, blocks: &'a [BlockTree]) -> Result<(), NoMemory>
    ensures { OnOk result (types_in types.new ≡ with_types (types_in types.old) (model.blocks_values (blocks_in (map plain_block blocks.now)) [])) }
{
    for block in blocks {
        note_block(types, block)?;
    }
    Ok(())
}

#[cycle(note_op)]
fn note_block<'a>(types: &mut ValueTypes<'a>, block: &'a BlockTree) -> Result<(), NoMemory>
    ensures { OnOk result (types_in types.new ≡ with_types (with_types (types_in types.old) (plain_block block.now).args) (model.ops_values (plain_block block.now).ops [])) }
{
    types.note_values(block.args.as_slice())?;
    note_ops(types, block.ops.as_slice())
}

#[cycle(note_op)]
fn note_ops<'a>(types: &mut ValueTypes<'a>, ops: &'a [OpTree]) -> Result<(), NoMemory>
    ensures { OnOk result (types_in types.new ≡ with_types (types_in types.old) (model.ops_values (ops_in (map plain_op ops.now)) [])) }
{
    for op in ops {
        note_op(types, op)?;
    }
    Ok(())
}

/// The types of all values that an operation defines, itself and in its regions.
pub fn types_of<'a>(alloc: Global, op: &'a OpTree) -> Result<ValueTypes<'a>, NoMemory>
    ensures { IfOk result (λ types. type_at types ≡ model.types_of (plain_op op.now)) }
{
    let mut types = ValueTypes::new(alloc);
    note_op(&mut types, op)?;
    Ok(types)
}
