//! The types of the values of a function, by their numbers.
#![tactic(auto, using(crate::proofs::ValueLayers::layers))]

ghost use Rattle.std.specs.Prelude.{◌≡◌, IfOk, OnOk, flat_map, map, unwrap_or};
ghost use Rattle.form_model.specs.Decoding as model;
ghost use Rattle.decode_code.specs.TypesIn.{at_start, types_in, values_in_block, values_in_region, with_first, with_types};

use std::alloc::Global;
use std::collections::HashMap;
use tree_model::{BlockTree, NoMemory, OpTree, RegionTree, TypeTree};

/// The types of values by their numbers. A number that is defined twice has the type that it got first.
#[derive(Drop)]
pub struct ValueTypes<'a> {
    pub by_number: HashMap<u32, &'a TypeTree>,
}

impl<'a> ValueTypes<'a> {
    fn new(alloc: Global) -> ValueTypes<'a>
        ensures { types_in result ≡ at_start }
    {
        ValueTypes {
            by_number: HashMap::new(alloc),
        }
    }

    /// Gives a number its type, where it has none yet.
    fn note(&mut self, value: &'a (u32, TypeTree)) -> Result<(), NoMemory>
        ensures { OnOk result (types_in self.new ≡ with_first (types_in self.old) value.now.0 value.now.1) }
    {
        if self.by_number.contains_key(&value.0) {
            return Ok(());
        }
        self.by_number.insert(value.0, &value.1)?;
        Ok(())
    }

    fn note_values(&mut self, values: &'a [(u32, TypeTree)]) -> Result<(), NoMemory>
        ensures { OnOk result (types_in self.new ≡ with_types (types_in self.old) values.now) }
    {
        for value in values {
            self.note(value)?;
        }
        Ok(())
    }

    /// The type of a value, and the other one where it is defined nowhere.
    pub fn type_of(&self, number: u32, other: &'a TypeTree) -> &'a TypeTree
        ensures { result.now ≡ unwrap_or (types_in self.now number) other.now }
    {
        match self.by_number.get(&number) {
            Some(t) => *t,
            None => other,
        }
    }

    /// The types of operands.
    pub fn types_of(
        &self,
        alloc: Global,
        operands: &[u32],
        other: &'a TypeTree,
    ) -> Result<Vec<&'a TypeTree>, NoMemory>
        ensures { IfOk result (λ ts. map (λ t. t.now) ts.items ≡ map (λ n. unwrap_or (types_in self.now n) other.now) operands.now) }
    {
        let mut types = Vec::with_capacity(alloc, operands.len())?;
        for operand in operands {
            types.push(self.type_of(*operand, other))?;
        }
        Ok(types)
    }
}

#[cycle(note_op)]
fn note_op<'a>(types: &mut ValueTypes<'a>, op: &'a OpTree) -> Result<(), NoMemory>
    ensures { OnOk result (types_in types.new ≡ with_types (types_in types.old) (model.values_in op.now)) }
{
    types.note_values(op.results.as_slice())?;
    note_regions(types, op.regions.as_slice())
}

#[cycle(note_op)]
fn note_regions<'a>(types: &mut ValueTypes<'a>, regions: &'a [RegionTree]) -> Result<(), NoMemory>
    ensures { OnOk result (types_in types.new ≡ with_types (types_in types.old) (flat_map (λ vs. vs) (map values_in_region regions.now))) }
{
    for region in regions {
        note_blocks(types, region.blocks.as_slice())?;
    }
    Ok(())
}

#[cycle(note_op)]
fn note_blocks<'a>(types: &mut ValueTypes<'a>, blocks: &'a [BlockTree]) -> Result<(), NoMemory>
    ensures { OnOk result (types_in types.new ≡ with_types (types_in types.old) (flat_map (λ vs. vs) (map values_in_block blocks.now))) }
{
    for block in blocks {
        note_block(types, block)?;
    }
    Ok(())
}

#[cycle(note_op)]
fn note_block<'a>(types: &mut ValueTypes<'a>, block: &'a BlockTree) -> Result<(), NoMemory>
    ensures { OnOk result (types_in types.new ≡ with_types (types_in types.old) (values_in_block block.now)) }
{
    types.note_values(block.args.as_slice())?;
    note_ops(types, block.ops.as_slice())
}

#[cycle(note_op)]
fn note_ops<'a>(types: &mut ValueTypes<'a>, ops: &'a [OpTree]) -> Result<(), NoMemory>
    ensures { OnOk result (types_in types.new ≡ with_types (types_in types.old) (flat_map (λ vs. vs) (map model.values_in ops.now))) }
{
    for op in ops {
        note_op(types, op)?;
    }
    Ok(())
}

/// The types of all values that an operation defines, itself and in its regions.
pub fn types_of<'a>(alloc: Global, op: &'a OpTree) -> Result<ValueTypes<'a>, NoMemory>
    ensures { IfOk result (λ types. types_in types ≡ model.type_among (model.values_in op.now)) }
{
    let mut types = ValueTypes::new(alloc);
    note_op(&mut types, op)?;
    Ok(types)
}
