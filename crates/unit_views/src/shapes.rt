//! The shape of an operation.

ghost use Rattle.std.specs.Prelude.{◌≡◌, IfOk, map};
ghost use Rattle.plain_tree.specs.Types.{plain_type};
ghost use Rattle.plain_tree.specs.Ops.{plain_op, plain_values};
ghost use Rattle.conversion_model.specs.Choice.{first_arguments as arguments_in};
ghost use Rattle.conversion_model.specs.Targets.{shape_of as shape_in};
ghost use Rattle.row_code.specs.Shapes.{shape_of};
ghost use Rattle.value_types.specs.Trees.{plain_region};
ghost use Rattle.value_types.specs.Views.{type_at};
ghost use Rattle.unit_views.specs.Seen.{block_arguments};

use row_code::ShapeTree;
use sqlite_items::Items;
use std::alloc::{AllocError, Global};
use tree_model::{NoMemory, OpTree, RegionTree, TypeList, TypeTree, copy_dict, copy_type};
use value_types::ValueTypes;

/// The type of a value, `void` where it is defined nowhere.
#[tactic(auto, using(row_code::proofs::Opens::type_opens))]
pub fn value_type(alloc: Global, types: &ValueTypes<'_>, number: u32) -> Result<TypeTree, NoMemory>
    ensures { IfOk result (λ t. plain_type t ≡ type_at types.now number) }
{
    match types.by_number.get(&number) {
        Some(t) => {
            let t = copy_type(alloc, t)?;
            Ok(t)
        }
        None => Ok(TypeTree::Void),
    }
}

fn operand_types(
    alloc: Global,
    types: &ValueTypes<'_>,
    operands: &[u32],
) -> Result<TypeList, NoMemory>
    ensures { IfOk result (λ ts. map plain_type ts ≡ map (type_at types.now) operands.now) }
{
    let mut all = Items::new(alloc);
    'each: for number in operands {
        all.push(value_type(alloc, types, *number)?)?;
    }
    Ok(all)
}

fn result_types(alloc: Global, results: &[(u32, TypeTree)]) -> Result<TypeList, NoMemory>
    ensures { IfOk result (λ ts. map plain_type ts ≡ map (λ v. plain_type v.1) results.now) }
{
    let mut all = Items::new(alloc);
    'each: for value in results {
        all.push(copy_type(alloc, &value.1)?)?;
    }
    Ok(all)
}

fn count(length: usize) -> Result<u32, NoMemory>
    ensures { IfOk result (λ n. n ≡ length) }
{
    match u32::try_from(length) {
        Ok(count) => Ok(count),
        Err(_) => Err(AllocError),
    }
}

/// The shape of an operation whose values have these types.
#[tactic(auto, using(crate::proofs::Layers::layers))]
pub fn op_shape(alloc: Global, types: &ValueTypes<'_>, op: &OpTree) -> Result<ShapeTree, NoMemory>
    ensures { IfOk result (λ s. shape_of s ≡ shape_in (type_at types.now) (plain_op op.now)) }
{
    let name = op.name.copy(alloc)?;
    let operands = operand_types(alloc, types, op.operands.as_slice())?;
    let results = result_types(alloc, op.results.as_slice())?;
    let props = copy_dict(alloc, op.props.as_slice())?;
    let attrs = copy_dict(alloc, op.attrs.as_slice())?;
    let successors = count(op.successors.len())?;
    let regions = count(op.regions.len())?;
    Ok(ShapeTree {
        name,
        operands,
        results,
        props,
        attrs,
        successors,
        regions,
    })
}

#[tactic(auto, using(crate::proofs::Layers::layers))]
fn region_arguments(region: &RegionTree) -> &[(u32, TypeTree)]
    ensures { plain_values result.now ≡ block_arguments (plain_region region.now) }
{
    match region.blocks.as_slice() {
        [block, ..] => block.args.as_slice(),
        [] => &[],
    }
}

/// The arguments of an operation's first block, none where it has no block.
#[tactic(auto, using(crate::proofs::Layers::layers))]
pub fn first_arguments(op: &OpTree) -> &[(u32, TypeTree)]
    ensures { map (λ v. plain_type v.1) result.now ≡ map (λ v. v.1) (arguments_in (plain_op op.now)) }
{
    match op.regions.as_slice() {
        [region, ..] => region_arguments(region),
        [] => &[],
    }
}
