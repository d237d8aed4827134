//! Operations of parts.
#![tactic(auto, using(crate::proofs::Layers::makers))]

ghost use Rattle.std.specs.Prelude.{◌≡◌, [], IfOk, map};
ghost use Rattle.plain_tree.specs.Attrs.{plain_entries};
ghost use Rattle.plain_tree.specs.Ops.{blocks_in, plain_op, plain_values, regions_in};
ghost use Rattle.unit_writer.specs.Pages.{block_plain, op_from, region_plain};
ghost use Rattle.unit_writer.specs.Writes.{with_regions};

use sqlite_items::Items;
use std::alloc::Global;
use tree_model::{
    BlockList, DictTree, IdList, Name, NoMemory, OpTree, RegionList, RegionTree, ValueList,
    copy_dict, copy_values,
};

/// An operation of these parts.
pub fn operation(
    name: Name,
    props: DictTree,
    attrs: DictTree,
    results: ValueList,
    operands: IdList,
    regions: RegionList,
    successors: IdList,
) -> OpTree
    ensures { plain_op result ≡ op_from name (plain_entries props) (plain_entries attrs) (plain_values results) operands (map region_plain regions) successors }
{
    OpTree {
        name,
        results,
        operands,
        props,
        attrs,
        regions,
        successors,
    }
}

/// An operation without attributes and regions.
pub fn op_of(
    alloc: Global,
    name: Name,
    props: DictTree,
    results: ValueList,
    operands: IdList,
    successors: IdList,
) -> OpTree
    ensures { plain_op result ≡ op_from name (plain_entries props) [] (plain_values results) operands [] successors }
{
    operation(
        name,
        props,
        Items::new(alloc),
        results,
        operands,
        Items::new(alloc),
        successors,
    )
}

/// The operation over other regions.
#[tactic(auto, using(crate::proofs::Layers::op_layers))]
pub fn kept_op(op: &OpTree, regions: RegionList, alloc: Global) -> Result<OpTree, NoMemory>
    ensures { IfOk result (λ o. plain_op o ≡ with_regions (plain_op op.now) (regions_in (map region_plain regions))) }
{
    let name = op.name.copy(alloc)?;
    let props = copy_dict(alloc, op.props.as_slice())?;
    let attrs = copy_dict(alloc, op.attrs.as_slice())?;
    let results = copy_values(alloc, op.results.as_slice())?;
    let operands = Items::from_slice(alloc, op.operands.as_slice())?;
    let successors = Items::from_slice(alloc, op.successors.as_slice())?;
    Ok(operation(name, props, attrs, results, operands, regions, successors))
}

/// A region of these blocks.
pub fn region_of(blocks: BlockList) -> RegionTree
    ensures { region_plain result ≡ blocks_in (map block_plain blocks) }
{
    RegionTree { blocks }
}
