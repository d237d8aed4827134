//! Trees of parts.
#![tactic(auto, using(crate::proofs::Layers::makers))]

ghost use Rattle.std.specs.Prelude.{◌≡◌, map};
ghost use Rattle.plain_tree.specs.Attrs.{plain_entries};
ghost use Rattle.plain_tree.specs.Ops.{blocks_in, ops_in, plain_op, plain_values};
ghost use Rattle.tree_uses.specs.Edited.{op_from, plain_block, plain_region};

use tree_model::{
    BlockList, BlockTree, DictTree, IdList, Name, OpList, OpTree, RegionList, RegionTree, ValueList,
};

/// An operation of these parts.
pub(crate) fn operation(
    name: Name,
    props: DictTree,
    attrs: DictTree,
    results: ValueList,
    operands: IdList,
    regions: RegionList,
    successors: IdList,
) -> OpTree
    ensures { plain_op result ≡ op_from name (plain_entries props) (plain_entries attrs) (plain_values results) operands (map plain_region regions) successors }
{
    OpTree {
        name,
        results,
        operands,
        props,
        attrs,
        regions,
        successors,
    }
}

/// A block of these parts.
pub(crate) fn block_of(label: u32, args: ValueList, ops: OpList) -> BlockTree
    ensures { plain_block result ≡ record { label = label; args = plain_values args; ops = ops_in (map plain_op ops) } }
{
    BlockTree { label, args, ops }
}

/// A region of these blocks.
pub(crate) fn region_of(blocks: BlockList) -> RegionTree
    ensures { plain_region result ≡ blocks_in (map plain_block blocks) }
{
    RegionTree { blocks }
}
