//! A tree without its copies.

ghost use Rattle.std.specs.Prelude.{◌≡◌, IfOk};
ghost use Rattle.plain_tree.specs.Ops.{plain_op};
ghost use Rattle.conversion_model.specs.Uses.{followed, op_uses};
ghost use Rattle.copy_uses.specs.Layered.{CopiesLeftOut};

use crate::pairs::table_of;
use crate::tree;
use std::alloc::Global;
use tree_model::{NoMemory, OpTree};

/// The tree where each use is one of the value that stands for it when the pairs are followed one after another: the first
/// number of a pair is given up for what stands for the second one. The parts of the old tree are moved to the new one.
pub fn uses_followed(alloc: Global, pairs: &[(u32, u32)], op: OpTree) -> Result<OpTree, NoMemory>
    ensures { IfOk result (λ o. plain_op o ≡ op_uses (followed pairs.now (λ v. v)) (plain_op op)) }
{
    if pairs.is_empty() {
        return Ok(op);
    }
    let mut table = table_of(alloc, pairs)?;
    let tree = tree::op_uses(alloc, &mut table, op)?;
    Ok(tree)
}

/// Where the tree is one without its copies, and the pairs are these copies, their uses are those of the values for which
/// they stand.
pub fn law_copies_left_out()
    ensures { CopiesLeftOut }
{}
