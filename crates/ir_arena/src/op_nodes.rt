//! Nodes of operations, from their trees.

ghost use Rattle.std.specs.Prelude.{◌≡◌, length, IfOk, IfErr};
ghost use Rattle.intern_api.specs.Faults.{IsFaultUnder};
ghost use Rattle.flat_model.specs.Flat.{AllBelow};
ghost use Rattle.flat_model.specs.Growth.{Kept};
ghost use Rattle.ir_arena.specs.Handed.{NodeShows};
ghost use Rattle.ir_arena.specs.Building.{Names};

use crate::dicts::dict_handles;
use crate::numbering::Numbers;
use crate::pushing::or_fault;
use flat_model::OpNode;
use intern_api::{InternFault, Interner};
use sqlite_items::Items;
use std::alloc::Global;
use tree_model::OpTree;

/// The node of an operation, with these results and regions.
#[tactic(auto, using(crate::proofs::BuildLaws::build_laws))]
pub fn node_of<I: Interner>(
    i: &mut I,
    n: &Numbers,
    alloc: Global,
    tree: &OpTree,
    results: Vec<u32>,
    regions: Vec<u32>,
) -> Result<OpNode, InternFault>
    requires { I.ready i.old }
    ensures ready { I.ready i.new }
    ensures fixed { I.fixed i.new ≡ I.fixed i.old }
    ensures cap { I.cap i.new ≡ I.cap i.old }
    ensures kept { Kept (I.holds i.old) (I.holds i.new) }
    ensures shows { IfOk result (λ node. NodeShows (I.holds i.new) (Names n.now.values) (Names n.now.labels) node tree.now) }
    ensures results { IfOk result (λ node. node.results ≡ results.items) }
    ensures regions { IfOk result (λ node. node.regions ≡ regions.items) }
    ensures operands { IfOk result (λ node. AllBelow (length n.now.values.numbers.items) node.operands) }
    ensures successors { IfOk result (λ node. AllBelow (length n.now.labels.numbers.items) node.successors) }
    ensures fault { IfErr result (IsFaultUnder (I.cap i.old)) }
{
    let props = dict_handles(i, alloc, tree.props.as_slice())?;
    let attrs = dict_handles(i, alloc, tree.attrs.as_slice())?;
    let name = or_fault(tree.name.copy(alloc))?;
    let operands = or_fault(n.values.places(alloc, tree.operands.as_slice()))?;
    let successors = or_fault(n.labels.places(alloc, tree.successors.as_slice()))?;
    Ok(OpNode {
        name,
        results: Items::from_vec(results),
        operands,
        props,
        attrs,
        regions: Items::from_vec(regions),
        successors,
    })
}
