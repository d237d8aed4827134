//! The whole.
#![tactic(auto)]

ghost use Rattle.std.specs.Prelude.{◌≡◌, IfOk, IfSome, ◌≤◌, ◌&&◌, not, true, false, map, length};
ghost use Rattle.std.specs.List.{list_all};
ghost use Rattle.plain_tree.specs.Types.{plain_type, Void};
ghost use Rattle.plain_tree.specs.Ops.{plain_op};
ghost use Rattle.plain_tree.specs.Values.{types_of as value_types_of};
ghost use Rattle.stand_ins.specs.Forests.{IsForest};
ghost use Rattle.stand_ins.specs.Tables.{forest_of};
ghost use Rattle.conversion_model.specs.Reconciled as model;
ghost use Rattle.conversion_model.specs.Uses.{operations};
ghost use Rattle.tree_walk.specs.Walks.{plain_ops};
ghost use Rattle.tree_reconcile.specs.Leaves.{LeavesPairs, LeavesUsed};
ghost use Rattle.tree_reconcile.specs.Lines.{is_bare_at, is_forward, line_at, lines_at};
ghost use Rattle.tree_reconcile.specs.Plans.{at_start, is_in_order, singles as singles_of, with_casts};
ghost use Rattle.tree_reconcile.specs.Views.{plan_at, singles_at};

use crate::lines::{are_bare, is_cast};
use crate::omitted::UsedValues;
use crate::plan::{PlanTable, plan_of};
use crate::singles::{SingleCast, are_in_order, both, singles};
use crate::steps::{pairs_by_steps, unused_by_rounds};
use crate::used::{are_forward, used_values};
use stand_ins::StandIns;
use std::alloc::Global;
use tree_model::{NoMemory, OpTree, TypeTree};
use tree_uses::op_edited;
use tree_walk::operations_of;
use value_types::types_of;

// Whether a tree is no cast, and no cast in it has regions.
fn is_plain(f: &OpTree, ops: &[&OpTree]) -> bool
    ensures { result ≡ (not (line_at f.now).is_cast && list_all (λ o. is_bare_at o.now) ops.now) }
{
    both(!is_cast(f), are_bare(ops))
}

fn plan_in<'a>(
    alloc: Global,
    void: &'a TypeTree,
    f: &'a OpTree,
    casts: &[SingleCast],
) -> Result<PlanTable, NoMemory>
    requires { plain_type void.now ≡ Void }
    ensures forest { IfOk result (λ p. IsForest (forest_of p.to)) }
    ensures plan { IfOk result (λ p. plan_at p ≡ with_casts (value_types_of (plain_op f.now)) at_start (singles_at casts.now)) }
{
    let types = types_of(alloc, f)?;
    let plan = plan_of(alloc, &types, void, casts)?;
    Ok(plan)
}

// Which casts undo each other, by one pass.
fn plan_at_once(
    alloc: Global,
    f: &OpTree,
    ops: &[&OpTree],
    casts: &[SingleCast],
) -> Result<PlanTable, NoMemory>
    requires ops { plain_ops ops.now ≡ map (λ o. o.1) (operations (plain_op f.now)) }
    requires plain { (not (line_at f.now).is_cast && list_all (λ o. is_bare_at o.now) ops.now) ≡ true }
    requires casts { singles_at casts.now ≡ singles_of (lines_at ops.now) }
    requires order { is_in_order (singles_at casts.now) ≡ true }
    ensures forest { IfOk result (λ p. IsForest (forest_of p.to)) }
    ensures plan { IfOk result (λ p. LeavesPairs p (plain_op f.now)) }
{
    let _ops = ops;
    let void = TypeTree::Void;
    let plan = plan_in(alloc, &void, f, casts)?;
    Ok(plan)
}

// Which casts undo each other, where one pass tells it.
fn plan_for(alloc: Global, f: &OpTree, ops: &[&OpTree]) -> Result<Option<PlanTable>, NoMemory>
    requires { plain_ops ops.now ≡ map (λ o. o.1) (operations (plain_op f.now)) }
    ensures forest { IfOk result (λ o. IfSome o (λ p. IsForest (forest_of p.to))) }
    ensures plan { IfOk result (λ o. IfSome o (λ p. LeavesPairs p (plain_op f.now))) }
{
    let casts = singles(alloc, ops)?;
    let ordered = are_in_order(alloc, casts.as_slice())?;
    if is_plain(f, ops) && ordered {
        let plan = plan_at_once(alloc, f, ops, casts.as_slice())?;
        return Ok(Some(plan));
    }
    Ok(None)
}

/// What is seen of a tree: how many operations there are, and which casts undo each other, where one pass tells it.
#[derive(Drop)]
struct Sight {
    room: usize,
    plan: Option<PlanTable>,
}

fn sight_of(alloc: Global, f: &OpTree) -> Result<Sight, NoMemory>
    ensures room { IfOk result (λ s. s.room ≡ length (operations (plain_op f.now))) }
    ensures forest { IfOk result (λ s. IfSome s.plan (λ p. IsForest (forest_of p.to))) }
    ensures plan { IfOk result (λ s. IfSome s.plan (λ p. LeavesPairs p (plain_op f.now))) }
{
    let ops = operations_of(alloc, f)?;
    let plan = plan_for(alloc, f, ops.as_slice())?;
    Ok(Sight {
        room: ops.len(),
        plan,
    })
}

// The tree without casts that undo each other, by one pass.
fn pairs_by_plan(alloc: Global, plan: PlanTable, f: OpTree) -> Result<OpTree, NoMemory>
    requires forest { IsForest (forest_of plan.to) }
    requires plan { LeavesPairs plan (plain_op f) }
    ensures { IfOk result (λ g. plain_op g ≡ model.pairs_left_out (length (operations (plain_op f))) (plain_op f)) }
{
    let tree = op_edited(alloc, &plan.to, &plan, f)?;
    Ok(tree)
}

// The tree without casts that undo each other.
fn pairs_left_out(alloc: Global, sight: Sight, f: OpTree) -> Result<OpTree, NoMemory>
    requires room { sight.room ≡ length (operations (plain_op f)) }
    requires forest { IfSome sight.plan (λ p. IsForest (forest_of p.to)) }
    requires plan { IfSome sight.plan (λ p. LeavesPairs p (plain_op f)) }
    ensures { IfOk result (λ g. plain_op g ≡ model.pairs_left_out (length (operations (plain_op f))) (plain_op f)) }
{
    let Sight { room, plan } = sight;
    match plan {
        Some(plan) => {
            let tree = pairs_by_plan(alloc, plan, f)?;
            Ok(tree)
        }
        None => {
            let tree = pairs_by_steps(alloc, f, room)?;
            Ok(tree)
        }
    }
}

// The values that are used in the end, by one pass.
fn used_at_once(
    alloc: Global,
    f: &OpTree,
    ops: &[&OpTree],
    room: usize,
) -> Result<UsedValues, NoMemory>
    requires ops { plain_ops ops.now ≡ map (λ o. o.1) (operations (plain_op f.now)) }
    requires plain { (not (line_at f.now).is_cast && list_all (λ o. is_bare_at o.now) ops.now) ≡ true }
    requires forward { is_forward (lines_at ops.now) ≡ true }
    requires room { length (operations (plain_op f.now)) ≤ room }
    ensures { IfOk result (λ u. LeavesUsed u room (plain_op f.now)) }
{
    let _room = room;
    let values = used_values(alloc, ops)?;
    Ok(UsedValues { values })
}

// The values that are used in the end, where one pass tells it.
fn used_for(alloc: Global, f: &OpTree, room: usize) -> Result<Option<UsedValues>, NoMemory>
    requires { length (operations (plain_op f.now)) ≤ room }
    ensures { IfOk result (λ o. IfSome o (λ u. LeavesUsed u room (plain_op f.now))) }
{
    let ops = operations_of(alloc, f)?;
    let forward = are_forward(alloc, ops.as_slice())?;
    if is_plain(f, ops.as_slice()) && forward {
        let used = used_at_once(alloc, f, ops.as_slice(), room)?;
        return Ok(Some(used));
    }
    Ok(None)
}

// The tree without casts that are not used, by one pass.
fn unused_by_values(
    alloc: Global,
    used: UsedValues,
    f: OpTree,
    room: usize,
) -> Result<OpTree, NoMemory>
    requires { LeavesUsed used room (plain_op f) }
    ensures { IfOk result (λ g. plain_op g ≡ model.unused_left_out room (plain_op f)) }
{
    let _room = room;
    let tree = op_edited(alloc, &StandIns::new(alloc), &used, f)?;
    Ok(tree)
}

// The tree without casts that are not used.
fn unused_left_out(alloc: Global, f: OpTree, room: usize) -> Result<OpTree, NoMemory>
    requires { length (operations (plain_op f)) ≤ room }
    ensures { IfOk result (λ g. plain_op g ≡ model.unused_left_out room (plain_op f)) }
{
    match used_for(alloc, &f, room)? {
        Some(used) => {
            let tree = unused_by_values(alloc, used, f, room)?;
            Ok(tree)
        }
        None => {
            let tree = unused_by_rounds(alloc, f, room)?;
            Ok(tree)
        }
    }
}

/// The tree behind reconciliation: casts that undo each other give their uses to what they were made of, and then casts
/// without uses are left out until there is none. Where definitions stand before their uses, and no cast has regions, in
/// time linear in the tree, the parts of which are moved to the new one; else step by step, with a pass over the tree for
/// each. <https://mlir.llvm.org/docs/Passes/#-reconcile-unrealized-casts>
pub fn reconciled(alloc: Global, f: OpTree) -> Result<OpTree, NoMemory>
    ensures { IfOk result (λ g. plain_op g ≡ model.reconciled (plain_op f)) }
{
    let sight = sight_of(alloc, &f)?;
    let room = sight.room;
    let paired = pairs_left_out(alloc, sight, f)?;
    let tree = unused_left_out(alloc, paired, room)?;
    Ok(tree)
}
