//! Reconciliation step by step, for trees whose casts are in another order or have regions.
#![tactic(auto)]

ghost use Rattle.std.specs.Prelude.{◌≡◌, IfOk};
ghost use Rattle.std.specs.Option.{option_map};
ghost use Rattle.std.specs.List.{list_any};
ghost use Rattle.plain_tree.specs.Types.{plain_type, Void};
ghost use Rattle.plain_tree.specs.Ops.{plain_op};
ghost use Rattle.conversion_model.specs.Reconciled as model;
ghost use Rattle.plain_tree.specs.Values.{types_of as value_types_of};
ghost use Rattle.value_types.specs.Views.{type_at};
ghost use Rattle.tree_reconcile.specs.Lines.{is_unused, line_at};
ghost use Rattle.tree_reconcile.specs.Plans.{cast_by, casts_by};
ghost use Rattle.tree_reconcile.specs.Rounds.{first_round};
ghost use Rattle.tree_reconcile.specs.Views.{holds, single_at, singles_at};

use crate::lines::is_cast;
use crate::omitted::{OneResult, UsedValues};
use crate::singles::{SingleCast, both, singles};
use crate::used::{all_used, any_used};
use stand_ins::StandIns;
use std::alloc::Global;
use std::collections::HashSet;
use tree_model::{NoMemory, OpTree, TypeTree, copy_op};
use tree_uses::op_edited;
use tree_walk::operations_of;
use value_types::{ValueTypes, same, types_of};

// Whether the second cast undoes the first one, and its operand isn't the first one's result.
fn undoes<'a>(
    types: &ValueTypes<'a>,
    void: &'a TypeTree,
    cast: &SingleCast,
    other: &SingleCast,
) -> bool
    requires { plain_type void.now ≡ Void }
    ensures { result ≡ model.undoes (cast_by (type_at types.now) (single_at cast.now)) (cast_by (type_at types.now) (single_at other.now)) }
{
    other.result == cast.operand
        && same(types.type_of(other.operand, void), cast.to)
        && other.operand != cast.result
}

// The value that can stand for a cast's result.
fn stands_for<'a>(
    types: &ValueTypes<'a>,
    void: &'a TypeTree,
    casts: &[SingleCast],
    cast: &SingleCast,
) -> Option<u32>
    requires { plain_type void.now ≡ Void }
    ensures { result ≡ model.stands_for (cast_by (type_at types.now) (single_at cast.now)) (casts_by (type_at types.now) (singles_at casts.now)) }
{
    for other in casts {
        if undoes(types, void, cast, other) {
            return Some(other.operand);
        }
    }
    None
}

// The first cast that can be replaced, by its result, and the value that can stand for it.
fn first_pair<'a>(
    types: &ValueTypes<'a>,
    void: &'a TypeTree,
    casts: &[SingleCast],
) -> Option<(u32, u32)>
    requires { plain_type void.now ≡ Void }
    ensures { result ≡ model.first_pair (casts_by (type_at types.now) (singles_at casts.now)) (casts_by (type_at types.now) (singles_at casts.now)) }
{
    for cast in casts {
        if let Some(value) = stands_for(types, void, casts, cast) {
            return Some((cast.result, value));
        }
    }
    None
}

fn pair_in<'a>(
    alloc: Global,
    void: &'a TypeTree,
    f: &'a OpTree,
    casts: &[SingleCast],
) -> Result<Option<(u32, u32)>, NoMemory>
    requires { plain_type void.now ≡ Void }
    ensures { IfOk result (λ p. p ≡ model.first_pair (casts_by (value_types_of (plain_op f.now)) (singles_at casts.now)) (casts_by (value_types_of (plain_op f.now)) (singles_at casts.now))) }
{
    let types = types_of(alloc, f)?;
    Ok(first_pair(&types, void, casts))
}

fn pair_of(alloc: Global, f: &OpTree) -> Result<Option<(u32, u32)>, NoMemory>
    ensures { IfOk result (λ p. p ≡ model.pair_of (plain_op f.now)) }
{
    let ops = operations_of(alloc, f)?;
    let casts = singles(alloc, ops.as_slice())?;
    let void = TypeTree::Void;
    let pair = pair_in(alloc, &void, f, casts.as_slice())?;
    Ok(pair)
}

// The cast gives its uses to the value and is left out.
fn without_pair(alloc: Global, pair: (u32, u32), f: &OpTree) -> Result<OpTree, NoMemory>
    ensures { IfOk result (λ g. plain_op g ≡ model.without_pair pair (plain_op f.now)) }
{
    let mut to = StandIns::new(alloc);
    to.replace(pair.0, pair.1)?;
    let gone = OneResult { number: pair.0 };
    let copy = copy_op(alloc, f)?;
    let tree = op_edited(alloc, &to, &gone, copy)?;
    Ok(tree)
}

// One step, none where there is no pair.
fn next_pair(alloc: Global, f: &OpTree) -> Result<Option<OpTree>, NoMemory>
    ensures { IfOk result (λ g. option_map plain_op g ≡ option_map (λ p. model.without_pair p (plain_op f.now)) (model.pair_of (plain_op f.now))) }
{
    match pair_of(alloc, f)? {
        None => Ok(None),
        Some(pair) => {
            let tree = without_pair(alloc, pair, f)?;
            Ok(Some(tree))
        }
    }
}

/// The tree without casts that undo each other, in so many steps.
pub(crate) fn pairs_by_steps(alloc: Global, f: OpTree, room: usize) -> Result<OpTree, NoMemory>
    ensures { IfOk result (λ g. plain_op g ≡ model.pairs_left_out room (plain_op f)) }
{
    let mut tree = f;
    for step in 0..room {
        let Some(next) = next_pair(alloc, &tree)? else {
            return Ok(tree);
        };
        tree = next;
    }
    Ok(tree)
}

fn is_unused_cast(used: &HashSet<u32>, op: &OpTree) -> bool
    ensures { result ≡ is_unused (holds used.now) (line_at op.now) }
{
    both(is_cast(op), !any_used(used, op))
}

fn any_unused(used: &HashSet<u32>, ops: &[&OpTree]) -> bool
    ensures { result ≡ list_any (λ o. is_unused (holds used.now) (line_at o.now)) ops.now }
{
    ops.iter().any(|op| is_unused_cast(used, op))
}

// One round, none where no cast is without uses.
fn next_round(alloc: Global, f: &OpTree) -> Result<Option<OpTree>, NoMemory>
    ensures { IfOk result (λ g. option_map plain_op g ≡ first_round (plain_op f.now)) }
{
    let ops = operations_of(alloc, f)?;
    let values = all_used(alloc, ops.as_slice())?;
    if !any_unused(&values, ops.as_slice()) {
        return Ok(None);
    }
    let used = UsedValues { values };
    let copy = copy_op(alloc, f)?;
    let tree = op_edited(alloc, &StandIns::new(alloc), &used, copy)?;
    Ok(Some(tree))
}

/// The tree without casts that are not used, in so many rounds.
pub(crate) fn unused_by_rounds(alloc: Global, f: OpTree, room: usize) -> Result<OpTree, NoMemory>
    ensures { IfOk result (λ g. plain_op g ≡ model.unused_left_out room (plain_op f)) }
{
    let mut tree = f;
    for round in 0..room {
        let Some(next) = next_round(alloc, &tree)? else {
            return Ok(tree);
        };
        tree = next;
    }
    Ok(tree)
}
