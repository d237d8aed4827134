//! Casts of one operand and one result.
#![tactic(auto, using(crate::proofs::SingleLaws::single_laws))]

ghost use Rattle.std.specs.Prelude.{◌≡◌, ◌∷◌, [], ◌++◌, true, ℕ, IfOk, OnOk, map, not, ◌&&◌, ◌||◌, ◌==◌, nat_eq};
ghost use Rattle.std.specs.Option.{option_map, option_to_list};
ghost use Rattle.std.specs.HashSet.{contains};
ghost use Rattle.plain_tree.specs.Ops.{plain_values};
ghost use Rattle.plain_tree.specs.Types.{plain_type};
ghost use Rattle.tree_reconcile.specs.Lines.{line_at, lines_at};
ghost use Rattle.tree_reconcile.specs.Plans as model;
ghost use Rattle.tree_reconcile.specs.Views.{single_at, singles_at};

use crate::lines::is_cast;
use std::alloc::Global;
use std::collections::HashSet;
use tree_model::{NoMemory, OpTree, TypeTree};

/// A cast of one operand and one result: its operand, its result and that one's type.
#[derive(Clone, Copy)]
pub struct SingleCast<'a> {
    pub operand: u32,
    pub result: u32,
    pub to: &'a TypeTree,
}

fn single_of<'a>(value: &'a (u32, TypeTree), operands: &[u32]) -> Option<SingleCast<'a>>
    ensures { option_to_list (option_map single_at result) ≡ model.single_of true ((value.now.0, plain_type value.now.1) ∷ []) operands.now }
{
    match operands {
        [operand] => Some(SingleCast {
            operand: *operand,
            result: value.0,
            to: &value.1,
        }),
        _ => None,
    }
}

fn single_from<'a>(results: &'a [(u32, TypeTree)], operands: &[u32]) -> Option<SingleCast<'a>>
    ensures { option_to_list (option_map single_at result) ≡ model.single_of true (plain_values results.now) operands.now }
{
    if results.len() != 1 {
        return None;
    }
    single_of(&results[0], operands)
}

/// The operation as a cast of one operand and one result.
pub(crate) fn single_in<'a>(op: &'a OpTree) -> Option<SingleCast<'a>>
    ensures { option_to_list (option_map single_at result) ≡ model.single_in (line_at op.now) }
{
    if !is_cast(op) {
        return None;
    }
    single_from(op.results.as_slice(), op.operands.as_slice())
}

fn put_single<'a>(list: &mut Vec<SingleCast<'a>>, op: &'a OpTree) -> Result<(), NoMemory>
    ensures { OnOk result (singles_at list.new.items ≡ singles_at list.old.items ++ model.single_in (line_at op.now)) }
{
    if let Some(cast) = single_in(op) {
        list.push(cast)?;
    }
    Ok(())
}

/// All of them among some operations.
pub(crate) fn singles<'a>(
    alloc: Global,
    ops: &[&'a OpTree],
) -> Result<Vec<SingleCast<'a>>, NoMemory>
    ensures { IfOk result (λ cs. singles_at cs.items ≡ model.singles (lines_at ops.now)) }
{
    let mut list = Vec::new(alloc);
    for op in ops {
        put_single(&mut list, op)?;
    }
    Ok(list)
}

/// Both.
pub(crate) fn both(a: bool, b: bool) -> bool
    ensures { result ≡ (a && b) }
{
    a && b
}

// Whether a cast's result is none of those behind it, and its operand none of these or its own; its result is put to these.
fn stands_apart(results: &mut HashSet<u32>, cast: &SingleCast) -> Result<bool, NoMemory>
    ensures apart { IfOk result (λ b. b ≡ (not (contains nat_eq results.old cast.now.result) && not (contains nat_eq results.new cast.now.operand))) }
    ensures put { OnOk result ((n : ℕ) → contains nat_eq results.new n ≡ ((cast.now.result == n) || contains nat_eq results.old n)) }
{
    let is_new = results.insert(cast.result)?;
    Ok(both(is_new, !results.contains(&cast.operand)))
}

/// Whether no cast's operand is its own result or that of one behind it, and no two have one result.
pub(crate) fn are_in_order(alloc: Global, casts: &[SingleCast]) -> Result<bool, NoMemory>
    ensures { IfOk result (λ b. b ≡ model.is_in_order (singles_at casts.now)) }
{
    let mut results = HashSet::new(alloc);
    let mut ordered = true;
    let mut index = casts.len();
    'each: while index > 0 {
        index -= 1;
        let apart = stands_apart(&mut results, &casts[index])?;
        ordered = both(ordered, apart);
    }
    Ok(ordered)
}
