//! Puts the lines of many lists in one order.

ghost use Rattle.std.specs.Prelude.{◌≡◌, ◌++◌, OnOk, IfOk, flat_map, reverse};
ghost use Rattle.ordered_diags.specs.Order.{IsMerged};

use crate::diag::Diag;
use sqlite_items::Items;
use std::alloc::Global;
use tree_model::NoMemory;

/// All lines that were given, ordered by function, pass and line.
pub fn merge(alloc: Global, lists: Items<Items<Diag>>) -> Result<Items<Diag>, NoMemory>
    ensures { IfOk result (λ merged. IsMerged (flat_map (λ list. list) lists) merged) }
{
    let mut all = joined(alloc, lists)?;
    all.sort_by_key(|diag| (diag.function, diag.pass, diag.sequence))?;
    Ok(Items::from_vec(all))
}

/// The lists, one behind the other.
fn joined(alloc: Global, lists: Items<Items<Diag>>) -> Result<Vec<Diag>, NoMemory>
    ensures { IfOk result (λ all. all.items ≡ flat_map (λ list. list) lists) }
{
    let mut lists = lists;
    let mut all = Vec::new(alloc);
    'each: while let Some(list) = lists.pop() {
        take_back(&mut all, list)?;
    }
    all.as_mut_slice().reverse();
    Ok(all)
}

/// Adds the lines of a list, from the last to the first.
fn take_back(all: &mut Vec<Diag>, list: Items<Diag>) -> Result<(), NoMemory>
    ensures { OnOk result (all.new.items ≡ all.old.items ++ reverse list) }
{
    let mut list = list;
    'each: while let Some(diag) = list.pop() {
        all.push(diag)?;
    }
    Ok(())
}
