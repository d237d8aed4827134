//! Which values are used in the end.
#![tactic(auto, using(crate::proofs::UsedSteps::used_steps))]

ghost use Rattle.std.specs.Prelude.{◌≡◌, ◌==◌, ◌||◌, ◌&&◌, not, ℕ, Bool, IfOk, OnOk, nat_eq};
ghost use Rattle.std.specs.List.{list_all, list_any};
ghost use Rattle.std.specs.HashSet.{contains};
ghost use Rattle.tree_reconcile.specs.Lines as model;
ghost use Rattle.tree_reconcile.specs.Lines.{among, line_at, lines_at, with_results};
ghost use Rattle.tree_reconcile.specs.Views.{holds};

use crate::lines::is_cast;
use crate::singles::both;
use std::alloc::Global;
use std::collections::HashSet;
use tree_model::{NoMemory, OpTree, TypeTree};

/// Numbers are put to a set.
fn put_numbers(set: &mut HashSet<u32>, numbers: &[u32]) -> Result<(), NoMemory>
    ensures { OnOk result ((v : ℕ) → holds set.new v ≡ (among v numbers.now || holds set.old v)) }
{
    'each: for number in numbers {
        set.insert(*number)?;
    }
    Ok(())
}

fn any_in(set: &HashSet<u32>, values: &[(u32, TypeTree)]) -> bool
    ensures { result ≡ list_any (λ r. holds set.now r.0) values.now }
{
    values.iter().any(|value| set.contains(&value.0))
}

/// Whether one of an operation's results is used.
pub(crate) fn any_used(used: &HashSet<u32>, op: &OpTree) -> bool
    ensures { result ≡ model.any_used (holds used.now) (line_at op.now).results }
{
    any_in(used, op.results.as_slice())
}

fn put_other(used: &mut HashSet<u32>, op: &OpTree) -> Result<(), NoMemory>
    ensures { OnOk result ((v : ℕ) → holds used.new v ≡ ((not (line_at op.now).is_cast && among v (line_at op.now).operands) || holds used.old v)) }
{
    if is_cast(op) {
        return Ok(());
    }
    put_numbers(used, op.operands.as_slice())
}

/// The values that operations other than casts use.
fn used_by_others(alloc: Global, ops: &[&OpTree]) -> Result<HashSet<u32>, NoMemory>
    ensures { IfOk result (λ s. holds s ≡ model.used_by_others (lines_at ops.now)) }
{
    let mut used = HashSet::new(alloc);
    'each: for op in ops {
        put_other(&mut used, op)?;
    }
    Ok(used)
}

// The operands of a cast are used, too, if one of its results is.
fn put_cast(used: &mut HashSet<u32>, op: &OpTree) -> Result<(), NoMemory>
    ensures { OnOk result (holds used.new ≡ model.with_line (line_at op.now) (holds used.old)) }
{
    if !both(is_cast(op), any_used(used, op)) {
        return Ok(());
    }
    put_numbers(used, op.operands.as_slice())
}

/// The values that are used in the end.
pub(crate) fn used_values(alloc: Global, ops: &[&OpTree]) -> Result<HashSet<u32>, NoMemory>
    ensures { IfOk result (λ s. holds s ≡ model.with_lines (lines_at ops.now) (model.used_by_others (lines_at ops.now))) }
{
    let mut used = used_by_others(alloc, ops)?;
    let mut index = ops.len();
    'each: while index > 0 {
        index -= 1;
        put_cast(&mut used, ops[index])?;
    }
    Ok(used)
}

fn put_values(set: &mut HashSet<u32>, values: &[(u32, TypeTree)]) -> Result<(), NoMemory>
    ensures { OnOk result ((v : ℕ) → holds set.new v ≡ (list_any (λ r. r.0 == v) values.now || holds set.old v)) }
{
    'each: for value in values {
        set.insert(value.0)?;
    }
    Ok(())
}

fn put_own(results: &mut HashSet<u32>, op: &OpTree) -> Result<(), NoMemory>
    ensures { OnOk result ((v : ℕ) → holds results.new v ≡ (list_any (λ r. r.0 == v) (line_at op.now).results || holds results.old v)) }
{
    put_values(results, op.results.as_slice())?;
    Ok(())
}

fn put_results(results: &mut HashSet<u32>, op: &OpTree) -> Result<(), NoMemory>
    ensures { OnOk result (holds results.new ≡ with_results (line_at op.now) (holds results.old)) }
{
    if is_cast(op) {
        put_own(results, op)?;
    }
    Ok(())
}

fn none_of(set: &HashSet<u32>, numbers: &[u32]) -> bool
    ensures { result ≡ list_all (λ v. not (holds set.now v)) numbers.now }
{
    numbers.iter().all(|number| !set.contains(number))
}

fn is_before(results: &HashSet<u32>, op: &OpTree) -> bool
    ensures { result ≡ (not (line_at op.now).is_cast || list_all (λ v. not (holds results.now v)) (line_at op.now).operands) }
{
    !is_cast(op) || none_of(results, op.operands.as_slice())
}

/// Whether no cast has the result of a cast as an operand that is behind it, or is itself.
pub(crate) fn are_forward(alloc: Global, ops: &[&OpTree]) -> Result<bool, NoMemory>
    ensures { IfOk result (λ b. b ≡ model.is_forward (lines_at ops.now)) }
{
    let mut results = HashSet::new(alloc);
    let mut forward = true;
    let mut index = ops.len();
    'each: while index > 0 {
        index -= 1;
        let op = ops[index];
        put_results(&mut results, op)?;
        let before = is_before(&results, op);
        forward = both(forward, before);
    }
    Ok(forward)
}

fn put_operands(used: &mut HashSet<u32>, op: &OpTree) -> Result<(), NoMemory>
    ensures { OnOk result ((v : ℕ) → holds used.new v ≡ (among v (line_at op.now).operands || holds used.old v)) }
{
    put_numbers(used, op.operands.as_slice())
}

/// The values that operations use.
pub(crate) fn all_used(alloc: Global, ops: &[&OpTree]) -> Result<HashSet<u32>, NoMemory>
    ensures { IfOk result (λ s. holds s ≡ model.uses (lines_at ops.now)) }
{
    let mut used = HashSet::new(alloc);
    'each: for op in ops {
        put_operands(&mut used, op)?;
    }
    Ok(used)
}
