//! What properties that are lists of numbers tell.
#![tactic(auto, using(crate::proofs::AttrOpens::opens))]

ghost use Rattle.std.specs.Prelude.{◌≡◌, [], ◌∷◌, IfOk};
ghost use Rattle.std.specs.Option.{option_map};
ghost use Rattle.plain_tree.specs.Attrs.{plain_attr, plain_entries};
ghost use Rattle.rule_model.specs.Forms as model;
ghost use Rattle.rule_facts.specs.Views.{pair_view};

use crate::entries::entry;
use std::alloc::Global;
use std::collections::HashSet;
use tree_model::{AttrTree, Name, NoMemory};

fn first_and_two(c: i64, a: i64, b: i64) -> Option<(u64, u64)>
    ensures { option_map pair_view result ≡ model.first_and_two (c ∷ a ∷ b ∷ []) }
{
    if c == 1 && a >= 0 && b >= 0 {
        Some((a as u64, b as u64))
    } else {
        None
    }
}

fn counts_in(numbers: &[i64]) -> Option<(u64, u64)>
    ensures { option_map pair_view result ≡ model.first_and_two numbers.now }
{
    match numbers {
        [c, a, b] => first_and_two(*c, *a, *b),
        _ => None,
    }
}

/// How many operands each of two successors takes.
pub fn two_counts(a: &AttrTree) -> Option<(u64, u64)>
    ensures { option_map pair_view result ≡ model.two_counts (plain_attr a.now) }
{
    match a {
        AttrTree::Ints(width, numbers) => {
            if *width == 32 {
                counts_in(numbers.as_slice())
            } else {
                None
            }
        }
        AttrTree::Unit
        | AttrTree::Int(_, _)
        | AttrTree::Str(_)
        | AttrTree::List(_)
        | AttrTree::Dict(_)
        | AttrTree::OfType(_)
        | AttrTree::Symbol(_)
        | AttrTree::Dialect(_, _) => None,
    }
}

/// How many operands each successor of a branch with a condition takes.
pub fn segments(props: &[(Name, AttrTree)]) -> Option<(u64, u64)>
    ensures { option_map pair_view result ≡ model.segments (plain_entries props.now) }
{
    match entry(b"operandSegmentSizes", props) {
        Some(a) => two_counts(a),
        None => None,
    }
}

/// Whether no number stands twice.
fn are_distinct(alloc: Global, numbers: &[i64]) -> Result<bool, NoMemory>
    ensures { IfOk result (λ b. b ≡ model.are_distinct numbers.now) }
{
    let mut seen = HashSet::new(alloc);
    let mut index = numbers.len();
    while index > 0 {
        index -= 1;
        if seen.contains(&numbers[index]) {
            return Ok(false);
        }
        seen.insert(numbers[index])?;
    }
    Ok(true)
}

/// How many distinct numbers of 64 bits these are.
pub fn distinct_count(alloc: Global, a: &AttrTree) -> Result<Option<usize>, NoMemory>
    ensures { IfOk result (λ n. n ≡ model.distinct_count (plain_attr a.now)) }
{
    match a {
        AttrTree::Ints(width, numbers) => {
            if *width == 64 && are_distinct(alloc, numbers.as_slice())? {
                Ok(Some(numbers.len()))
            } else {
                Ok(None)
            }
        }
        AttrTree::Unit
        | AttrTree::Int(_, _)
        | AttrTree::Str(_)
        | AttrTree::List(_)
        | AttrTree::Dict(_)
        | AttrTree::OfType(_)
        | AttrTree::Symbol(_)
        | AttrTree::Dialect(_, _) => Ok(None),
    }
}

/// How many cases a switch has.
pub fn case_count(alloc: Global, props: &[(Name, AttrTree)]) -> Result<Option<usize>, NoMemory>
    ensures { IfOk result (λ n. n ≡ model.case_count (plain_entries props.now)) }
{
    match entry(b"cases", props) {
        Some(a) => distinct_count(alloc, a),
        None => Ok(None),
    }
}
