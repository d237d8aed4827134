//! The results of function types.

ghost use Rattle.std.specs.Prelude.{◌≡◌, ◌≤◌, ◌+◌, IfOk, length};
ghost use Rattle.event_trees.specs.Levels.{numbered, result_types};
ghost use Rattle.event_trees.specs.Numbers.{length_of, results_in};
ghost use Rattle.plain_tree.specs.Types.{type_trees};
ghost use Rattle.term_table.specs.Terms.{term_at};
ghost use Rattle.text_types.specs.Plain.{types_of};

use crate::lists::item;
use crate::types::type_at;
use sqlite_items::Items;
use std::alloc::{AllocError, Global};
use term_table::{Form, Terms};
use tree_model::ValueList;

/// The next number. No text has so many values that there is none.
fn next(number: u32) -> Result<u32, AllocError>
    ensures { IfOk result (λ n. n ≡ number + 1) }
{
    match number.checked_add(1) {
        Some(number) => Ok(number),
        None => Err(AllocError),
    }
}

/// How many types a list has.
fn length_of(terms: &Terms, number: u32) -> Result<u32, AllocError>
    requires { number ≤ length terms.now.nodes.keys }
    ensures { IfOk result (λ n. n ≡ length_of (term_at terms.now.nodes.keys number)) }
{
    let mut count = 0;
    let mut rest = number;
    'each: while let Some(first) = item(terms, rest, Form::Types) {
        count = next(count)?;
        rest = first.right;
    }
    Ok(count)
}

/// How many results a function type has.
pub fn result_count(terms: &Terms, number: u32) -> Result<u32, AllocError>
    requires { number ≤ length terms.now.nodes.keys }
    ensures { IfOk result (λ n. n ≡ results_in (term_at terms.now.nodes.keys number)) }
{
    match item(terms, number, Form::Func) {
        Some(function) => length_of(terms, function.right),
        None => Ok(0),
    }
}

/// Values of the types of a list, with numbers from the first one on.
fn numbered(alloc: Global, terms: &Terms, number: u32, first: u32) -> Result<ValueList, AllocError>
    requires { number ≤ length terms.now.nodes.keys }
    ensures { IfOk result (λ vs. vs ≡ numbered first (type_trees (types_of (term_at terms.now.nodes.keys number)))) }
{
    let mut values = Items::new(alloc);
    let mut rest = number;
    let mut value = first;
    'each: while let Some(node) = item(terms, rest, Form::Types) {
        values.push((value, type_at(alloc, terms, node.left)?))?;
        value = next(value)?;
        rest = node.right;
    }
    Ok(values)
}

/// The results of a function type as values with numbers from the first one on.
pub fn results_at(
    alloc: Global,
    terms: &Terms,
    number: u32,
    first: u32,
) -> Result<ValueList, AllocError>
    requires { number ≤ length terms.now.nodes.keys }
    ensures { IfOk result (λ vs. vs ≡ numbered first (result_types (term_at terms.now.nodes.keys number))) }
{
    match item(terms, number, Form::Func) {
        Some(function) => numbered(alloc, terms, function.right, first),
        None => Ok(Items::new(alloc)),
    }
}
