//! How many results the operations of a text have, at their names.

ghost use Rattle.std.specs.Prelude.{◌≡◌, ◌≤◌, IfOk, OnOk, length, map, reverse};
ghost use Rattle.event_trees.specs.Numbers.{first_count, result_counts, results_in, waiting_at};
ghost use Rattle.term_table.specs.Terms.{term_at};
ghost use Rattle.text_types.specs.Stack.{Within};

use std::alloc::{AllocError, Global};
use term_table::Terms;
use term_trees::result_count;
use text_events::Event;
use text_grammar::Place;

/// The count of the next function type, 0 for none.
fn first_count(waiting: &[u32]) -> u32
    ensures { result ≡ first_count (reverse waiting.now) }
{
    match waiting.last() {
        Some(count) => *count,
        None => 0,
    }
}

/// Puts the count of a function type, and takes it away where the name of its operation stands.
fn wait(terms: &Terms, waiting: &mut Vec<u32>, place: Place, number: u32) -> Result<(), AllocError>
    requires { number ≤ length terms.now.nodes.keys }
    ensures { OnOk result (reverse waiting.new.items ≡ waiting_at place (results_in (term_at terms.now.nodes.keys number)) (reverse waiting.old.items)) }
{
    match place {
        Place::SignatureOpen => {
            waiting.push(result_count(terms, number)?)?;
            Ok(())
        }
        Place::OpName => {
            let _ = waiting.pop();
            Ok(())
        }
        _ => Ok(()),
    }
}

/// For each event how many results the next function type has to which no name has come.
pub fn result_counts(
    alloc: Global,
    terms: &Terms,
    events: &[Event],
    numbers: &[u32],
) -> Result<Vec<u32>, AllocError>
    requires same { length events.now ≡ length numbers.now }
    requires within { Within (length terms.now.nodes.keys) numbers.now }
    ensures { IfOk result (λ v. v.items ≡ result_counts events.now (map (term_at terms.now.nodes.keys) numbers.now)) }
{
    let mut counts = Vec::with_capacity(alloc, events.len())?;
    let mut waiting = Vec::new(alloc);
    let mut index = events.len();
    'each: while index > 0 {
        index -= 1;
        counts.push(first_count(&waiting))?;
        wait(terms, &mut waiting, events[index].place, numbers[index])?;
    }
    counts.reverse();
    Ok(counts)
}
