//! Function types with other numbers of types than the operation has operands and named results.

ghost use Rattle.std.specs.Prelude.{◌≡◌, ◌≤◌, ◌&&◌, IfOk, OnOk, length, reverse, slice_index_or};
ghost use Rattle.term_table.specs.Terms.{term_at};
ghost use Rattle.text_types.specs.Items.{Aliases, begun};
ghost use Rattle.text_types.specs.Stack.{Stands, Within};
ghost use Rattle.type_kinds.specs.Counts.{capped, closed_region, count_types, first_miscount, held, held_behind, is_list, is_signature, is_wrong, no_counts};

use crate::counts::Counts;
use std::alloc::{AllocError, Global};
use term_table::{Form, Terms};
use text_events::Event;
use text_grammar::Place;
use text_types::Spelled;

fn is_list(form: Form) -> bool
    ensures { result ≡ is_list form }
{
    match form {
        Form::Types => true,
        _ => false,
    }
}

fn is_signature(place: Place) -> bool
    ensures { result ≡ is_signature place }
{
    match place {
        Place::SignatureOpen => true,
        _ => false,
    }
}

/// How many types a list has.
fn count_types(terms: &Terms, list: u32) -> u32
    requires { list ≤ length terms.now.nodes.keys }
    ensures { result ≡ count_types (term_at terms.now.nodes.keys list) }
{
    let mut count = 0;
    let mut rest = list;
    'each: while let Some(node) = terms.get(rest) {
        if !is_list(node.form) {
            return count;
        }
        count += 1;
        rest = node.right;
    }
    count
}

fn is_wrong(counts: Counts, terms: &Terms, signature: u32) -> bool
    requires { signature ≤ length terms.now.nodes.keys }
    ensures { result ≡ is_wrong counts (term_at terms.now.nodes.keys signature) }
{
    match terms.get(signature) {
        Some(node) => {
            count_types(terms, node.left) != counts.operands
                || (counts.names > 0 && count_types(terms, node.right) != counts.names)
        }
        None => false,
    }
}

/// The operation whose region closes goes on.
fn close_region(now: &mut Counts, outer: &mut Vec<Counts>)
    ensures now { now.new ≡ (closed_region (reverse outer.old.items)).now }
    ensures outer { reverse outer.new.items ≡ (closed_region (reverse outer.old.items)).outer }
{
    match outer.pop() {
        Some(counts) => *now = counts,
        None => {
            *now = Counts {
                operands: 0,
                names: 0,
            }
        }
    }
}

/// What an event adds to the operation, and which one it is.
fn pass_counts<S: Spelled>(
    words: &S,
    event: Event,
    now: &mut Counts,
    outer: &mut Vec<Counts>,
) -> Result<(), AllocError>
    ensures { OnOk result (held now.new (reverse outer.new.items) ≡ held_behind (S.spelling words.now) event.place event.name (held now.old (reverse outer.old.items))) }
{
    match event.place {
        Place::UseName => now.operands = now.operands.saturating_add(1),
        Place::ResultName => now.names = now.names.saturating_add(1),
        Place::ResultNumber => {
            let count = words.number(event.name).min(4294967295) as u32;
            now.names = now.names.saturating_sub(1).saturating_add(count);
        }
        Place::SignatureOpen => {
            *now = Counts {
                operands: 0,
                names: 0,
            }
        }
        Place::RegionOpen => {
            outer.push(*now)?;
            *now = Counts {
                operands: 0,
                names: 0,
            };
        }
        Place::RegionClose => close_region(now, outer),
        _ => {}
    }
    Ok(())
}

/// The number at a place, 0 for none.
fn number_at(numbers: &[u32], index: usize) -> u32
    ensures is { result ≡ slice_index_or numbers.now index 0 }
{
    match numbers.get(index) {
        Some(number) => *number,
        None => 0,
    }
}

/// Whether the function type that begins at an event has another number of types than the operation before it.
fn miscounts(place: Place, now: Counts, terms: &Terms, signature: u32) -> bool
    requires { signature ≤ length terms.now.nodes.keys }
    ensures { result ≡ (is_signature place && is_wrong now (term_at terms.now.nodes.keys signature)) }
{
    is_signature(place) && is_wrong(now, terms, signature)
}

/// The first function type with another number of types than the operation has operands or named results, where these numbers
/// stand for what begins at each event.
pub fn first_type_count<S: Spelled>(
    alloc: Global,
    words: &S,
    terms: &Terms,
    events: &[Event],
    numbers: &[u32],
) -> Result<Option<usize>, AllocError>
    requires { Within (length terms.now.nodes.keys) numbers.now }
    ensures { (aliases : Aliases) → Stands terms.now.nodes.keys numbers.now (begun (S.spelling words.now) aliases events.now) → IfOk result (λ found. found ≡ first_miscount (S.spelling words.now) aliases events.now) }
{
    let mut now = Counts {
        operands: 0,
        names: 0,
    };
    let mut outer = Vec::new(alloc);
    'each: for (index, event) in events.iter().enumerate() {
        if miscounts(event.place, now, terms, number_at(numbers, index)) {
            return Ok(Some(index));
        }
        pass_counts(words, *event, &mut now, &mut outer)?;
    }
    Ok(None)
}
