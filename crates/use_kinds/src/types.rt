//! The types of the values that each event names.

ghost use Rattle.std.specs.Prelude.{◌≡◌, ◌+◌, ◌-◌, ◌≤◌, ◌<◌, ◌^◌, ℕ, [], List, None, ◌∷◌, IfOk, OnOk, IfSome, IfNone, length, drop, take, get_or};
ghost use Rattle.text_events.specs.declared.event.Event.{Event};
ghost use Rattle.term_table.specs.Terms.{nothing, term_at};
ghost use Rattle.text_types.specs.Items.{Aliases, begun};
ghost use Rattle.text_types.specs.Stack.{Stands, Within};
ghost use Rattle.use_kinds.specs.Written.{count_of, inputs_of, is_colon, is_list, left_at, no_operation, or_all, results_of, types_at, types_from, types_in};
ghost use Rattle.use_kinds.specs.Flat.{Added, CursorWithin, RowsWithin, rows_types, signatures_of, waits};

use crate::rows::{Cursor, Row, number_at, row_between};
use std::alloc::{AllocError, Global};
use term_table::{Form, Node, Terms};
use text_events::Event;
use text_grammar::Place;
use text_types::Spelled;

/// The types that events name, by the rows of the events.
#[derive(Drop)]
pub(crate) struct Types {
    pub(crate) items: Vec<u32>,
    pub(crate) rows: Vec<Row>,
}

fn is_list(form: Form) -> bool
    ensures { result ≡ is_list form }
{
    match form {
        Form::Types => true,
        _ => false,
    }
}

fn is_colon(place: Place) -> bool
    ensures { result ≡ is_colon place }
{
    match place {
        Place::ResultColon => true,
        _ => false,
    }
}

/// How many values a name stands for, where these events follow.
pub(crate) fn count_of<S: Spelled>(words: &S, behind: &[Event]) -> u128
    ensures { result ≡ count_of (S.spelling words.now) behind.now }
{
    match behind {
        [colon, number, ..] => {
            if is_colon(colon.place) {
                words.number(number.name)
            } else {
                1
            }
        }
        _ => 1,
    }
}

/// The inputs of a function type.
fn inputs_of(terms: &Terms, function: u32) -> u32
    requires { function ≤ length terms.now.nodes.keys }
    ensures is { types_in (term_at terms.now.nodes.keys result) ≡ inputs_of (term_at terms.now.nodes.keys function) }
    ensures within { result ≤ length terms.now.nodes.keys }
{
    match terms.get(function) {
        Some(node) => node.left,
        None => 0,
    }
}

/// The results of a function type.
fn results_of(terms: &Terms, function: u32) -> u32
    requires { function ≤ length terms.now.nodes.keys }
    ensures is { types_in (term_at terms.now.nodes.keys result) ≡ results_of (term_at terms.now.nodes.keys function) }
    ensures within { result ≤ length terms.now.nodes.keys }
{
    match terms.get(function) {
        Some(node) => node.right,
        None => 0,
    }
}

/// The node of a list that isn't empty.
fn first_of(terms: &Terms, list: u32) -> Option<Node>
    requires { list ≤ length terms.now.nodes.keys }
    ensures some { IfSome result (λ n. types_in (term_at terms.now.nodes.keys list) ≡ term_at terms.now.nodes.keys n.left ∷ types_in (term_at terms.now.nodes.keys n.right)) }
    ensures parts { IfSome result (λ n. (n.left < list) × (n.right < list)) }
    ensures none { IfNone result (types_in (term_at terms.now.nodes.keys list) ≡ []) }
{
    match terms.get(list) {
        Some(node) => { if is_list(node.form) { Some(node) } else { None } }
        None => None,
    }
}

/// Takes so many types of a list, and gives what is left of it.
fn take_types(
    terms: &Terms,
    list: u32,
    count: u128,
    items: &mut Vec<u32>,
) -> Result<u32, AllocError>
    requires { list ≤ length terms.now.nodes.keys }
    ensures added { OnOk result (Added terms.now.nodes.keys items.old.items items.new.items (take count (types_in (term_at terms.now.nodes.keys list)))) }
    ensures left { IfOk result (λ l. types_in (term_at terms.now.nodes.keys l) ≡ drop count (types_in (term_at terms.now.nodes.keys list))) }
    ensures within { IfOk result (λ l. l ≤ length terms.now.nodes.keys) }
{
    let mut rest = list;
    let mut wanted = count;
    'each: while wanted > 0 {
        match first_of(terms, rest) {
            Some(node) => {
                items.push(node.left)?;
                rest = node.right;
            }
            None => return Ok(rest),
        }
        wanted -= 1;
    }
    Ok(rest)
}

/// An operation begins.
fn begin(terms: &Terms, function: u32) -> Cursor
    requires { function ≤ length terms.now.nodes.keys }
    ensures is { waits terms.now.nodes.keys result ≡ (record { inputs = inputs_of (term_at terms.now.nodes.keys function); results = None }) }
    ensures within { CursorWithin (length terms.now.nodes.keys) result }
{
    Cursor {
        inputs: inputs_of(terms, function),
        results: None,
    }
}

/// The results that no name has taken yet.
fn results_left(terms: &Terms, function: u32, cursor: Cursor) -> u32
    requires function { function ≤ length terms.now.nodes.keys }
    requires cursor { CursorWithin (length terms.now.nodes.keys) cursor }
    ensures is { types_in (term_at terms.now.nodes.keys result) ≡ or_all (waits terms.now.nodes.keys cursor).results (results_of (term_at terms.now.nodes.keys function)) }
    ensures within { result ≤ length terms.now.nodes.keys }
{
    match cursor.results {
        Some(list) => list,
        None => results_of(terms, function),
    }
}

/// Takes the types of the values that a name at the place stands for, and gives what is left.
fn take_named(
    terms: &Terms,
    place: Place,
    count: u128,
    function: u32,
    argument: u32,
    cursor: Cursor,
    items: &mut Vec<u32>,
) -> Result<Cursor, AllocError>
    requires function { function ≤ length terms.now.nodes.keys }
    requires argument { argument ≤ length terms.now.nodes.keys }
    requires cursor { CursorWithin (length terms.now.nodes.keys) cursor }
    ensures added { OnOk result (Added terms.now.nodes.keys items.old.items items.new.items (types_at (waits terms.now.nodes.keys cursor) place count (term_at terms.now.nodes.keys function) (term_at terms.now.nodes.keys argument))) }
    ensures left { IfOk result (λ c. waits terms.now.nodes.keys c ≡ left_at (waits terms.now.nodes.keys cursor) place count (term_at terms.now.nodes.keys function)) }
    ensures within { IfOk result (CursorWithin (length terms.now.nodes.keys)) }
{
    match place {
        Place::OpName => Ok(begin(terms, function)),
        Place::UseName => {
            let inputs = take_types(terms, cursor.inputs, 1, items)?;
            Ok(Cursor {
                inputs,
                results: cursor.results,
            })
        }
        Place::ResultName => {
            let list = results_left(terms, function, cursor);
            let left = take_types(terms, list, count, items)?;
            Ok(Cursor {
                inputs: cursor.inputs,
                results: Some(left),
            })
        }
        Place::ArgName => {
            items.push(argument)?;
            Ok(cursor)
        }
        _ => Ok(cursor),
    }
}

/// The number of the function type of what is read behind an event, 0 for none.
fn function_number(numbers: &[u32], signatures: &[u32], count: usize, behind: usize) -> u32
    ensures is { result ≡ get_or numbers.now (count - get_or signatures.now behind 0) 0 }
    ensures within { (last : ℕ) → Within last numbers.now → result ≤ last }
{
    number_at(
        numbers,
        count.saturating_sub(number_at(signatures, behind) as usize),
    )
}

/// The types that the events name, where these numbers stand for what begins at each event.
pub(crate) fn types_of<S: Spelled>(
    alloc: Global,
    words: &S,
    terms: &Terms,
    events: &[Event],
    numbers: &[u32],
    signatures: &[u32],
) -> Result<Types, AllocError>
    requires numbers { Within (length terms.now.nodes.keys) numbers.now }
    requires signatures { signatures.now ≡ signatures_of events.now }
    ensures types { (aliases : Aliases) → Stands terms.now.nodes.keys numbers.now (begun (S.spelling words.now) aliases events.now) → IfOk result (λ t. rows_types terms.now.nodes.keys t.items.items t.rows.items ≡ types_from (S.spelling words.now) aliases no_operation events.now) }
    ensures within { IfOk result (λ t. Within (length terms.now.nodes.keys) t.items.items) }
{
    let mut items = Vec::new(alloc);
    let mut rows = Vec::with_capacity(alloc, events.len())?;
    let mut cursor = Cursor {
        inputs: 0,
        results: None,
    };
    'each: for (index, event) in events.iter().enumerate() {
        let function = function_number(numbers, signatures, events.len(), index + 1);
        let argument = number_at(numbers, index + 2);
        let count = count_of(words, &events[index + 1..]);
        let start = items.len();
        cursor = take_named(
            terms,
            event.place,
            count,
            function,
            argument,
            cursor,
            &mut items,
        )?;
        rows.push(row_between(start, items.len())?)?;
    }
    Ok(Types { items, rows })
}
