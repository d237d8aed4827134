//! Lists of types by their numbers, one behind another.

ghost use Rattle.std.specs.Prelude.{◌≡◌, ◌≤◌, ◌-◌, ℕ, List, [], IfOk, get_or, nat_lt};
ghost use Rattle.term_table.specs.declared.node.Node.{Node};
ghost use Rattle.term_table.specs.Terms.{nothing, term_at};
ghost use Rattle.text_types.specs.Stack.{Within};
ghost use Rattle.use_kinds.specs.Flat.{cut, rows_types};

use std::alloc::AllocError;

/// A part of the numbers.
#[derive(Clone, Copy, Drop)]
pub(crate) struct Row {
    pub(crate) start: u32,
    pub(crate) end: u32,
}

/// The lists of the operation that is read which no name has taken yet.
#[derive(Clone, Copy, Drop)]
pub(crate) struct Cursor {
    pub(crate) inputs: u32,
    pub(crate) results: Option<u32>,
}

/// A row, where its ends have numbers.
pub(crate) fn row_between(start: usize, end: usize) -> Result<Row, AllocError>
    ensures start { IfOk result (λ r. r.start ≡ start) }
    ensures end { IfOk result (λ r. r.end ≡ end) }
{
    match (u32::try_from(start), u32::try_from(end)) {
        (Ok(start), Ok(end)) => Ok(Row { start, end }),
        _ => Err(AllocError),
    }
}

/// The number at a place, 0 for none.
pub(crate) fn number_at(numbers: &[u32], index: usize) -> u32
    ensures is { result ≡ get_or numbers.now index 0 }
    ensures within { (last : ℕ) → Within last numbers.now → result ≤ last }
{
    match numbers.get(index) {
        Some(number) => *number,
        None => 0,
    }
}

/// The type of this index in the row of an event, 0 for none.
pub(crate) fn type_at(items: &[u32], rows: &[Row], event: usize, index: u128) -> u32
    ensures is { (nodes : List Node) → term_at nodes result ≡ get_or (get_or (rows_types nodes items.now rows.now) event []) index nothing }
    ensures within { (last : ℕ) → Within last items.now → result ≤ last }
{
    match rows.get(event) {
        Some(row) => in_row(items, *row, index),
        None => 0,
    }
}

/// The number of this index in a row, 0 for none.
fn in_row(items: &[u32], row: Row, index: u128) -> u32
    ensures is { result ≡ get_or (cut items.now row) index 0 }
    ensures within { (last : ℕ) → Within last items.now → result ≤ last }
{
    if is_in(row, index) {
        number_at(items, row.start as usize + index as usize)
    } else {
        0
    }
}

/// Whether a row has a number of this index.
fn is_in(row: Row, index: u128) -> bool
    ensures { result ≡ nat_lt index (row.end - row.start) }
{
    index < row.end.saturating_sub(row.start) as u128
}
