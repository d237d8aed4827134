//! What a run of a whole function comes to.

use frame_code::Place;
use machine_code::{ExternalCall, SignedList};
use run_code::{Packing, Width};
use sqlite_items::Items;

/// Calls of external functions in order.
pub type TraceList = Items<ExternalCall>;

/// How a run of a whole function ends: with its results as signed numbers, or before it does.
#[derive(Debug, Drop)]
pub enum End {
    Done(SignedList),
    /// No fuel is left.
    More,
    Undefined,
    /// The run is outside of what has a meaning.
    Outside,
    /// Memory is short.
    NoRoom,
}

/// What a run of a whole function comes to: its end and the calls of external functions.
#[derive(Debug, Drop)]
pub struct Outcome {
    pub end: End,
    pub trace: TraceList,
}

/// An entry: the widths of a function's results, how they are handed over, and the place at which it begins.
#[derive(Drop)]
pub struct Entry<'a> {
    pub outputs: &'a [Width],
    pub packing: Packing,
    pub place: Place<'a>,
}
