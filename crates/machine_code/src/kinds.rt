//! Machines, and how their runs end.

use frame_code::Place;
use run_code::Packing;
use sqlite_items::Items;
use std::collections::VecDeque;
use step_code::Stop;
use tree_model::Name;
use value_code::ValueList;

/// Signed numbers in order.
pub type SignedList = Items<i64>;

/// A call of an external function: its name, its arguments and its answers.
#[derive(Debug, Drop)]
pub struct ExternalCall {
    pub name: Name,
    pub args: SignedList,
    pub answers: SignedList,
}

/// A call under way: how the results are got from what is returned, the numbers that they get, and the place behind the call.
#[derive(Drop)]
pub struct Caller<'a> {
    pub packing: Packing,
    pub results: &'a [u32],
    pub place: Place<'a>,
}

/// The state of a run but for the memory: the place, the calls under way, the newest first, the answers of external functions that are
/// left, and the calls of such functions so far.
#[derive(Drop)]
pub struct Machine<'a> {
    pub place: Place<'a>,
    pub callers: VecDeque<Caller<'a>>,
    pub answers: &'a [i64],
    pub trace: Items<ExternalCall>,
}

/// How a run ends: with what the function returns, or before it does.
#[derive(Drop)]
pub enum Finish {
    Returned(ValueList),
    Stopped(Stop),
}
