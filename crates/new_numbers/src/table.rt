//! The table of new numbers.

use crate::place::ValuePlace;
use indexmap::IndexSet;

/// New numbers: the places in the order in which they were asked for, counted from numbers on that nothing old has.
#[derive(Drop)]
pub struct NewNumbers {
    pub base: u64,
    pub values: IndexSet<ValuePlace>,
    pub label_base: u64,
    /// Labels by the places of a row, as [`ValuePlace::OfRow`].
    pub labels: IndexSet<ValuePlace>,
}
