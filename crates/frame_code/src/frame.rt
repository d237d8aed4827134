//! Places, and the regions that wait there.

use round_code::Counting;
use run_code::{Block, Operation};
use std::collections::VecDeque;
use table_code::Table;

/// What waits behind an operation: its results, the operations behind it and the blocks of its region.
#[derive(Clone, Copy)]
pub struct Behind<'a> {
    pub results: &'a [u32],
    pub rest: &'a [Operation],
    pub blocks: &'a [Block],
}

/// A loop with a condition: the region that ends by it and the region behind it.
#[derive(Clone, Copy)]
pub struct Looping<'a> {
    pub before: &'a [Block],
    pub after: &'a [Block],
}

/// A region under way.
#[derive(Clone, Copy)]
pub enum Frame<'a> {
    /// One that is run once.
    Once(Behind<'a>),
    /// The body of a counting loop, at a number.
    Body(Counting, &'a [Block], u64, Behind<'a>),
    /// The first region of a loop with a condition.
    Before(Looping<'a>, Behind<'a>),
    /// The second region of a loop with a condition.
    After(Looping<'a>, Behind<'a>),
}

/// A place in a function: the operations ahead in a block, the blocks of its region, the values so far, and the regions under way, the
/// innermost first.
#[derive(Drop)]
pub struct Place<'a> {
    pub ops: &'a [Operation],
    pub blocks: &'a [Block],
    pub table: Table,
    pub frames: VecDeque<Frame<'a>>,
}

/// Whether a place has moved on, or why the run stops.
#[derive(Clone, Copy, PartialEq, Eq, Debug)]
pub enum Moving {
    Went,
    Undefined,
    Outside,
}
