//! The kinds of refusals of the generic text that look at types and attributes: each the first event at which it stands.
#![tactic(auto)]

mod attr_depth;
mod begins;
mod counts;
mod parts;
mod ranges;
mod tally;
mod tally_calls;
mod type_count;
mod type_depth;

pub use attr_depth::first_attr_too_deep;
pub use begins::Begin;
pub use parts::{MOST_PARTS, first_part_too_many};
pub use ranges::first_out_of_range;
pub use type_count::first_type_count;
pub use type_depth::{MOST_DEPTH, first_type_too_deep};

#[cfg(test)]
mod tests;
