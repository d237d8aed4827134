//! The kinds of refusals that need no types: what stands too often, names that are defined twice, and a module or a function at the wrong place.
#![tactic(auto)]

mod classes;
mod found;
mod limits;
mod misplaced;
mod plain;
mod shape;
mod tally;
mod texts;
mod unknown;

pub use found::{Found, Kind, law_least, least};
pub use limits::{Limit, first_over};
pub use misplaced::first_misplaced;
pub use plain::plain_kinds;
pub use shape::refused_module;
pub use texts::{LimitText, kind_name, limit_text};
pub use unknown::first_unknown;

#[cfg(test)]
mod tests;
