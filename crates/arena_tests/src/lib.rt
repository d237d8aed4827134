//! Tests of what no contract says: that the arena takes trees, and gives them back.
#![tactic(auto)]

#[cfg(test)]
mod building;
#[cfg(test)]
mod fixtures;
#[cfg(test)]
mod modules;
#[cfg(test)]
mod rewriting;
#[cfg(test)]
mod round_trips;
#[cfg(test)]
mod unnumbered;
