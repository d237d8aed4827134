//! Tests of what no contract says: the crates over trees.
#![tactic(auto)]

#[cfg(test)]
mod fixtures;
#[cfg(test)]
mod names;
#[cfg(test)]
mod shapes;
#[cfg(test)]
mod trees;
