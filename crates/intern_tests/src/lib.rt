//! Tests of what no contract says: that interners answer, and how many keys they hold.
#![tactic(auto)]

#[cfg(test)]
mod fixtures;
#[cfg(test)]
mod full;
#[cfg(test)]
mod recent;
#[cfg(test)]
mod tables;
#[cfg(test)]
mod trait_calls;
