//! Tests of what no contract says: the texts and shards of keys.
#![tactic(auto)]

#[cfg(test)]
mod shards;
