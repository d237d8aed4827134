//! Texts that are read and printed, and texts that are refused.
#![tactic(auto)]

#[cfg(test)]
mod tests;
