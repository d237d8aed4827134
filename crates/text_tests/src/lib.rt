//! Tests of what no contract says: the crates over texts, the edges, and the program as a whole.
#![tactic(auto)]

#[cfg(test)]
mod diagnostics;
#[cfg(test)]
mod edges;
#[cfg(test)]
mod pipelines;
#[cfg(test)]
mod program;
#[cfg(test)]
mod texts;
#[cfg(test)]
mod tokens;
