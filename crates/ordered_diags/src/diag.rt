//! A line, with what it is ordered by.

use tree_model::Bytes;

/// A line about a function that failed in a pass.
#[derive(Drop)]
pub struct Diag {
    /// The position of the function in the module.
    pub function: u32,
    /// The position of the pass in its stage.
    pub pass: u32,
    /// The position of the line among those of the failed unit.
    pub sequence: u32,
    /// The number of the operation that the unit's first line names.
    pub place: u32,
    /// The line without its line feed.
    pub text: Bytes,
}
