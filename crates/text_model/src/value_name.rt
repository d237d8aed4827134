//! The name of a value in a printed text.

/// The name of a value in a printed function.
#[derive(Clone, Copy, Debug)]
pub enum ValueName {
    /// An argument of a region's first block: `%arg3`.
    Argument(u64),
    /// Another argument, or the only result of an operation: `%3`.
    Single(u64),
    /// One of several results, which share a number: `%3#1`.
    Part(u64, u64),
}
