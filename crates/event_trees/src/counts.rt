//! What is counted of a function.

use text_scopes::Body;

/// Where an event stands, and what stands before it in its function.
#[derive(Clone, Copy, Drop)]
pub struct Counts {
    pub body: Body,
    /// How many values are defined before, with the results of the operations that have begun.
    pub values: u32,
    /// How many results of the operation that comes have names before.
    pub named: u32,
    /// How many blocks have begun.
    pub labels: u32,
}
