//! How many operands and results operations have.

/// The operands and the named results of an operation.
#[derive(Clone, Copy, Drop)]
pub struct Counts {
    pub operands: u32,
    pub names: u32,
}
