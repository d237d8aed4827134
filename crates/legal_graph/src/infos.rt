//! What the graph is made from.

use tree_model::{Name, NameList};

/// What a pattern says of itself.
#[derive(Debug, Drop)]
pub struct PatternInfo {
    /// The name of the operations that it replaces.
    pub root: Name,
    pub benefit: u32,
    /// The names that it may make.
    pub products: NameList,
    /// Whether it takes operands and results in their converted types.
    pub converted: bool,
}

/// The names that are legal: those that always are, and those that some operations are.
#[derive(Debug, Drop)]
pub struct LegalNames {
    pub always: NameList,
    pub dynamic: NameList,
}
