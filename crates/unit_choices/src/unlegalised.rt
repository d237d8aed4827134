//! An operation that is not legalised.

use tree_model::Name;

/// The first operation of a function that is demanded and has no derivation: its number in the order of the text (0 is
/// the function itself), and its name.
#[derive(Debug, Drop)]
pub struct UnlegalisedTree {
    pub number: u32,
    pub name: Name,
}
