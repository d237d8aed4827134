//! The uses of what a text reads as: each successor is a block of the region in which it stands.
//!
//! A crate of laws.
#![tactic(auto)]

ghost use Rattle.read_scopes.specs.Laws.{ReadLabelsInScope};

/// In each function of a module that a text reads as each successor is a block of the region of its operation, and the function itself has none.
pub fn law_read_labels_in_scope()
    ensures { ReadLabelsInScope }
{}
