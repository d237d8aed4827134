//! What the events of a text denote has its dictionaries in order, and each entry where it belongs.
//!
//! A crate of definitions with their laws.
#![tactic(auto)]

ghost use Rattle.settled_reading.specs.Laws.{ReadIsSettled};

/// Whatever the events are: in the module that they denote each dictionary stands in the order of its names, and no attribute belongs to the properties of its operation.
pub fn law_read_is_settled()
    ensures { ReadIsSettled }
{}
