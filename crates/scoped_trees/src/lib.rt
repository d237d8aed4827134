//! Modules whose uses are in scope: in their printed text each use finds the definition of what is used.
//!
//! A crate of definitions with their laws.
#![tactic(auto)]

ghost use Rattle.scoped_trees.specs.Laws.{UsesAreServed};

/// In events that have the words of a scoped module, numbered in order, the number at the definition that is found for each use is that of the value or label that is used.
pub fn law_uses_are_served()
    ensures { UsesAreServed }
{}
