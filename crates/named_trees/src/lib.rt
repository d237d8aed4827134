//! The printed names of functions whose values and labels are numbered in order: no two values are printed alike, and each label leads to the position of its block.
//!
//! A crate of definitions with their laws.
#![tactic(auto)]

ghost use Rattle.named_trees.specs.Named.{NamesAreOnce};

/// In a function that is numbered in order each definition has a name, each name stands for one value, and each label for the position of its block.
pub fn law_names_are_once()
    ensures { NamesAreOnce }
{}
