//! The events of a printed module as they are, and marked: nothing is marked, and nothing stands for an alias.
//!
//! A crate of definitions with their laws.
#![tactic(auto)]

ghost use Rattle.printed_marks.specs.Marks.{NothingIsMarked};

/// A printed module has no results in parentheses that an arrow follows, so marking leaves its events as they are.
pub fn law_nothing_is_marked()
    ensures { NothingIsMarked }
{}
