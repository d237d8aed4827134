//! Kinds of refusals that don't stand in printed modules.
//!
//! A crate of definitions with their laws.
#![tactic(auto)]

ghost use Rattle.printed_kinds.specs.Kinds.{NoAliasIsDefined, PartsAreFew};

/// A printed module defines no alias, so it defines none twice, and none stands for anything.
pub fn law_no_alias_is_defined()
    ensures { NoAliasIsDefined }
{}

/// A printed module of no more words than a text may have parts has no more parts than that.
pub fn law_parts_are_few()
    ensures { PartsAreFew }
{}
