//! Laws, each the contract of a function that does nothing.

ghost use Rattle.line_rules.specs.Promises.{LinesKeepDefined, LinesKeepFormed, LinesKeepOwn, LinesKeepTests};

/// A function in whose regions operations are replaced by others one after another, which use old values and their own,
/// keeps rule `Defined`, stays formed, has no value that uses itself, and keeps the rules that are tests.
pub fn law_lines()
    ensures defined { LinesKeepDefined }
    ensures formed { LinesKeepFormed }
    ensures own { LinesKeepOwn }
    ensures tests { LinesKeepTests }
{}
