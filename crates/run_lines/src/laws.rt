//! Laws, each the contract of a function that does nothing.

ghost use Rattle.run_lines.specs.Examples.{AnOutcome, DoneAlone, NoRoomLeft, OneBit, QuotedName};

/// How ends and calls are written, at examples.
pub fn law_lines()
    ensures outcome { AnOutcome }
    ensures alone { DoneAlone }
    ensures bit { OneBit }
    ensures room { NoRoomLeft }
    ensures quoted { QuotedName }
{}
