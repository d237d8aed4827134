//! Laws of printed operations, each the contract of a function that does nothing.

ghost use Rattle.printed_ops.specs.Laws.{OpsAreRead, OpsStandApart, TextOfOps};

/// The lines of an operation are the text of its words, before another line.
pub fn law_text_of_ops()
    ensures { TextOfOps }
{}

/// Before words that stand apart, on another line, the words of an operation stand apart.
pub fn law_ops_stand_apart()
    ensures { OpsStandApart }
{}

/// The words of operations are what the grammar calls operations.
pub fn law_ops_are_read()
    ensures { OpsAreRead }
{}
