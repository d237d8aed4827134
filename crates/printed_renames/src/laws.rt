//! The law, as the contract of a function that does nothing.

ghost use Rattle.printed_renames.specs.Texts.{OneText};

/// The text of a function says nothing of the numbers of its values and blocks.
pub fn law_one_text()
    ensures { OneText }
{}
