//! Laws of printed types, each the contract of a function that does nothing.

ghost use Rattle.printed_types.specs.Laws.{TextOfTypes, TypesAreRead, TypesStandApart};

/// The text of a type is the text of its words.
pub fn law_text_of_types()
    ensures { TextOfTypes }
{}

/// Before words that stand apart and don't go on with a name, the words of a type stand apart.
pub fn law_types_stand_apart()
    ensures { TypesStandApart }
{}

/// The words of a type are what the grammar calls one.
pub fn law_types_are_read()
    ensures { TypesAreRead }
{}
