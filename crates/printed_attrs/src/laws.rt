//! Laws of printed attributes and dictionaries, each the contract of a function that does nothing.

ghost use Rattle.printed_attrs.specs.Laws.{AttrsAreRead, AttrsStandApart, DictsAreRead, DictsStandApart, TextOfAttrs, TextOfDicts};

/// The text of an attribute is the text of its words, and so is that of a dictionary's entries.
pub fn law_text_of_attrs()
    ensures attr { TextOfAttrs }
    ensures dict { TextOfDicts }
{}

/// Before words that stand apart and don't go on with a name, the words of an attribute that a text can have stand apart.
pub fn law_attrs_stand_apart()
    ensures attr { AttrsStandApart }
    ensures dict { DictsStandApart }
{}

/// The words of an attribute that a text can have are what the grammar calls one, and those of entries are its entries.
pub fn law_attrs_are_read()
    ensures attr { AttrsAreRead }
    ensures dict { DictsAreRead }
{}
