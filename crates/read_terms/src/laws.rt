//! Laws of what is read, each the contract of a function that does nothing.

ghost use Rattle.read_terms.specs.Laws.{ReadIsFit, ReadIsNamed};

/// In a module that a text reads as each type is formed, and each number is one of its type.
pub fn law_read_is_fit()
    ensures { ReadIsFit }
{}

/// In a module that a text of bytes reads as each function has the name of one, and each operation in it another name of bytes, and not that of a module.
pub fn law_read_is_named()
    ensures { ReadIsNamed }
{}
