//! Laws of what printed words denote, each the contract of a function that does nothing.

ghost use Rattle.printed_terms.specs.Laws.{AttrsAreTold, TypesAreTold};

/// Events that have the words of a type have its term in front of the terms behind them.
pub fn law_types_are_told()
    ensures { TypesAreTold }
{}

/// Events that have the words of an attribute that a text can have, with its dictionaries in order, have a term that is this attribute.
pub fn law_attrs_are_told()
    ensures { AttrsAreTold }
{}
