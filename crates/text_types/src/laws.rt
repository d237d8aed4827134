//! What holds of types and their numbers.

ghost use Rattle.text_types.specs.Laws.{OneNumberForAType, TypeOfTerm};

/// In a table two numbers that stand for types are the same exactly where the types are.
pub fn law_one_number_for_a_type()
    ensures { OneNumberForAType }
{}

/// A type is that of its term.
pub fn law_type_of_term()
    ensures { TypeOfTerm }
{}
