//! What holds of types where values are named, and of types and their terms.

ghost use Rattle.use_kinds.specs.Laws.{OneTermForAType, OperandsInOrder, ResultsInOrder};

/// The terms of two types are the same exactly where the types are.
pub fn law_one_term_for_a_type()
    ensures { OneTermForAType }
{}

/// The operands of an operation have the types of its inputs, in order.
pub fn law_operands()
    ensures { OperandsInOrder }
{}

/// The result names of an operation have the types of its results, in order.
pub fn law_results()
    ensures { ResultsInOrder }
{}
