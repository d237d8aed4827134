//! Laws of the lines and their order, each the contract of a function that does nothing.

ghost use Rattle.ordered_diags.specs.Failures.{LinesOfAFailure};
ghost use Rattle.ordered_diags.specs.Order.{OneOrder};

/// Where no two lines agree, the merged list does not depend on how they were given.
pub fn law_one_order()
    ensures { OneOrder }
{}

/// The two lines of a failed unit, at an example.
pub fn law_lines_of_a_failure()
    ensures { LinesOfAFailure }
{}
