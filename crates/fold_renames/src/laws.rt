//! The law, as the contract of a function that does nothing.

ghost use Rattle.fold_renames.specs.Outcomes.{OneOutcome};

/// Whichever new numbers two folds take, they fail alike, and their functions are of the same kinds.
pub fn law_one_outcome()
    ensures { OneOutcome }
{}
