//! The laws, each the contract of a function that does nothing.

ghost use Rattle.run_renames.specs.Promises.{FoldsRun, RenamedL, RenamedS};

/// However values and labels are renumbered, one to one in each function: the structured meaning of each function is the same.
pub fn law_renamed_s()
    ensures { RenamedS }
{}

/// And so is the meaning of llvm operations.
pub fn law_renamed_l()
    ensures { RenamedL }
{}

/// Whichever new numbers two folds take, the modules that they make have the same runs, functions that show the same, and operations of the
/// same names in the same order.
pub fn law_folds_run()
    ensures { FoldsRun }
{}
