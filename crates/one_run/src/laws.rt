//! The law, as the contract of a function that does nothing.

ghost use Rattle.one_run.specs.Runs.{OneRun};

/// Whichever new numbers were taken: the lowered module has the same runs, its functions show the same, and its operations have the same
/// names in the same order.
pub fn law_one_run()
    ensures { OneRun }
{}
