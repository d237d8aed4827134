//! The law, the contract of a function that does nothing.

ghost use Rattle.fold_model.specs.Runs.{RunsAreFolds};

/// Stages that run one after another, each pass on a function with new numbers that are fresh for it, make what the fold of
/// the pipeline makes.
pub fn law_runs_are_folds()
    ensures { RunsAreFolds }
{}
