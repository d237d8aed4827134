//! The last step of a journal.

ghost use Rattle.std.specs.Prelude.{◌≡◌, ◌<◌, List, [], ◌∷◌, ◌++◌, length};
ghost use Rattle.undo_rewriter.specs.declared.step.Step.{Step as one_step};

use crate::step::Step;

/// Puts a step in the place of the last one.
pub fn put_last(journal: &mut Vec<Step>, step: Step)
    requires { 0 < length journal.old.items }
    ensures { (before : List one_step) (u : one_step) → journal.old.items ≡ before ++ u ∷ [] → journal.new.items ≡ before ++ step ∷ [] }
{
    let last = journal.len() - 1;
    journal[last] = step;
}
