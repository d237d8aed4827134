//! The way back, with a count of what is taken back.

ghost use Rattle.std.specs.Prelude.{◌≡◌, ℕ, ◌+◌, ◌≤◌, length, take, drop};
ghost use Rattle.undo_rewriter.specs.Journal.{at_mark, edits};

use crate::rewriter::{Mark, Rewriter};
use std::sync::ledger::Ledger;
use tick_count::Steps;

impl Rewriter {
    /// Brings the function back to a mark, with a tick for each edit that is taken back. This can't fail.
    pub fn rollback_on<L: Ledger>(&mut self, mark: Mark, steps: &mut Steps<L>)
        requires { mark ≤ length self.old.journal }
        ensures now { self.new.now ≡ at_mark self.old.journal self.old.now mark }
        ensures journal { self.new.journal ≡ take mark self.old.journal }
        ensures marks { (earlier : ℕ) → earlier ≤ mark → at_mark self.new.journal self.new.now earlier ≡ at_mark self.old.journal self.old.now earlier }
        ensures ticks { steps.new ≡ steps.old + edits (drop mark self.old.journal) }
    {
        let edits = self.rollback(mark);
        steps.ticks(edits);
    }
}
