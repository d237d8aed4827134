//! Marks, and the way back to one.

ghost use Rattle.std.specs.Prelude.{◌≡◌, ℕ, ◌<◌, ◌≤◌, [], length, take, drop};
ghost use Rattle.flat_model.specs.Flat.{IsClosed};
ghost use Rattle.undo_rewriter.specs.Journal.{at_mark, edits};

use crate::rewriter::{Mark, Rewriter};
use ir_arena::Func;
use std::alloc::Global;

impl Rewriter {
    /// A function that is taken over. Nothing was done to it yet.
    pub fn new(alloc: Global, func: Func) -> Rewriter
        ensures now { result.now ≡ func.flat }
        ensures journal { result.journal ≡ [] }
    {
        Rewriter {
            alloc,
            func,
            journal: Vec::new(alloc),
        }
    }

    /// Where memory is taken from.
    pub fn alloc(&self) -> Global {
        self.alloc
    }

    /// The function as it is now.
    pub fn func(&self) -> &Func
        ensures { result.now.flat ≡ self.now.now }
    {
        &self.func
    }

    /// The function as it is now, for good.
    pub fn commit(self) -> Func
        ensures { result.flat ≡ self.now }
    {
        let Rewriter {
            alloc: _,
            func,
            journal: _,
        } = self;
        func
    }

    /// A mark to which the function can be brought back.
    pub fn checkpoint(&self) -> Mark
        ensures mark { result ≡ length self.now.journal }
        ensures now { at_mark self.now.journal self.now.now result ≡ self.now.now }
        ensures closed { IsClosed self.now.now }
    {
        self.func.closed();
        self.journal.len()
    }

    /// Brings the function back to a mark, and says how many edits were taken back. This can't fail.
    pub fn rollback(&mut self, mark: Mark) -> usize
        requires { mark ≤ length self.old.journal }
        ensures now { self.new.now ≡ at_mark self.old.journal self.old.now mark }
        ensures journal { self.new.journal ≡ take mark self.old.journal }
        ensures marks { (earlier : ℕ) → earlier ≤ mark → at_mark self.new.journal self.new.now earlier ≡ at_mark self.old.journal self.old.now earlier }
        ensures ticks { result ≡ edits (drop mark self.old.journal) }
    {
        let whole = self.checkpoint();
        let mut ticks = 0usize;
        while mark < self.journal.len() {
            if self.undo_last() {
                ticks = ticks.saturating_add(1);
            }
        }
        ticks
    }
}
