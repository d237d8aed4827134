//! The last step taken back.

ghost use Rattle.std.specs.Prelude.{◌≡◌, ℕ, ◌+◌, ◌-◌, ◌<◌, length, take, drop, if◌then◌else◌};
ghost use Rattle.undo_rewriter.specs.Journal.{at_mark, edits};

use crate::cuts::join_again;
use crate::listing::unlist_blocks;
use crate::rewriter::Rewriter;
use crate::step::Step;

impl Rewriter {
    /// Takes the last step back, and says whether an edit began with it.
    pub(crate) fn undo_last(&mut self) -> bool
        requires { 0 < length self.old.journal }
        ensures journal { self.new.journal ≡ take (length self.old.journal - 1) self.old.journal }
        ensures marks { (mark : ℕ) → mark < length self.old.journal → at_mark self.new.journal self.new.now mark ≡ at_mark self.old.journal self.old.now mark }
        ensures edits { (mark : ℕ) → mark < length self.old.journal → edits (drop mark self.old.journal) ≡ edits (drop mark self.new.journal) + (if result then 1 else 0) }
    {
        match self.journal.pop() {
            None => false,
            Some(Step::Begin) => true,
            Some(Step::OpAdded(values)) => {
                self.func.drop_op(values as usize);
                false
            }
            Some(Step::OpListed(block, at)) => {
                self.func.unlist_op(block, at as usize);
                false
            }
            Some(Step::OpUnlisted(block, at, op)) => {
                self.func.relist_op(block, at as usize, op);
                false
            }
            Some(Step::OperandSet(op, at, value)) => {
                self.func.set_operand(op, at as usize, value);
                false
            }
            Some(Step::ValueAdded(values)) => {
                self.func.drop_values(values as usize);
                false
            }
            Some(Step::BlockAdded(count)) => {
                self.func.drop_blocks(count as usize);
                false
            }
            Some(Step::ArgsSet(block, args)) => {
                self.func.exchange_args(block, args.into_inner());
                false
            }
            Some(Step::BlocksSet(region, held)) => {
                self.func.exchange_blocks(region, held.into_inner());
                false
            }
            Some(Step::NodeSet(op, held)) => {
                self.func.exchange_node(op, held.into_inner());
                false
            }
            Some(Step::BlockCut(block, end)) => {
                join_again(&mut self.func, self.alloc, block, end);
                false
            }
            Some(Step::BlocksListed(region, at, count)) => {
                unlist_blocks(
                    &mut self.func,
                    self.alloc,
                    region,
                    at as usize,
                    count as usize,
                );
                false
            }
            Some(Step::Replaced(held)) => {
                self.func = held.into_inner();
                true
            }
        }
    }
}
