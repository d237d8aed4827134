//! A function in the place of another.

ghost use Rattle.std.specs.Prelude.{◌≡◌, [], ◌∷◌, ◌++◌, OnOk, OnErr};
ghost use Rattle.undo_rewriter.specs.declared.step.Step.TheVariants.{Replaced as replaced};
ghost use Rattle.undo_rewriter.specs.Journal.{KeepsMarks};

use crate::held::Held;
use crate::last::put_last;
use crate::rewriter::Rewriter;
use crate::step::Step;
use ir_arena::Func;
use std::alloc::{AllocError, Global};
use std::mem;
use tree_model::NoMemory;

/// Puts a function in the place of another, which the last step then holds.
fn exchanged(
    func: &mut Func,
    journal: &mut Vec<Step>,
    alloc: Global,
    new: Func,
) -> Result<(), NoMemory>
    ensures func { OnOk result (func.new ≡ new) }
    ensures journal { OnOk result (journal.new.items ≡ journal.old.items ++ replaced func.old ∷ []) }
    ensures func_back { OnErr result (func.new ≡ func.old) }
    ensures journal_back { OnErr result (journal.new.items ≡ journal.old.items) }
{
    journal.push(Step::Begin)?;
    let old = mem::replace(func, new);
    match Held::new(alloc, old) {
        Ok(held) => {
            put_last(journal, Step::Replaced(held));
            Ok(())
        }
        Err(old) => {
            *func = old;
            journal.pop();
            Err(AllocError)
        }
    }
}

#[tactic(auto, using(crate::proofs::WriterLaws::writer_laws))]
impl Rewriter {
    /// Puts another function in the place of this one. The journal holds this one, so that it can be put back.
    pub fn replace_func(&mut self, new: Func) -> Result<(), NoMemory>
        ensures nodes { OnOk result (self.new.now ≡ new.flat) }
        ensures kept { KeepsMarks self.old self.new }
        ensures err { OnErr result (self.new ≡ self.old) }
    {
        self.func.closed();
        exchanged(&mut self.func, &mut self.journal, self.alloc, new)?;
        Ok(())
    }
}
