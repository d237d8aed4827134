//! The rewriter: a function, and the steps since it was taken over.

use crate::step::Step;
use ir_arena::Func;
use std::alloc::Global;
use std::marker::Model;

/// A function that is edited. What was done to it since it was taken over is kept, so that it can be taken back.
#[derive(Drop)]
pub struct Rewriter {
    pub(crate) alloc: Global,
    pub(crate) func: Func,
    pub(crate) journal: Vec<Step>,
}

impl Model for Rewriter {
    ghost use Rattle.undo_rewriter.specs.Journal.{Edited, IsSound};

    ghost Value = { Edited };

    ghost view = { λ w. record { now = w.func.flat; rooms = w.func.rooms; journal = w.journal.items } };

    ghost invariant = { λ w. IsSound w.func.rooms w.journal.items w.func.flat };
}

/// How long the journal was.
pub type Mark = usize;
