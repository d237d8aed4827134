//! Which operations are left out.
#![tactic(auto)]

use crate::lines::is_cast;
use crate::plan::PlanTable;
use crate::singles::{both, single_in};
use crate::used::any_used;
use std::collections::HashSet;
use tree_model::OpTree;
use tree_uses::Omits;

/// Casts whose one result is this number.
#[derive(Drop)]
pub struct OneResult {
    pub number: u32,
}

/// Casts none of whose results is among these values.
#[derive(Drop)]
pub struct UsedValues {
    pub values: HashSet<u32>,
}

// Casts whose one result was given up.
impl Omits for PlanTable {
    ghost use Rattle.tree_reconcile.specs.Lines.{line_of};
    ghost use Rattle.tree_reconcile.specs.Plans.{is_gone};
    ghost use Rattle.tree_reconcile.specs.Views.{plan_at};

    ghost test = { λ p o. is_gone (plan_at p).gone (line_of o) };

    fn omits(&self, op: &OpTree) -> bool {
        match single_in(op) {
            None => false,
            Some(cast) => self.gone.contains(&cast.result),
        }
    }
}

impl Omits for OneResult {
    ghost use Rattle.std.specs.Prelude.{◌==◌};
    ghost use Rattle.tree_reconcile.specs.Lines.{line_of};
    ghost use Rattle.tree_reconcile.specs.Plans.{is_gone};

    ghost test = { λ p o. is_gone (λ n. n == p.number) (line_of o) };

    fn omits(&self, op: &OpTree) -> bool {
        match single_in(op) {
            None => false,
            Some(cast) => cast.result == self.number,
        }
    }
}

impl Omits for UsedValues {
    ghost use Rattle.tree_reconcile.specs.Lines.{is_unused, line_of};
    ghost use Rattle.tree_reconcile.specs.Views.{holds};

    ghost test = { λ u o. is_unused (holds u.values) (line_of o) };

    fn omits(&self, op: &OpTree) -> bool {
        both(is_cast(op), !any_used(&self.values, op))
    }
}
