//! Which casts undo each other, found in one pass.
#![tactic(auto)]

ghost use Rattle.std.specs.Prelude.{◌≡◌, IfOk, OnOk, [], None, Some};
ghost use Rattle.plain_tree.specs.Types.{plain_type, Void};
ghost use Rattle.stand_ins.specs.Forests.{IsForest};
ghost use Rattle.stand_ins.specs.Tables.{forest_of, stands_for};
ghost use Rattle.value_types.specs.Views.{type_at};
ghost use Rattle.tree_reconcile.specs.Plans as model;
ghost use Rattle.tree_reconcile.specs.Views.{plan_at, single_at, singles_at};

use crate::singles::SingleCast;
use stand_ins::StandIns;
use std::alloc::Global;
use std::collections::{HashMap, HashSet};
use tree_model::{NoMemory, TypeTree};
use value_types::{ValueTypes, same};

/// What is known of the casts so far: what each value stands for, which results were given up, and of each result of a
/// cast that stays the operand.
#[derive(Drop)]
pub struct PlanTable {
    pub to: StandIns,
    pub gone: HashSet<u32>,
    pub kept: HashMap<u32, u32>,
}

impl PlanTable {
    fn new(alloc: Global) -> PlanTable
        ensures forest { IsForest (forest_of result.to) }
        ensures start { plan_at result ≡ model.at_start }
    {
        PlanTable {
            to: StandIns::new(alloc),
            gone: HashSet::new(alloc),
            kept: HashMap::new(alloc),
        }
    }

    // The value for which this one stands.
    fn number(&mut self, value: u32) -> u32
        requires { IsForest (forest_of self.old.to) }
        ensures forest { IsForest (forest_of self.new.to) }
        ensures same { plan_at self.new ≡ plan_at self.old }
        ensures number { result ≡ (plan_at self.old).to value }
    {
        self.to.number(value)
    }

    // The operand of the cast whose result is that value, if this cast undoes that one.
    fn undone_by<'a>(
        &mut self,
        types: &ValueTypes<'a>,
        void: &'a TypeTree,
        cast: &SingleCast,
        value: u32,
    ) -> Option<u32>
        requires forest { IsForest (forest_of self.old.to) }
        requires void { plain_type void.now ≡ Void }
        ensures forest { IsForest (forest_of self.new.to) }
        ensures same { plan_at self.new ≡ plan_at self.old }
        ensures operand { result ≡ model.undone_by (type_at types.now) (plan_at self.old) (single_at cast.now) ((plan_at self.old).kept value) }
    {
        let operand = self.kept.get(&value).copied()?;
        let stands = self.number(operand);
        if same(types.type_of(stands, void), cast.to) && stands != cast.result {
            return Some(operand);
        }
        None
    }

    fn keep(&mut self, cast: &SingleCast) -> Result<(), NoMemory>
        requires { IsForest (forest_of self.old.to) }
        ensures forest { OnOk result (IsForest (forest_of self.new.to)) }
        ensures plan { OnOk result (plan_at self.new ≡ model.planned (plan_at self.old) (single_at cast.now) None) }
    {
        self.kept.insert(cast.result, cast.operand)?;
        Ok(())
    }

    fn give_up(&mut self, cast: &SingleCast, operand: u32) -> Result<(), NoMemory>
        requires { IsForest (forest_of self.old.to) }
        ensures forest { OnOk result (IsForest (forest_of self.new.to)) }
        ensures plan { OnOk result (plan_at self.new ≡ model.planned (plan_at self.old) (single_at cast.now) (Some operand)) }
    {
        self.gone.insert(cast.result)?;
        self.to.replace(cast.result, operand)?;
        Ok(())
    }

    fn with_cast<'a>(
        &mut self,
        types: &ValueTypes<'a>,
        void: &'a TypeTree,
        cast: &SingleCast,
    ) -> Result<(), NoMemory>
        requires forest { IsForest (forest_of self.old.to) }
        requires void { plain_type void.now ≡ Void }
        ensures forest { OnOk result (IsForest (forest_of self.new.to)) }
        ensures plan { OnOk result (plan_at self.new ≡ model.with_cast (type_at types.now) (plan_at self.old) (single_at cast.now)) }
    {
        let value = self.number(cast.operand);
        match self.undone_by(types, void, cast, value) {
            None => {
                self.keep(cast)?;
                Ok(())
            }
            Some(operand) => {
                self.give_up(cast, operand)?;
                Ok(())
            }
        }
    }
}

/// What is known of all casts, from the first to the last.
pub(crate) fn plan_of<'a>(
    alloc: Global,
    types: &ValueTypes<'a>,
    void: &'a TypeTree,
    casts: &[SingleCast],
) -> Result<PlanTable, NoMemory>
    requires { plain_type void.now ≡ Void }
    ensures forest { IfOk result (λ p. IsForest (forest_of p.to)) }
    ensures plan { IfOk result (λ p. plan_at p ≡ model.with_casts (type_at types.now) model.at_start (singles_at casts.now)) }
{
    let mut plan = PlanTable::new(alloc);
    for cast in casts {
        plan.with_cast(types, void, cast)?;
    }
    Ok(plan)
}
