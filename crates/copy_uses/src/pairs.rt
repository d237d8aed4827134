//! What stands for each value, where copies are followed in order.

ghost use Rattle.std.specs.Prelude.{◌≡◌, IfOk};
ghost use Rattle.conversion_model.specs.Uses.{followed};
ghost use Rattle.stand_ins.specs.Forests.{IsForest};
ghost use Rattle.stand_ins.specs.Tables.{forest_of, stands_for};

use stand_ins::StandIns;
use std::alloc::Global;
use tree_model::NoMemory;

/// The first number of each pair in turn is given up for what its second one stands for.
pub(crate) fn table_of(alloc: Global, pairs: &[(u32, u32)]) -> Result<StandIns, NoMemory>
    ensures forest { IfOk result (λ t. IsForest (forest_of t)) }
    ensures followed { IfOk result (λ t. stands_for t ≡ followed pairs.now (λ v. v)) }
{
    let mut table = StandIns::new(alloc);
    'each: for pair in pairs {
        table.replace(pair.0, pair.1)?;
    }
    Ok(table)
}
