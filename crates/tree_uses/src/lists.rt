//! Lists that are taken apart and put together.
#![tactic(auto)]

ghost use Rattle.std.specs.Prelude.{◌≡◌, ◌<◌, IfOk, get_or, length, map, reverse};
ghost use Rattle.stand_ins.specs.Forests.{IsForest};
ghost use Rattle.stand_ins.specs.Tables.{forest_of, stands_for};

use sqlite_items::Items;
use stand_ins::StandIns;
use std::alloc::Global;
use tree_model::{IdList, NoMemory, room_for};

/// The items from the last to the first, in as much room as they need.
pub fn turned<T: Drop>(alloc: Global, items: Items<T>) -> Result<Items<T>, NoMemory>
    ensures { IfOk result (λ all. all ≡ reverse items) }
{
    let mut left = items;
    let mut all = room_for(alloc, left.len())?;
    'each: while let Some(item) = left.pop() {
        all.push(item)?;
    }
    Ok(all)
}

fn number_at(list: &IdList, index: usize) -> u32
    requires { index < length list.now }
    ensures { result ≡ get_or list.now index 0 }
{
    list.as_slice()[index]
}

/// The values for which these stand, in their places.
pub(crate) fn stand_ins_of(to: &StandIns, values: IdList) -> IdList
    requires { IsForest (forest_of to.now) }
    ensures { result ≡ map (stands_for to.now) values }
{
    let mut list = values;
    'each: for index in 0..list.len() {
        let value = number_at(&list, index);
        list.set(index, to.at(value));
    }
    list
}
