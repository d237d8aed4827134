//! The calls of the table.

ghost use Rattle.std.specs.Prelude.{◌≡◌, ◌+◌, IfOk, OnOk};
ghost use Rattle.plain_tree.specs.Ops.{plain_op};
ghost use Rattle.conversion_model.specs.Fresh.{Fresh, new_value};
ghost use Rattle.new_numbers.specs.Tables.{Extends, Numbering, numbering_of, place_of, supply_of};

use crate::place::ValuePlace;
use crate::table::NewNumbers;
use crate::tops::Tops;
use crate::walk::see_op;
use indexmap::IndexSet;
use std::alloc::{AllocError, Global};
use tree_model::{NoMemory, OpTree};

/// The number so far behind a base, where 32 bits hold it.
fn number_behind(base: u64, index: usize) -> Result<u32, NoMemory>
    ensures { IfOk result (λ n. n ≡ base + index) }
{
    let Some(number) = base.checked_add(index as u64) else {
        return Err(AllocError);
    };
    match u32::try_from(number) {
        Ok(number) => Ok(number),
        Err(_) => Err(AllocError),
    }
}

impl NewNumbers {
    /// A table for new numbers in a function: what any table that extends it gives is fresh there.
    pub fn of(alloc: Global, function: &OpTree) -> NewNumbers
        ensures { (u : Numbering) → Extends (numbering_of result) u → Fresh (supply_of u) (plain_op function.now) }
    {
        let mut tops = Tops {
            values: 0,
            labels: 0,
        };
        see_op(&mut tops, function);
        NewNumbers {
            base: tops.values,
            values: IndexSet::new(alloc),
            label_base: tops.labels,
            labels: IndexSet::new(alloc),
        }
    }

    /// The number of the new value for a place. Each table that extends this one says the same.
    pub fn value(&mut self, place: ValuePlace) -> Result<u32, NoMemory>
        ensures extends { OnOk result (Extends (numbering_of self.old) (numbering_of self.new)) }
        ensures number { IfOk result (λ n. (u : Numbering) → Extends (numbering_of self.new) u → new_value (supply_of u) (place_of place) ≡ n) }
    {
        match self.values.insert_full(place) {
            Ok((at, _)) => Ok(number_behind(self.base, at)?),
            Err(_) => Err(AllocError),
        }
    }

    /// The new label for a place of the row of a source operation, by the operation's number and the label's place.
    pub fn label(&mut self, number: u32, index: u32) -> Result<u32, NoMemory>
        ensures extends { OnOk result (Extends (numbering_of self.old) (numbering_of self.new)) }
        ensures label { IfOk result (λ l. (u : Numbering) → Extends (numbering_of self.new) u → ((supply_of u).row number).label index ≡ l) }
    {
        match self.labels.insert_full(ValuePlace::OfRow(number, index)) {
            Ok((at, _)) => Ok(number_behind(self.label_base, at)?),
            Err(_) => Err(AllocError),
        }
    }
}
