//! The numbers of a tree in order, each with its place.

ghost use Rattle.std.specs.Prelude.{◌≡◌, length, IfSome, IfOk};
ghost use Rattle.std.specs.List.{AllZip};
ghost use Rattle.flat_model.specs.Flat.{AllBelow};
ghost use Rattle.ir_arena.specs.Building.{Names};

use sqlite_items::Items;
use std::alloc::{AllocError, Global};
use std::collections::HashMap;
use tree_model::{IdList, NoMemory};

/// Numbers in order, and the place of each.
#[derive(Drop)]
pub struct Numbering {
    pub numbers: Vec<u32>,
    pub places: HashMap<u32, u32>,
}

/// The values of a tree and the labels of its blocks, in the order in which the arena gets them.
#[derive(Drop)]
pub struct Numbers {
    pub values: Numbering,
    pub labels: Numbering,
}

impl Numbering {
    /// The numbers in this order. Where one stands twice, its last place is kept.
    pub fn of(alloc: Global, numbers: Vec<u32>) -> Result<Numbering, NoMemory> {
        let mut places = HashMap::new(alloc);
        for (place, number) in numbers.iter().enumerate() {
            let Ok(place) = u32::try_from(place) else {
                return Err(AllocError);
            };
            places.insert(*number, place)?;
        }
        Ok(Numbering { numbers, places })
    }

    /// The place of a number.
    pub fn place(&self, number: u32) -> Option<u32>
        ensures { IfSome result (λ place. Names self.now place number) }
    {
        let place = *self.places.get(&number)?;
        if self.numbers.get(place as usize) == Some(&number) {
            Some(place)
        } else {
            None
        }
    }

    /// The places of numbers. Where one is missing the answer is want of memory.
    #[tactic(auto, using(crate::proofs::NumberLaws::number_laws))]
    pub fn places(&self, alloc: Global, numbers: &[u32]) -> Result<IdList, NoMemory>
        ensures places { IfOk result (λ places. AllZip (Names self.now) places numbers.now) }
        ensures inside { IfOk result (λ places. AllBelow (length self.now.numbers.items) places) }
    {
        let mut places = Items::new(alloc);
        for number in numbers {
            let Some(place) = self.place(*number) else {
                return Err(AllocError);
            };
            places.push(place)?;
        }
        Ok(places)
    }
}
