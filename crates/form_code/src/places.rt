//! The places of functions in their list, by name.

use std::alloc::Global;
use std::collections::HashMap;
use tree_model::NoMemory;

/// Where the function of each name is thought to stand. What a run does is the same wherever it is thought to stand.
#[derive(Drop)]
pub struct Places<'a> {
    by_name: HashMap<&'a [u8], u32>,
}

impl<'a> Places<'a> {
    /// No names.
    pub fn new(alloc: Global) -> Places<'a> {
        Places {
            by_name: HashMap::new(alloc),
        }
    }

    /// Notes the place of a name, where it has none yet.
    pub fn note(&mut self, name: &'a [u8], place: u32) -> Result<(), NoMemory> {
        if !self.by_name.contains_key(&name) {
            self.by_name.insert(name, place)?;
        }
        Ok(())
    }

    /// The place of a name, 0 where it has none.
    pub fn place_of(&self, name: &[u8]) -> u32 {
        match self.by_name.get(name) {
            Some(place) => *place,
            None => 0,
        }
    }
}
