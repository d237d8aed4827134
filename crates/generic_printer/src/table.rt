//! The table of a function: the names and the types of its values, and the positions of its blocks.

ghost use Rattle.std.specs.Prelude.{◌≡◌, ◌+◌, IfOk, OnOk, map, option_map};
ghost use Rattle.text_model.specs.PrintedPlaces.{argument_at, single_at, group_at, successor_at, block_at, result_places, argument_places};
ghost use Rattle.generic_printer.specs.Counters.{at_start, with_name, with_parts, with_place, with_places};
ghost use Rattle.generic_printer.specs.NamesIn.{names_in, counters_in};

use std::alloc::{AllocError, Global};
use std::collections::{HashMap, HashSet};
use text_model::ValueName;
use tree_model::{NoMemory, TypeTree};

/// A value's name with its type, which stays in the tree.
#[derive(Clone, Copy)]
pub struct Named<'a> {
    pub name: ValueName,
    pub of: &'a TypeTree,
}

/// What the text of a function looks up: made in one pass, so that a look-up takes no scan.
#[derive(Drop)]
pub struct Table<'a> {
    pub next_argument: u64,
    pub next_other: u64,
    pub values: HashMap<u32, Named<'a>>,
    pub positions: HashMap<u32, u64>,
    pub targets: HashSet<u32>,
}

/// The number behind `n`. A count of 2^64 things that are in memory cannot be.
pub fn next(n: u64) -> Result<u64, NoMemory>
    ensures { IfOk result (λ m. m ≡ n + 1) }
{
    if n == u64::MAX {
        return Err(AllocError);
    }
    Ok(n + 1)
}

impl<'a> Table<'a> {
    pub fn new(alloc: Global) -> Table<'a>
        ensures { counters_in result ≡ at_start }
    {
        Table {
            next_argument: 0,
            next_other: 0,
            values: HashMap::new(alloc),
            positions: HashMap::new(alloc),
            targets: HashSet::new(alloc),
        }
    }

    /// The name of a value, where the function defines it.
    pub fn name_of(&self, value: u32) -> Option<ValueName>
        ensures { result ≡ (names_in self.now).name value }
    {
        match self.values.get(&value) {
            Some(named) => Some(named.name),
            None => None,
        }
    }

    fn name(&mut self, value: &'a (u32, TypeTree), name: ValueName) -> Result<(), NoMemory>
        ensures names { OnOk result (names_in self.new ≡ with_name (names_in self.old) value.now name) }
        ensures first { OnOk result (self.new.next_argument ≡ self.old.next_argument) }
        ensures second { OnOk result (self.new.next_other ≡ self.old.next_other) }
    {
        if self.values.contains_key(&value.0) {
            return Ok(());
        }
        let named = Named { name, of: &value.1 };
        self.values.insert(value.0, named)?;
        Ok(())
    }

    fn name_argument(&mut self, value: &'a (u32, TypeTree)) -> Result<(), NoMemory>
        ensures { OnOk result (counters_in self.new
            ≡ with_place (counters_in self.old) (argument_at value.now)) }
    {
        self.name(value, ValueName::Argument(self.next_argument))?;
        self.next_argument = next(self.next_argument)?;
        Ok(())
    }

    fn name_single(&mut self, value: &'a (u32, TypeTree)) -> Result<(), NoMemory>
        ensures { OnOk result (counters_in self.new
            ≡ with_place (counters_in self.old) (single_at value.now)) }
    {
        self.name(value, ValueName::Single(self.next_other))?;
        self.next_other = next(self.next_other)?;
        Ok(())
    }

    fn name_arguments(&mut self, values: &'a [(u32, TypeTree)]) -> Result<(), NoMemory>
        ensures { OnOk result (counters_in self.new
            ≡ with_places (counters_in self.old) (map argument_at values.now)) }
    {
        for value in values {
            self.name_argument(value)?;
        }
        Ok(())
    }

    fn name_singles(&mut self, values: &'a [(u32, TypeTree)]) -> Result<(), NoMemory>
        ensures { OnOk result (counters_in self.new
            ≡ with_places (counters_in self.old) (map single_at values.now)) }
    {
        for value in values {
            self.name_single(value)?;
        }
        Ok(())
    }

    fn name_group(&mut self, values: &'a [(u32, TypeTree)]) -> Result<(), NoMemory>
        ensures { OnOk result (counters_in self.new
            ≡ with_place (counters_in self.old) (group_at values.now)) }
    {
        let mut k = 0;
        for value in values {
            self.name(value, ValueName::Part(self.next_other, k))?;
            k = next(k)?;
        }
        self.next_other = next(self.next_other)?;
        Ok(())
    }

    /// The results of an operation.
    pub fn name_results(&mut self, values: &'a [(u32, TypeTree)]) -> Result<(), NoMemory>
        ensures { OnOk result (counters_in self.new
            ≡ with_places (counters_in self.old) (result_places values.now)) }
    {
        match values {
            [] => Ok(()),
            [only] => self.name_single(only),
            _ => self.name_group(values),
        }
    }

    /// The successors of an operation.
    pub fn name_targets(&mut self, labels: &[u32]) -> Result<(), NoMemory>
        ensures { OnOk result (counters_in self.new
            ≡ with_places (counters_in self.old) (map successor_at labels.now)) }
    {
        for label in labels {
            self.name_target(*label)?;
        }
        Ok(())
    }

    fn name_target(&mut self, label: u32) -> Result<(), NoMemory>
        ensures { OnOk result (counters_in self.new
            ≡ with_place (counters_in self.old) (successor_at label)) }
    {
        self.targets.insert(label)?;
        Ok(())
    }

    /// The block at a position of its region, by its label.
    pub fn name_block(&mut self, position: u64, label: u32) -> Result<(), NoMemory>
        ensures { OnOk result (counters_in self.new
            ≡ with_place (counters_in self.old) (block_at position label)) }
    {
        if self.positions.contains_key(&label) {
            return Ok(());
        }
        self.positions.insert(label, position)?;
        Ok(())
    }

    /// The arguments of the block at a position of its region.
    pub fn name_block_arguments(
        &mut self,
        position: u64,
        values: &'a [(u32, TypeTree)],
    ) -> Result<(), NoMemory>
        ensures { OnOk result (counters_in self.new
            ≡ with_places (counters_in self.old) (argument_places position values.now)) }
    {
        if position == 0 {
            return self.name_arguments(values);
        }
        self.name_singles(values)
    }
}
