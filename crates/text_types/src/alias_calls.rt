//! The calls of the numbers of aliases.

ghost use Rattle.std.specs.Prelude.{◌≡◌, ◌==◌, ℕ, OnOk, if◌then◌else◌};
ghost use Rattle.text_types.specs.Stack.{number_of};

use crate::alias_numbers::AliasNumbers;
use std::alloc::{AllocError, Global};
use std::collections::HashMap;

impl AliasNumbers {
    /// No alias.
    pub fn new(alloc: Global) -> AliasNumbers
        ensures { (name : ℕ) → number_of result name ≡ 0 }
    {
        AliasNumbers {
            numbers: HashMap::new(alloc),
        }
    }

    /// The number of an alias, 0 for none.
    pub fn of(&self, name: u32) -> u32
        ensures { result ≡ number_of self.now name }
    {
        self.numbers.get(&name).copied().unwrap_or(0)
    }

    /// The alias has this number from now on.
    pub fn bind(&mut self, name: u32, number: u32) -> Result<(), AllocError>
        ensures { OnOk result ((other : ℕ) → number_of self.new other ≡ (if other == name then number else number_of self.old other)) }
    {
        self.numbers.insert(name, number)?;
        Ok(())
    }
}
