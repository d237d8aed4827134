//! The calls of a table.
#![tactic(auto, using(crate::proofs::ForestLaws::forest_laws))]

ghost use Rattle.std.specs.Prelude.{◌≡◌, ℕ, None, Some, ◌<◌, ◌==◌, false, length, IfSome, OnOk};
ghost use Rattle.conversion_model.specs.Uses.{replaced};
ghost use Rattle.stand_ins.specs.Forests.{IsForest, added, halved, parent_at, places_left};
ghost use Rattle.stand_ins.specs.Tables.{forest_of, stands_for};

use crate::table::StandIns;
use std::alloc::{AllocError, Global};
use std::collections::HashMap;
use tree_model::NoMemory;

impl StandIns {
    /// A table in which each value stands for itself.
    pub fn new(alloc: Global) -> StandIns
        ensures itself { stands_for result ≡ (λ v. v) }
        ensures forest { IsForest (forest_of result) }
    {
        StandIns {
            places: HashMap::new(alloc),
            parents: Vec::new(alloc),
        }
    }

    fn place(&self, value: u32) -> Option<u32>
        ensures { result ≡ (forest_of self.now).place value }
    {
        self.places.get(&value).copied()
    }

    fn parent(&self, place: u32) -> u32
        requires { place < length (forest_of self.now).parents }
        ensures { result ≡ parent_at (forest_of self.now) place }
    {
        self.parents[place as usize]
    }

    // What stands at a place is given up for one that stands further on.
    fn shorten(&mut self, value: u32, place: u32, next: u32) -> u32
        requires forest { IsForest (forest_of self.old) }
        requires place { (forest_of self.old).place value ≡ Some place }
        requires next { (forest_of self.old).place (parent_at (forest_of self.old) place) ≡ Some next }
        ensures result { result ≡ parent_at (forest_of self.old) next }
        ensures new { forest_of self.new ≡ halved (forest_of self.old) place next }
    {
        let further = self.parent(next);
        self.parents[place as usize] = further;
        further
    }

    // What stands for a value, further on than at its own place. The way from the value becomes shorter.
    fn further(&mut self, value: u32, place: u32, next: u32) -> u32
        requires forest { IsForest (forest_of self.old) }
        requires place { (forest_of self.old).place value ≡ Some place }
        requires next { (forest_of self.old).place (parent_at (forest_of self.old) place) ≡ Some next }
        ensures forest { IsForest (forest_of self.new) }
        ensures kept { stands_for self.new ≡ stands_for self.old }
        ensures same { stands_for self.old result ≡ stands_for self.old value }
        ensures nearer { places_left (forest_of self.new) result < places_left (forest_of self.old) value }
    {
        self.shorten(value, place, next)
    }

    // One step on the way from a value that was given up.
    fn step_from(&mut self, value: u32, place: u32) -> u32
        requires forest { IsForest (forest_of self.old) }
        requires place { (forest_of self.old).place value ≡ Some place }
        ensures forest { IsForest (forest_of self.new) }
        ensures kept { stands_for self.new ≡ stands_for self.old }
        ensures same { stands_for self.old result ≡ stands_for self.old value }
        ensures nearer { places_left (forest_of self.new) result < places_left (forest_of self.old) value }
    {
        let parent = self.parent(place);
        match self.place(parent) {
            None => parent,
            Some(next) => self.further(value, place, next),
        }
    }

    // One step on the way from a value to the one for which it stands.
    fn step(&mut self, value: u32) -> Option<u32>
        requires { IsForest (forest_of self.old) }
        ensures forest { IsForest (forest_of self.new) }
        ensures kept { stands_for self.new ≡ stands_for self.old }
        ensures end { result ≡ None → stands_for self.old value ≡ value }
        ensures same { IfSome result (λ v. stands_for self.old v ≡ stands_for self.old value) }
        ensures nearer { IfSome result (λ v. places_left (forest_of self.new) v < places_left (forest_of self.old) value) }
    {
        match self.place(value) {
            None => None,
            Some(place) => Some(self.step_from(value, place)),
        }
    }

    /// The value for which this one stands.
    pub fn number(&mut self, value: u32) -> u32
        requires { IsForest (forest_of self.old) }
        ensures forest { IsForest (forest_of self.new) }
        ensures kept { stands_for self.new ≡ stands_for self.old }
        ensures number { result ≡ stands_for self.old value }
    {
        let mut reached = value;
        'each: while let Some(next) = self.step(reached) {
            reached = next;
        }
        reached
    }

    /// The same, where the ways stay as they are.
    pub fn at(&self, value: u32) -> u32
        requires { IsForest (forest_of self.now) }
        ensures { result ≡ stands_for self.now value }
    {
        let mut reached = value;
        'each: while let Some(place) = self.place(reached) {
            reached = self.parent(place);
        }
        reached
    }

    fn add(&mut self, from: u32, to: u32) -> Result<(), NoMemory>
        ensures { OnOk result (forest_of self.new ≡ added (forest_of self.old) from to) }
    {
        let Ok(place) = u32::try_from(self.parents.len()) else {
            return Err(AllocError);
        };
        self.parents.push(to)?;
        self.places.insert(from, place)?;
        Ok(())
    }

    // A value that stands for itself is given up for another one that does.
    fn give_up(&mut self, from: u32, to: u32) -> Result<(), NoMemory>
        requires forest { IsForest (forest_of self.old) }
        requires from { stands_for self.old from ≡ from }
        requires to { stands_for self.old to ≡ to }
        requires other { (from == to) ≡ false }
        ensures forest { OnOk result (IsForest (forest_of self.new)) }
        ensures replaced { OnOk result ((v : ℕ) → stands_for self.new v ≡ replaced from to (stands_for self.old v)) }
    {
        self.add(from, to)?;
        Ok(())
    }

    // A value is given up for one that stands for itself.
    fn replace_by(&mut self, from: u32, to: u32) -> Result<(), NoMemory>
        requires forest { IsForest (forest_of self.old) }
        requires to { stands_for self.old to ≡ to }
        ensures forest { OnOk result (IsForest (forest_of self.new)) }
        ensures replaced { OnOk result ((v : ℕ) → stands_for self.new v ≡ replaced from to (stands_for self.old v)) }
    {
        if from == to {
            return Ok(());
        }
        match self.place(from) {
            None => self.give_up(from, to),
            Some(_) => Ok(()),
        }
    }

    /// A value is given up for the one for which another one stands.
    pub fn replace(&mut self, from: u32, to: u32) -> Result<(), NoMemory>
        requires { IsForest (forest_of self.old) }
        ensures forest { OnOk result (IsForest (forest_of self.new)) }
        ensures replaced { OnOk result ((v : ℕ) → stands_for self.new v ≡ replaced from (stands_for self.old to) (stands_for self.old v)) }
    {
        let to = self.number(to);
        self.replace_by(from, to)
    }
}
