//! Single numbers put in and taken out.

ghost use Rattle.std.specs.Prelude.{◌≡◌, ◌≤◌, ◌<◌, [], length, insert, remove, slice_index, OnOk, OnErr};

use crate::buffer::{grown, moved};
use crate::list::EditList;
use std::alloc::{AllocError, Global};

#[tactic(auto, using(crate::proofs::GapLaws::gap_laws))]
impl EditList {
    /// No numbers.
    pub fn new(alloc: Global) -> EditList
        ensures { result.list ≡ [] }
    {
        EditList {
            items: Vec::new(alloc),
            start: 0,
            end: 0,
        }
    }

    /// The numbers of a vector, which is not copied.
    pub fn from_vec(items: Vec<u32>) -> EditList
        ensures { result.list ≡ items.items }
    {
        let count = items.len();
        EditList {
            items,
            start: count,
            end: count,
        }
    }

    /// Puts a number before the one at a place, or at the end.
    pub fn insert(&mut self, at: usize, number: u32) -> Result<(), AllocError>
        requires { at ≤ length self.old.list }
        ensures ok { OnOk result (self.new.list ≡ insert self.old.list at number) }
        ensures room { self.old.room ≤ self.new.room }
        ensures err { OnErr result (self.new ≡ self.old) }
    {
        self.make_room()?;
        self.put_back(at, number);
        Ok(())
    }

    fn make_room(&mut self) -> Result<(), AllocError>
        ensures list { self.new.list ≡ self.old.list }
        ensures room { self.old.room ≤ self.new.room }
        ensures free { OnOk result (length self.new.list < self.new.room) }
        ensures err { OnErr result (self.new ≡ self.old) }
    {
        if self.start == self.end {
            self.start = grown(&mut self.items)?;
            self.end = self.items.len();
        }
        Ok(())
    }

    /// Puts a number before the one at a place, or at the end, where there is room. This can't fail.
    pub fn put_back(&mut self, at: usize, number: u32)
        requires at { at ≤ length self.old.list }
        requires room { length self.old.list < self.old.room }
        ensures list { self.new.list ≡ insert self.old.list at number }
        ensures room { self.new.room ≡ self.old.room }
    {
        self.end = moved(self.items.as_mut_slice(), self.start, self.end, at);
        self.start = at + 1;
        self.items[at] = number;
    }

    /// Takes out the number at a place, and gives it.
    pub fn remove(&mut self, at: usize) -> u32
        requires { at < length self.old.list }
        ensures number { result ≡ slice_index self.old.list at }
        ensures list { self.new.list ≡ remove self.old.list at }
        ensures room { self.new.room ≡ self.old.room }
        ensures free { length self.old.list ≤ self.new.room }
    {
        let end = moved(self.items.as_mut_slice(), self.start, self.end, at);
        let number = self.items[end];
        self.start = at;
        self.end = end + 1;
        number
    }
}
