//! Lists cut in two, and joined again.

ghost use Rattle.std.specs.Prelude.{◌≡◌, ◌+◌, ◌≤◌, ◌<◌, ◌++◌, length, take, drop, IfOk, OnOk, OnErr};

use crate::buffer::moved;
use crate::list::EditList;
use std::alloc::{AllocError, Global};

#[tactic(auto, using(crate::proofs::GapLaws::gap_laws))]
impl EditList {
    /// Cuts the list at a place: what stands from there on goes to a new list.
    pub fn split_off(&mut self, alloc: Global, at: usize) -> Result<EditList, AllocError>
        requires { at ≤ length self.old.list }
        ensures back { IfOk result (λ back. back.list ≡ drop at self.old.list) }
        ensures front { OnOk result (self.new.list ≡ take at self.old.list) }
        ensures room { self.new.room ≡ self.old.room }
        ensures err { OnErr result (self.new ≡ self.old) }
    {
        self.end = moved(self.items.as_mut_slice(), self.start, self.end, at);
        self.start = at;
        let back = Vec::from_slice(alloc, &self.items[self.end..])?;
        self.end = self.items.len();
        Ok(EditList::from_vec(back))
    }

    /// Cuts the list at a place: what stands before it goes to a new list.
    pub fn split_front(&mut self, alloc: Global, at: usize) -> Result<EditList, AllocError>
        requires { at ≤ length self.old.list }
        ensures front { IfOk result (λ front. front.list ≡ take at self.old.list) }
        ensures back { OnOk result (self.new.list ≡ drop at self.old.list) }
        ensures room { self.new.room ≡ self.old.room }
        ensures err { OnErr result (self.new ≡ self.old) }
    {
        self.end = moved(self.items.as_mut_slice(), self.start, self.end, at);
        self.start = at;
        let front = Vec::from_slice(alloc, &self.items[..self.start])?;
        self.start = 0;
        Ok(EditList::from_vec(front))
    }

    /// Puts the numbers of another list behind these, where there is room. This can't fail.
    pub fn join_back(&mut self, more: &EditList)
        requires { length self.old.list + length more.now.list ≤ self.old.room }
        ensures list { self.new.list ≡ self.old.list ++ more.now.list }
        ensures room { self.new.room ≡ self.old.room }
    {
        for place in 0..more.len() {
            let end = self.len();
            self.put_back(end, more.at(place));
        }
    }

    /// Puts the numbers of another list before these, where there is room. This can't fail.
    pub fn join_front(&mut self, more: &EditList)
        requires { length self.old.list + length more.now.list ≤ self.old.room }
        ensures list { self.new.list ≡ more.now.list ++ self.old.list }
        ensures room { self.new.room ≡ self.old.room }
    {
        for place in 0..more.len() {
            self.put_back(place, more.at(place));
        }
    }
}
