//! What is read of a list.

ghost use Rattle.std.specs.Prelude.{◌≡◌, ◌≢◌, ℕ, ◌+◌, ◌≤◌, ◌<◌, ◌++◌, ◌↔◌, [], length, slice_index, IsTrue, IfSome, IfNone, IfOk};

use crate::list::EditList;
use std::alloc::{AllocError, Global};

#[tactic(auto, using(crate::proofs::GapLaws::gap_laws))]
impl EditList {
    /// How many numbers there are.
    pub fn len(&self) -> usize
        ensures len { result ≡ length self.now.list }
        ensures room { result ≤ self.now.room }
    {
        self.items.len() - (self.end - self.start)
    }

    /// Whether there is no number.
    pub fn is_empty(&self) -> bool
        ensures { IsTrue result ↔ (length self.now.list ≡ 0) }
    {
        self.len() == 0
    }

    /// The number at a place.
    pub fn at(&self, place: usize) -> u32
        requires { place < length self.now.list }
        ensures { result ≡ slice_index self.now.list place }
    {
        if place < self.start {
            self.items[place]
        } else {
            self.items[place - self.start + self.end]
        }
    }

    /// The numbers, in two slices: those of the second follow those of the first.
    pub fn parts(&self) -> (&[u32], &[u32])
        ensures { result.0.now ++ result.1.now ≡ self.now.list }
    {
        (&self.items[..self.start], &self.items[self.end..])
    }

    /// A place of a number. The search goes outward from the place of the last edit.
    pub fn find(&self, number: u32) -> Option<usize>
        ensures found { IfSome result (λ place. (place < length self.now.list) × (slice_index self.now.list place ≡ number)) }
        ensures absent { IfNone result ((place : ℕ) → place < length self.now.list → slice_index self.now.list place ≢ number) }
    {
        find_from(self, self.start, number)
    }

    /// The numbers in a vector of their own.
    pub fn to_vec(&self, alloc: Global) -> Result<Vec<u32>, AllocError>
        ensures { IfOk result (λ numbers. numbers.items ≡ self.now.list) }
    {
        let (front, back) = self.parts();
        let mut numbers = Vec::with_capacity(alloc, self.len())?;
        numbers.extend_from_slice(front)?;
        numbers.extend_from_slice(back)?;
        Ok(numbers)
    }
}

/// Whether a number stands at a place, which may be none of the list's.
fn stands_at(list: &EditList, place: usize, number: u32) -> bool
    ensures { IsTrue result ↔ ((place < length list.now.list) × (slice_index list.now.list place ≡ number)) }
{
    if place < list.len() {
        list.at(place) == number
    } else {
        false
    }
}

/// A place of a number, by a search outward from a place.
fn find_from(list: &EditList, from: usize, number: u32) -> Option<usize>
    requires { from ≤ length list.now.list }
    ensures found { IfSome result (λ place. (place < length list.now.list) × (slice_index list.now.list place ≡ number)) }
    ensures absent { IfNone result ((place : ℕ) → place < length list.now.list → slice_index list.now.list place ≢ number) }
{
    for step in 0..list.len() {
        if stands_at(list, from.saturating_add(step), number) {
            return Some(from.saturating_add(step));
        }
        if step < from && stands_at(list, from - 1 - step, number) {
            return Some(from - 1 - step);
        }
    }
    None
}
