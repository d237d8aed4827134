//! A place in a region.

ghost use Rattle.std.specs.Prelude.{◌≡◌, ◌↔◌, IfOk, OnOk, get_or, true};
ghost use Rattle.use_paths.specs.Levels.{Missing, is_behind, is_behind_end, left_out, spot_at};
ghost use Rattle.use_paths.specs.Views.{IsRight, spot_in};

use crate::homes::Home;
use crate::region::Region;
use std::alloc::Global;
use tree_model::NoMemory;

/// A place in a region: the block, and how many of its operations are left.
#[derive(Drop)]
pub struct Level {
    pub region: Region,
    pub block: usize,
    pub left: usize,
}

fn end_at(ends: &[usize], block: usize) -> usize
    ensures { result ≡ get_or ends.now block 0 }
{
    match ends.get(block) {
        Some(left) => *left,
        None => 0,
    }
}

impl Level {
    /// Where the region defines a value.
    pub fn home(&self, value: u32) -> Option<Home>
        ensures { result ≡ (spot_in self.now).known.homes value }
    {
        self.region.homes.get(&value).copied()
    }

    /// The start of the block with this label.
    pub fn at_block(self, label: u32) -> Level
        ensures spot { spot_in result ≡ spot_at (spot_in self).known ((spot_in self).known.places label) self.left }
        ensures right { IsRight self → IsRight result }
    {
        let block = self.region.place_of(label);
        Level {
            region: self.region,
            block,
            left: self.left,
        }
    }

    pub fn with_left(self, left: usize) -> Level
        ensures spot { spot_in result ≡ spot_at (spot_in self).known self.block left }
        ensures right { IsRight self → IsRight result }
    {
        Level {
            region: self.region,
            block: self.block,
            left,
        }
    }

    fn is_behind_end(&self) -> bool
        ensures { result ≡ is_behind_end (spot_in self.now) }
    {
        self.left < end_at(self.region.ends.as_slice(), self.block)
    }

    fn is_behind(&self, home: Home) -> bool
        ensures { result ≡ is_behind home (spot_in self.now) }
    {
        home.block == self.block && self.left <= home.left
    }

    /// The block that no path without the value goes on from: none, where the value is defined behind the block's first terminator.
    fn left_out(&self, home: Home) -> usize
        ensures { result ≡ left_out (spot_in self.now).known home }
    {
        if home.left < end_at(self.region.ends.as_slice(), home.block) {
            self.region.searches.edges.len()
        } else {
            home.block
        }
    }

    /// Whether a path comes here without the value that is defined at its home.
    pub fn is_missing(&mut self, alloc: Global, home: Home) -> Result<bool, NoMemory>
        requires { IsRight self.old }
        ensures kept { OnOk result (spot_in self.new ≡ spot_in self.old) }
        ensures right { OnOk result (IsRight self.new) }
        ensures exact { IfOk result (λ b. (b ≡ true) ↔ Missing (spot_in self.old) home) }
    {
        if self.is_behind_end() || self.is_behind(home) {
            return Ok(false);
        }
        let left_out = self.left_out(home);
        let missing = self.region.searches.reaches(alloc, left_out, self.block)?;
        Ok(missing)
    }
}
