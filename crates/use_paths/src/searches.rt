//! Which blocks of a region are reached from its entry with one of them left out.

ghost use Rattle.std.specs.Prelude.{◌≡◌, ◌↔◌, IfOk, OnOk, IsSome, true, false, get_or, nat_eq};
ghost use Rattle.std.specs.HashMap.{get};
ghost use Rattle.block_search.specs.Reach.{rows};
ghost use Rattle.use_paths.specs.Marked.{AreRight, ReachedWithout};

use block_search::reached;
use std::alloc::Global;
use std::collections::HashMap;
use tree_model::NoMemory;

/// The graph of the blocks of a region, and what was found so far: the blocks that are reached, by the place of the block that is left
/// out.
#[derive(Drop)]
pub struct Searches {
    pub edges: Vec<Vec<usize>>,
    pub found: HashMap<usize, Vec<bool>>,
}

fn is_marked(marks: &[bool], block: usize) -> bool
    ensures { result ≡ get_or marks.now block false }
{
    match marks.get(block) {
        Some(mark) => *mark,
        None => false,
    }
}

impl Searches {
    pub fn new(alloc: Global, edges: Vec<Vec<usize>>) -> Searches
        ensures edges { result.edges ≡ edges }
        ensures right { AreRight (rows result.edges.items) result.found }
    {
        Searches {
            edges,
            found: HashMap::new(alloc),
        }
    }

    fn search(&mut self, alloc: Global, left_out: usize) -> Result<(), NoMemory>
        requires { AreRight (rows self.old.edges.items) self.old.found }
        ensures kept { self.new.edges ≡ self.old.edges }
        ensures right { OnOk result (AreRight (rows self.new.edges.items) self.new.found) }
        ensures there { OnOk result (IsSome (get nat_eq self.new.found left_out)) }
    {
        if self.found.contains_key(&left_out) {
            return Ok(());
        }
        let marks = reached(alloc, self.edges.as_slice(), &[0], left_out)?;
        self.found.insert(left_out, marks)?;
        Ok(())
    }

    /// Whether a block is reached from the first one with a block left out.
    pub fn reaches(
        &mut self,
        alloc: Global,
        left_out: usize,
        block: usize,
    ) -> Result<bool, NoMemory>
        requires { AreRight (rows self.old.edges.items) self.old.found }
        ensures kept { self.new.edges ≡ self.old.edges }
        ensures right { OnOk result (AreRight (rows self.new.edges.items) self.new.found) }
        ensures exact { IfOk result (λ b. (b ≡ true) ↔ ReachedWithout (rows self.old.edges.items) left_out block) }
    {
        self.search(alloc, left_out)?;
        match self.found.get(&left_out) {
            Some(marks) => Ok(is_marked(marks.as_slice(), block)),
            None => Ok(false),
        }
    }
}
