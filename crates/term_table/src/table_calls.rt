//! The calls of the table of terms.

ghost use Rattle.std.specs.Prelude.{◌≡◌, ◌↔◌, ◌<◌, ◌≤◌, ℕ, [], IfOk, IsTrue, IfSome, IfNone, None, Some, length, option_copied, slice_get};
ghost use Rattle.term_table.specs.Terms.{Grows, made_of, nothing, term_at};

use crate::node::Node;
use crate::table::Terms;
use indexmap::IndexSet;
use std::alloc::{AllocError, Global};

const MOST: usize = 4294967295;

impl Terms {
    /// A table without nodes: its one number is 0, for nothing.
    pub fn new(alloc: Global) -> Terms
        ensures { result.nodes.keys ≡ [] }
    {
        Terms {
            nodes: IndexSet::new(alloc),
        }
    }

    /// The number of a node, which is put last where it isn't there.
    pub fn put(&mut self, node: Node) -> Result<u32, AllocError>
        requires left { node.left ≤ length self.old.nodes.keys }
        requires right { node.right ≤ length self.old.nodes.keys }
        ensures grows { Grows self.old.nodes.keys self.new.nodes.keys }
        ensures within { IfOk result (λ k. k ≤ length self.new.nodes.keys) }
        ensures is { IfOk result (λ k. term_at self.new.nodes.keys k ≡ made_of self.old.nodes.keys node) }
    {
        if self.nodes.len() >= MOST {
            return Err(AllocError);
        }
        match self.nodes.insert_full(node) {
            Ok((place, _)) => Ok(place as u32 + 1),
            Err(_) => Err(AllocError),
        }
    }

    /// The node of a number, and none for 0.
    pub fn get(&self, number: u32) -> Option<Node>
        ensures some { IfSome result (λ n. term_at self.now.nodes.keys number ≡ made_of self.now.nodes.keys n) }
        ensures parts { IfSome result (λ n. (n.left < number) × (n.right < number)) }
        ensures none { number ≤ length self.now.nodes.keys → IfNone result (term_at self.now.nodes.keys number ≡ nothing) }
    {
        if number == 0 {
            return None;
        }
        self.nodes.get_index(number as usize - 1).copied()
    }

    /// Whether two numbers stand for one term.
    pub fn same(&self, a: u32, b: u32) -> bool
        requires first { a ≤ length self.now.nodes.keys }
        requires second { b ≤ length self.now.nodes.keys }
        ensures { IsTrue result ↔ (term_at self.now.nodes.keys a ≡ term_at self.now.nodes.keys b) }
    {
        a == b
    }
}
