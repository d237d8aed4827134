//! The table of terms.

ghost use Rattle.std.specs.Prelude.{◌<◌, ◌^◌, length};
ghost use Rattle.term_table.specs.Terms.{OneNumber, PartsBefore};

use crate::node::Node;
use indexmap::IndexSet;

/// Terms by number. Each has one number, so two numbers are equal exactly where their terms are.
#[derive(Drop)]
pub struct Terms {
    pub(crate) nodes: IndexSet<Node>,
    pub ghost before: { PartsBefore nodes.keys },
    pub ghost one: { OneNumber nodes.keys },
    pub ghost small: { length nodes.keys < 2 ^ 32 },
}
