//! The list: its buffer and the bounds of its gap.

use std::marker::Model;

/// A list of numbers, as a buffer with a gap at the place of the last edit.
#[derive(Debug, Drop)]
pub struct EditList {
    pub(crate) items: Vec<u32>,
    pub(crate) start: usize,
    pub(crate) end: usize,
}

impl Model for EditList {
    ghost use Rattle.std.specs.Prelude.{◌≤◌, length};
    ghost use Rattle.edit_list.specs.Listed.{Listed, around};

    ghost Value = { Listed };

    ghost view = { λ b. record { list = around b.items.items b.start b.end; room = length b.items.items } };

    ghost invariant = { λ b. (b.start ≤ b.end) × (b.end ≤ length b.items.items) };
}
