//! What an event does to the terms behind it.

use term_table::Form;

/// What is done to the terms behind an event.
#[derive(Clone, Copy, Drop)]
pub enum Action {
    /// They stay.
    Keep,
    /// Nothing is put before them: the end of a list, or a sign that has to stand.
    End,
    /// What an alias stands for is put before them.
    Alias,
    /// A node without parts is put before them.
    Put(Form, u64),
    /// The first one becomes the part of a node.
    Wrap(Form, u64),
    /// The first two become the parts of a node.
    Join(Form, u64),
}

/// What is done first, and then.
#[derive(Clone, Copy, Drop)]
pub struct Actions {
    pub first: Action,
    pub second: Action,
}
