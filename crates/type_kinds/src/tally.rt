//! The sizes of aliases.

use std::collections::HashMap;

/// The sizes of aliases, as parts or as depths, as far as the text was read.
#[derive(Drop)]
pub(crate) struct Tally {
    pub(crate) sizes: HashMap<u32, u32>,
    pub(crate) alias: Option<u32>,
    pub(crate) amount: u32,
    pub(crate) minus: bool,
}
