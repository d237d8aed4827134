//! The table.

use std::collections::HashMap;

/// For which value each value stands. A value that was given up has a place, and at its place stands the value for which it
/// was given up; that one may have been given up later, and so on.
#[derive(Drop)]
pub struct StandIns {
    pub places: HashMap<u32, u32>,
    pub parents: Vec<u32>,
}
