//! The numbers of aliases.

use std::collections::HashMap;

/// What aliases stand for, by number. An alias that isn't there stands for nothing.
#[derive(Drop)]
pub struct AliasNumbers {
    pub(crate) numbers: HashMap<u32, u32>,
}
