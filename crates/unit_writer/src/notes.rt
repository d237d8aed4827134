//! What is noted while a function is written.

use new_numbers::NewNumbers;

/// The new numbers, and the copies so far: each result that stands for a value, in the order of the text.
#[derive(Drop)]
pub struct Notes {
    pub numbers: NewNumbers,
    pub pairs: Vec<(u32, u32)>,
}
