//! The words of the generic text: its tokens, each with its kind.

use crate::kinds::Kind;

/// A token of the text: its bytes are those from `start` up to `end`.
#[derive(Clone, Copy, Drop)]
pub struct Word {
    pub kind: Kind,
    /// Whether it is a number above 2^128 - 1.
    pub long: bool,
    pub start: u32,
    pub end: u32,
}
