//! The cases of a text.

use std::alloc::{AllocError, Global};

/// A case: the words of a command, and a text.
#[derive(Clone, Copy, Debug)]
pub struct Case<'a> {
    pub name: &'a str,
    pub words: &'a str,
    text: &'a str,
    cut: bool,
}

impl Case<'_> {
    /// The bytes of the text.
    pub fn text(&self, alloc: Global) -> Result<Vec<u8>, AllocError> {
        let mut text = Vec::from_slice(alloc, self.text.as_bytes())?;
        if !self.text.is_empty() && !self.cut {
            text.push(b'\n')?;
        }
        Ok(text)
    }
}

/// The case of a piece `NAME: WORDS` and the lines behind it.
pub fn case_of(piece: &str) -> Case<'_> {
    let (head, text) = piece.split_once('\n').unwrap_or((piece, ""));
    let (name, words) = head.split_once(':').unwrap_or((head, ""));
    let cut = name.strip_suffix(", cut");
    Case {
        name: cut.unwrap_or(name),
        words,
        text,
        cut: cut.is_some(),
    }
}
