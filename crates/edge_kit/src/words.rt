//! The words of a command line.

ghost use Rattle.std.specs.Prelude.{◌≡◌, [], ◌∷◌, ◌++◌, OnOk, OnErr, map};

use crate::NoMemory;
use std::alloc::{AllocError, Global};
use std::marker::Model;

/// A list of words, each a list of bytes.
#[derive(Drop)]
pub struct Words {
    words: Vec<Vec<u8>>,
}

impl Model for Words {
    ghost use Rattle.std.specs.Prelude.{ℕ, List, map};

    ghost Value = { List (List ℕ) };

    ghost view = { λ a. map (λ w. w.items) a.words.items };
}

impl Words {
    /// No words.
    pub fn new(alloc: Global) -> Words
        ensures { result ≡ [] }
    {
        Words {
            words: Vec::new(alloc),
        }
    }

    /// The words in order.
    pub fn as_slice(&self) -> &[Vec<u8>]
        ensures { map (λ w. w.items) result.now ≡ self.now }
    {
        self.words.as_slice()
    }

    /// Puts a copy of `word` last.
    pub fn push(&mut self, alloc: Global, word: &str) -> Result<(), NoMemory>
        ensures ok { OnOk result (self.new ≡ self.old ++ word.now ∷ []) }
        ensures err { OnErr result (self.new ≡ self.old) }
    {
        let Ok(copy) = Vec::from_slice(alloc, word.as_bytes()) else {
            return Err(AllocError);
        };
        self.words.push(copy).map_err(|_| AllocError)
    }
}
