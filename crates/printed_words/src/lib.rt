//! Printed words: which lists of words the lexer cuts out of their text as these very words.
//!
//! A crate of definitions with their laws.
#![tactic(auto)]

ghost use Rattle.printed_words.specs.Words.{WordsAreCut};

/// Of words that stand apart, the text is cut into these words.
pub fn law_words_are_cut()
    ensures { WordsAreCut }
{}
