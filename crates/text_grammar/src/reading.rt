//! The places of the words of a text.

ghost use Rattle.std.specs.Prelude.{◌≡◌, true, false, IfOk, List, drop, length, map};
ghost use Rattle.line_grammar.specs.Grammar.{IsExpected, Reads};
ghost use Rattle.text_grammar.specs.Steps.{Looked, kind_of};
ghost use Rattle.text_grammar.specs.declared.places.Place.{Place};
ghost use Rattle.text_grammar.specs.Table.{generic};
ghost use Rattle.text_grammar.specs.Text.{start};

use crate::machine::{ends_here, take};
use crate::parts::{Part, Wanted};
use crate::places::Place;
use crate::words::Word;
use line_grammar::Symbol;
use std::alloc::{AllocError, Global};

/// The form of the words of a text.
#[derive(Drop)]
pub struct Form {
    /// The place of each word, up to the first that is not taken.
    pub places: Vec<Place>,
    /// Whether the words have the form of a text.
    pub whole: bool,
}

/// The places of the words, up to the first with which nothing of the form of a text goes on.
pub fn read_form(alloc: Global, words: &[Word]) -> Result<Form, AllocError>
    ensures taken { IfOk result (λ r. Looked r.places.items r.whole words.now) }
    ensures found { IfOk result (λ r. r.whole ≡ true → Reads generic start r.places.items (map kind_of words.now)) }
    ensures refused { IfOk result (λ r. r.whole ≡ false → IsExpected generic start (map kind_of words.now) (drop (length r.places.items) (map kind_of words.now))) }
    ensures only { (ps : List Place) → Reads generic start ps (map kind_of words.now) → IfOk result (λ r. (r.places.items ≡ ps) × (r.whole ≡ true)) }
{
    let (places, whole) = places_of(alloc, words)?;
    Ok(Form { places, whole })
}

/// The places of the words up to the first that is not taken, and whether they are a sentence.
fn places_of(alloc: Global, words: &[Word]) -> Result<(Vec<Place>, bool), AllocError>
    ensures { IfOk result (λ r. Looked r.0.items r.1 words.now) }
{
    let mut places = Vec::new(alloc);
    let mut stack: Vec<Wanted> = Vec::new(alloc);
    stack.push(Symbol::Part(Part::File))?;
    for word in words {
        match take(&mut stack, word.kind)? {
            Some(place) => places.push(place)?,
            None => return Ok((places, false)),
        }
    }
    let whole = ends_here(&stack);
    Ok((places, whole))
}
