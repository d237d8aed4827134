//! Where looking at a text ends.

ghost use Rattle.std.specs.Prelude.{◌≡◌, ◌+◌, ◌&&◌, ◌∷◌, [], length, slice_get, take};
ghost use Rattle.text_events.specs.Looking.{behind_sign, blamed, ending_of, form_ending, is_long, is_number, last_ending, last_memref, lexical_kind, refusal_ending, start_or, word_ending};

use crate::look::{Look, Refusal};
use mlir_lex::{LexFault, LexKind};
use text_grammar::{Kind, Place, Word};

/// Why looking ends.
#[derive(Clone, Copy, PartialEq, Eq, Debug)]
pub enum EndKind {
    /// No token begins with the byte.
    BadByte,
    /// A string is not closed on its line.
    OpenString,
    /// A `\\` in a string begins no escape.
    BadEscape,
    /// A number is above 2^128 - 1.
    LongNumber,
    /// No text goes on with the word.
    Expected,
    /// An alias is not defined.
    UnknownAlias,
    /// A type is spelled as MLIR has it and this language doesn't.
    UnsupportedType,
    /// So is an attribute.
    UnsupportedAttr,
}

/// Where looking ends, by its byte, and why.
#[derive(Clone, Copy, Drop)]
pub struct Ending {
    pub place: usize,
    pub kind: EndKind,
}

/// Where looking at a text of `end` bytes ends; none where nothing ends it.
pub fn find_ending(
    end: usize,
    words: &[Word],
    fault: Option<LexFault>,
    look: &Look,
) -> Option<Ending>
    ensures { result ≡ ending_of end words.now fault look.now.places.items look.now.whole look.now.refusal }
{
    match look.refusal {
        Some(refusal) => Some(refusal_ending(end, words, &look.places, refusal)),
        None => form_ending(
            end,
            look.whole,
            fault,
            words.get(look.places.len()).copied(),
        ),
    }
}

fn form_ending(
    end: usize,
    whole: bool,
    fault: Option<LexFault>,
    next: Option<Word>,
) -> Option<Ending>
    ensures { result ≡ form_ending end whole fault next }
{
    match next {
        Some(word) => if whole {
            last_ending(end, true, fault)
        } else {
            Some(word_ending(word))
        },
        None => last_ending(end, whole, fault),
    }
}

fn last_ending(end: usize, whole: bool, fault: Option<LexFault>) -> Option<Ending>
    ensures { result ≡ last_ending end whole fault }
{
    match fault {
        Some(fault) => Some(Ending {
            place: fault.place as usize,
            kind: lexical_kind(fault.kind),
        }),
        None => if whole {
            None
        } else {
            Some(Ending {
                place: end,
                kind: EndKind::Expected,
            })
        },
    }
}

fn lexical_kind(kind: LexKind) -> EndKind
    ensures { result ≡ lexical_kind kind }
{
    match kind {
        LexKind::BadByte => EndKind::BadByte,
        LexKind::OpenString => EndKind::OpenString,
        LexKind::BadEscape => EndKind::BadEscape,
    }
}

fn word_ending(word: Word) -> Ending
    ensures { result ≡ word_ending word }
{
    let kind = if is_number(word.kind) && word.long {
        EndKind::LongNumber
    } else {
        EndKind::Expected
    };
    Ending {
        place: word.start as usize,
        kind,
    }
}

fn is_number(kind: Kind) -> bool
    ensures { result ≡ is_number kind }
{
    matches!(kind, Kind::Number)
}

fn refusal_ending(end: usize, words: &[Word], places: &[Place], refusal: Refusal) -> Ending
    ensures { result ≡ refusal_ending end words.now places.now refusal }
{
    let place = place_at(places, refusal.at);
    let word = word_at(words, blamed(refusal.kind, place, places, refusal.at));
    Ending {
        place: start_or(end, word, behind_sign(refusal.kind, place)),
        kind: refusal.kind,
    }
}

fn place_at(places: &[Place], index: usize) -> Option<Place>
    ensures { result ≡ slice_get places.now index }
{
    places.get(index).copied()
}

fn word_at(words: &[Word], index: usize) -> Option<Word>
    ensures { result ≡ slice_get words.now index }
{
    words.get(index).copied()
}

fn start_or(end: usize, word: Option<Word>, behind: u8) -> usize
    ensures { result ≡ start_or end word behind }
{
    match word {
        Some(word) => word.start as usize + behind as usize,
        None => end,
    }
}

fn behind_sign(kind: EndKind, place: Option<Place>) -> u8
    ensures { result ≡ behind_sign kind place }
{
    match (kind, place) {
        (EndKind::LongNumber, Some(Place::UseNumber)) => 1,
        _ => 0,
    }
}

fn blamed(kind: EndKind, place: Option<Place>, places: &[Place], at: usize) -> usize
    ensures { result ≡ blamed kind place (take at places.now) at }
{
    if is_long(kind) {
        return at;
    }
    match place {
        Some(Place::DimensionSize | Place::RefusedLayout) => last_memref(places, at),
        Some(Place::RefusedColons) => at.saturating_sub(1),
        _ => at,
    }
}

fn is_long(kind: EndKind) -> bool
    ensures { result ≡ is_long kind }
{
    matches!(kind, EndKind::LongNumber)
}

/// The last word before this one that is a memref's.
fn last_memref(places: &[Place], at: usize) -> usize
    ensures { result ≡ last_memref 0 at (take at places.now) }
{
    let mut found = at;
    let before = &places[..at.min(places.len())];
    'each: for (index, place) in before.iter().enumerate() {
        found = memref_or(*place, index, found);
    }
    found
}

fn memref_or(place: Place, index: usize, found: usize) -> usize
    ensures { result ≡ last_memref index found (place ∷ []) }
{
    match place {
        Place::MemrefWord => index,
        _ => found,
    }
}
