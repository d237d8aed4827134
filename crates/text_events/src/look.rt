//! Looking at a text: the places of its words, and where looking ends.

ghost use Rattle.std.specs.Prelude.{◌≡◌, ◌+◌, ◌&&◌, IfOk, List, length, nat_lt};
ghost use Rattle.line_grammar.specs.Language.{ReadsText, events};
ghost use Rattle.text_grammar.specs.declared.places.Place.{Place};
ghost use Rattle.text_grammar.specs.Steps.{Looked};
ghost use Rattle.text_events.specs.Aliases.{Aliases};
ghost use Rattle.text_events.specs.KnownAliases.{Agrees};
ghost use Rattle.text_events.specs.Language.{Before, ends_at, generic_text, is_alias_name, long_at, named, nothing_before, refused_at, sizes_behind};
ghost use Rattle.text_events.specs.Looking.{IsBegun, IsFound, IsRefused, end_of, first_refusal};

use crate::alias::AliasTable;
use crate::ending::EndKind;
use std::alloc::{AllocError, Global};
use text_grammar::{Place, Word, read_form};

/// A word at which looking ends, and why.
#[derive(Clone, Copy, Drop)]
pub struct Refusal {
    pub at: usize,
    pub kind: EndKind,
}

/// What looking at a text finds.
#[derive(Drop)]
pub struct Look {
    /// The place of each word, up to the first that does not fit.
    pub places: Vec<Place>,
    /// Whether all words fit, and nothing is wanting.
    pub whole: bool,
    /// The first word at which looking ends though it fits.
    pub refusal: Option<Refusal>,
}

impl Look {
    /// How many words were looked at; none where the words are a text.
    pub fn end(&self) -> Option<usize>
        ensures { result ≡ end_of self.now.refusal self.now.whole (length self.now.places.items) }
    {
        match self.refusal {
            Some(refusal) => Some(refusal.at),
            None => if self.whole {
                None
            } else {
                Some(self.places.len())
            },
        }
    }
}

/// Looks at the words of a text, of which each has the number of its name.
pub fn look_at(alloc: Global, words: &[Word], names: &[u32]) -> Result<Look, AllocError>
    requires { length words.now ≡ length names.now }
    ensures form { IfOk result (λ l. Looked l.places.items l.whole words.now) }
    ensures refusal { IfOk result (λ l. l.refusal ≡ first_refusal nothing_before (events l.places.items (named words.now names.now))) }
    ensures found { IfOk result (λ l. IsFound (end_of l.refusal l.whole (length l.places.items)) l.places.items (named words.now names.now)) }
    ensures refused { IfOk result (λ l. IsRefused (end_of l.refusal l.whole (length l.places.items)) (named words.now names.now)) }
    ensures begun { IfOk result (λ l. IsBegun (end_of l.refusal l.whole (length l.places.items)) l.places.items (named words.now names.now)) }
    ensures only { (ps : List Place) → ReadsText generic_text ps (named words.now names.now)
        → IfOk result (λ l. (l.places.items ≡ ps) × (end_of l.refusal l.whole (length l.places.items) ≡ None)) }
{
    let form = read_form(alloc, words)?;
    let refusal = first_refusal(alloc, &form.places, words, names)?;
    Ok(Look {
        places: form.places,
        whole: form.whole,
        refusal,
    })
}

/// The first word at which looking ends though it fits.
fn first_refusal(
    alloc: Global,
    places: &[Place],
    words: &[Word],
    names: &[u32],
) -> Result<Option<Refusal>, AllocError>
    ensures { IfOk result (λ r. r ≡ first_refusal nothing_before (events places.now (named words.now names.now))) }
{
    let mut sizes = 0;
    let mut aliases = AliasTable::new(alloc);
    'each: for index in 0..places.len() {
        if words.len() <= index {
            return Ok(None);
        }
        if names.len() <= index {
            return Ok(None);
        }
        let place = places[index];
        let name = names[index];
        if let Some(kind) = ends_at(sizes, &aliases, place, words[index], name) {
            return Ok(Some(Refusal { at: index, kind }));
        }
        sizes = sizes_behind(sizes, place);
        aliases.step(place, name)?;
    }
    Ok(None)
}

/// Why looking ends at the word, if it does, behind this many dimensions and these aliases.
fn ends_at(
    sizes: usize,
    aliases: &AliasTable,
    place: Place,
    word: Word,
    name: u32,
) -> Option<EndKind>
    ensures { (a : Aliases) → Agrees a aliases.now → result ≡ ends_at (record { sizes = sizes; aliases = a }) (place, record { word = word; name = name }) }
{
    if let Some(kind) = refused_at(sizes, place) {
        return Some(kind);
    }
    if let Some(kind) = aliases.fault(place, name) {
        return Some(kind);
    }
    long_at(place, word)
}

fn refused_at(sizes: usize, place: Place) -> Option<EndKind>
    ensures { result ≡ refused_at sizes place }
{
    match place {
        Place::DimensionSize => if 8 <= sizes {
            Some(EndKind::UnsupportedType)
        } else {
            None
        },
        Place::DottedType
        | Place::UnsupportedTypeWord
        | Place::UnsupportedInnerWord
        | Place::RefusedLayout => Some(EndKind::UnsupportedType),
        Place::UnsupportedAttrWord | Place::UnsupportedAliasWord | Place::RefusedColons => {
            Some(EndKind::UnsupportedAttr)
        }
        _ => None,
    }
}

fn long_at(place: Place, word: Word) -> Option<EndKind>
    ensures { result ≡ long_at place word }
{
    if word.long && !is_alias_name(place) {
        Some(EndKind::LongNumber)
    } else {
        None
    }
}

fn is_alias_name(place: Place) -> bool
    ensures { result ≡ is_alias_name place }
{
    matches!(
        place,
        Place::AttrAliasName | Place::AttrAlias | Place::LocAlias
    )
}

fn sizes_behind(sizes: usize, place: Place) -> usize
    ensures { result ≡ sizes_behind sizes place }
{
    match place {
        Place::MemrefWord => 0,
        Place::DimensionSize => if sizes < 8 { sizes + 1 } else { sizes },
        _ => sizes,
    }
}
