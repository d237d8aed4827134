//! Where a type or attribute begins.

ghost use Rattle.std.specs.Prelude.{◌≡◌, ◌+◌, ◌<◌, drop, length};
ghost use Rattle.text_types.specs.Items.{place_next};
ghost use Rattle.type_kinds.specs.Begins.{begin_at, entry_begin, is_minus, number_begin};

use text_events::Event;
use text_grammar::Place;

/// What begins at an event.
#[derive(Clone, Copy, Drop)]
pub enum Begin {
    Nothing,
    Type,
    Attr,
    TypeAlias,
    AttrAlias,
}

fn number_begin(minus: bool) -> Begin
    ensures { result ≡ number_begin minus }
{
    if minus { Begin::Nothing } else { Begin::Attr }
}

fn entry_begin(next: Option<Place>) -> Begin
    ensures { result ≡ entry_begin next }
{
    match next {
        Some(Place::EntryEquals) => Begin::Nothing,
        _ => Begin::Attr,
    }
}

/// What begins at the place, where a minus stands before it or not, and this place is next.
#[inline(always)]
pub(crate) fn begin_at(place: Place, minus: bool, next: Option<Place>) -> Begin
    ensures { result ≡ begin_at place minus next }
{
    match place {
        Place::IntegerWord
        | Place::ElementWord
        | Place::LlvmPlain
        | Place::InnerPlain
        | Place::LlvmStruct
        | Place::InnerStruct
        | Place::LlvmArray
        | Place::InnerArray
        | Place::LlvmFunction
        | Place::InnerFunction
        | Place::MemrefWord
        | Place::FunctionOpen => Begin::Type,
        Place::TypeAlias | Place::ElementAlias => Begin::TypeAlias,
        Place::TextAttr
        | Place::IntegerMinus
        | Place::BoolWord
        | Place::ItemsOpen
        | Place::AttrDictOpen
        | Place::Symbol
        | Place::DialectName
        | Place::NumbersWord => Begin::Attr,
        Place::IntegerNumber => number_begin(minus),
        Place::EntryName => entry_begin(next),
        Place::AttrAlias => Begin::AttrAlias,
        _ => Begin::Nothing,
    }
}

pub(crate) fn is_minus(place: Place) -> bool
    ensures { result ≡ is_minus place }
{
    match place {
        Place::IntegerMinus => true,
        _ => false,
    }
}

/// The place behind an event.
pub(crate) fn next_place(events: &[Event], index: usize) -> Option<Place>
    requires { index < length events.now }
    ensures { result ≡ place_next (drop (index + 1) events.now) }
{
    match events.get(index + 1) {
        Some(event) => Some(event.place),
        None => None,
    }
}
