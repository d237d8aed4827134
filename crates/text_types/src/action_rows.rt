//! What each event does to the terms behind it.

ghost use Rattle.std.specs.Prelude.{◌≡◌, min};
ghost use Rattle.text_types.specs.Actions.{actions_at, capped, dialect_of, integer_of, number_of, one, opens_items, opens_types, plain_of, results_of, size_of, two, value_of, width_of};

use crate::action::{Action, Actions};
use crate::spelled::Spelled;
use term_table::Form;
use text_events::Event;
use text_grammar::Place;

fn capped(n: u128) -> u64
    ensures { result ≡ capped n }
{
    n.min(18446744073709551615) as u64
}

fn integer_of(width: Option<u32>) -> Action
    ensures { result ≡ integer_of width }
{
    match width {
        Some(width) => Action::Put(Form::Int, width as u64),
        None => Action::Put(Form::Index, 0),
    }
}

fn size_of(size: Option<u128>) -> Action
    ensures { result ≡ size_of size }
{
    match size {
        Some(size) => Action::Wrap(Form::Size, capped(size)),
        None => Action::Wrap(Form::Dynamic, 0),
    }
}

fn opens_types(next: Option<Place>) -> Action
    ensures { result ≡ opens_types next }
{
    match next {
        Some(Place::StructClose)
        | Some(Place::ParametersClose)
        | Some(Place::FunctionClose)
        | Some(Place::ResultsClose)
        | Some(Place::SignatureClose) => Action::Keep,
        _ => Action::Join(Form::Types, 0),
    }
}

fn opens_items(next: Option<Place>) -> Action
    ensures { result ≡ opens_items next }
{
    match next {
        Some(Place::ItemsClose) => Action::Keep,
        _ => Action::Join(Form::Item, 0),
    }
}

fn results_of(next: Option<Place>) -> Action
    ensures { result ≡ results_of next }
{
    match next {
        Some(Place::ResultsOpen) => Action::Keep,
        _ => Action::Wrap(Form::Types, 0),
    }
}

fn number_of(name: u32, next: Option<Place>) -> Action
    ensures { result ≡ number_of name next }
{
    match next {
        Some(Place::NumberColon) => Action::Wrap(Form::Number, name as u64),
        _ => Action::Put(Form::Number, name as u64),
    }
}

fn dialect_of(name: u32, next: Option<Place>) -> Action
    ensures { result ≡ dialect_of name next }
{
    match next {
        Some(Place::DialectLess) => Action::Wrap(Form::Dialect, name as u64),
        _ => Action::Put(Form::Dialect, name as u64),
    }
}

fn value_of(next: Option<Place>) -> Action
    ensures { result ≡ value_of next }
{
    match next {
        Some(Place::EntryEquals) => Action::Keep,
        _ => Action::Put(Form::Unit, 0),
    }
}

fn width_of(width: Option<u32>) -> u64
    ensures { result ≡ width_of width }
{
    match width {
        Some(width) => width as u64,
        None => 0,
    }
}

fn plain_of(is_void: bool) -> Action
    ensures { result ≡ plain_of is_void }
{
    if is_void {
        Action::Put(Form::Void, 0)
    } else {
        Action::Put(Form::Ptr, 0)
    }
}

fn one(action: Action) -> Actions
    ensures { result ≡ one action }
{
    Actions {
        first: action,
        second: Action::Keep,
    }
}

fn two(first: Action, second: Action) -> Actions
    ensures { result ≡ two first second }
{
    Actions { first, second }
}

/// What an event does to the terms behind it, where the next one stands at this place.
pub fn actions_of<S: Spelled>(words: &S, event: Event, next: Option<Place>) -> Actions
    ensures { result ≡ actions_at (S.spelling words.now) event.place event.name next }
{
    let name = event.name as u64;
    match event.place {
        Place::IntegerWord | Place::ElementWord => one(integer_of(words.width(event.name))),
        Place::TypeAlias | Place::ElementAlias | Place::AttrAlias => one(Action::Alias),
        Place::LlvmPlain | Place::InnerPlain => one(plain_of(words.is_void(event.name))),
        Place::StructGreater
        | Place::ArrayGreater
        | Place::LlvmFunctionGreater
        | Place::MemrefGreater
        | Place::ResultsClose
        | Place::FunctionClose
        | Place::SignatureClose
        | Place::ItemsClose
        | Place::DialectGreater
        | Place::NumbersGreater
        | Place::AttrDictClose
        | Place::PropsClose
        | Place::DictClose => one(Action::End),
        Place::StructOpen | Place::ParametersOpen | Place::ResultsOpen => one(opens_types(next)),
        Place::LlvmStruct | Place::InnerStruct => one(Action::Wrap(Form::Struct, 0)),
        Place::ArrayNumber => one(Action::Join(Form::Array, capped(words.number(event.name)))),
        Place::LlvmFunction | Place::InnerFunction => one(Action::Join(Form::LlvmFunc, 0)),
        Place::DimensionSize => one(size_of(words.size(event.name))),
        Place::MemrefWord => one(Action::Join(Form::Memref, 0)),
        Place::TypeComma => one(Action::Join(Form::Types, 0)),
        Place::FunctionArrow | Place::SignatureArrow => one(results_of(next)),
        Place::FunctionOpen | Place::SignatureOpen => {
            two(opens_types(next), Action::Join(Form::Func, 0))
        }
        Place::TextAttr => one(Action::Put(Form::Text, name)),
        Place::BoolWord => one(Action::Put(Form::Bool, name)),
        Place::Symbol => one(Action::Put(Form::Symbol, name)),
        Place::IntegerNumber => one(number_of(event.name, next)),
        Place::IntegerMinus => one(Action::Wrap(Form::Minus, 0)),
        Place::ItemComma => one(Action::Join(Form::Item, 0)),
        Place::ItemsOpen => two(opens_items(next), Action::Wrap(Form::Items, 0)),
        Place::DialectWord => one(Action::Wrap(Form::DialectWord, name)),
        Place::DialectName => one(dialect_of(event.name, next)),
        Place::ListedNumber => one(Action::Wrap(Form::Listed, name)),
        Place::ListedMinus => one(Action::Wrap(Form::ListedMinus, 0)),
        Place::NumbersWidth => one(Action::Wrap(Form::Numbers, width_of(words.width(event.name)))),
        Place::AttrDictOpen | Place::PropsOpen | Place::DictOpen => {
            one(Action::Wrap(Form::Dict, 0))
        }
        Place::EntryName => two(value_of(next), Action::Join(Form::Entry, name)),
        _ => one(Action::Keep),
    }
}
