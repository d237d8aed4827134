//! Uses of values against their definitions.

ghost use Rattle.std.specs.Prelude.{◌≡◌, ◌+◌, ◌-◌, ◌≤◌, ◌<◌, ◌^◌, ℕ, List, [], None, Some, IfOk, drop, get_or, length, nat_le, if◌then◌else◌};
ghost use Rattle.text_events.specs.declared.event.Event.{Event};
ghost use Rattle.term_table.specs.declared.node.Node.{Node};
ghost use Rattle.term_table.specs.Terms.{Term, nothing, term_at};
ghost use Rattle.text_types.specs.Spelling.{Spelling};
ghost use Rattle.text_types.specs.Items.{Aliases, begun, begins};
ghost use Rattle.text_types.specs.Stack.{Stands, Within};
ghost use Rattle.text_scopes.specs.declared.bodies.Class.{Class};
ghost use Rattle.text_scopes.specs.declared.tables.Names.TheVariants.{Values};
ghost use Rattle.text_scopes.specs.Tables as tables;
ghost use Rattle.text_kinds.specs.declared.found.Kind.TheVariants.{ResultIndex, UseType};
ghost use Rattle.text_kinds.specs.Kinds.{least_of, sooner};
ghost use Rattle.use_kinds.specs.Same.{same_term};
ghost use Rattle.use_kinds.specs.Written.{is_argument, signature_behind, written_from};
ghost use Rattle.use_kinds.specs.Clashes.{clash_at, clash_of, clashes_from, first_clash, index_of, is_hash, is_use, later, named, next_of, place_from, whole_at};
ghost use Rattle.use_kinds.specs.Flat.{Says, signatures_of};

use crate::indexed::Indexed;
use crate::rows::{number_at, type_at};
use crate::signatures::signatures;
use crate::types::{Types, count_of, types_of};
use std::alloc::{AllocError, Global};
use term_table::Terms;
use text_events::Event;
use text_grammar::Place;
use text_kinds::{Found, Kind, least};

fn is_use(place: Place) -> bool
    ensures { result ≡ is_use place }
{
    match place {
        Place::UseName => true,
        _ => false,
    }
}

fn is_hash(place: Place) -> bool
    ensures { result ≡ is_hash place }
{
    match place {
        Place::UseNumber => true,
        _ => false,
    }
}

/// The index of a use that these events follow.
fn index_of<S: Indexed>(words: &S, behind: &[Event]) -> u128
    ensures { result ≡ index_of (S.indexes words.now) behind.now }
{
    match behind {
        [event, ..] => {
            if is_hash(event.place) {
                words.index(event.name)
            } else {
                0
            }
        }
        [] => 0,
    }
}

/// The later of both places, where both are whole.
fn later(one: Option<usize>, other: Option<usize>, kind: Option<Kind>) -> Option<Found>
    ensures { result ≡ later one other kind }
{
    match (one, other, kind) {
        (Some(one), Some(other), Some(kind)) => Some(Found {
            place: one.max(other),
            kind,
        }),
        _ => None,
    }
}

fn is_argument(place: Place) -> bool
    ensures { result ≡ is_argument place }
{
    match place {
        Place::ArgName => true,
        _ => false,
    }
}

/// The event at which the types of a name are written.
fn written_at(signatures: &[u32], place: Place, count: usize, behind: usize) -> usize
    requires { behind < 2 ^ 33 }
    ensures within { result ≤ count }
    ensures is { (events : List Event) → length events ≡ count → signatures.now ≡ signatures_of events → drop result events ≡ written_from place (drop behind events) }
{
    if is_argument(place) {
        argument_at(count, behind)
    } else {
        signature_at(signatures, count, behind)
    }
}

fn argument_at(count: usize, behind: usize) -> usize
    requires { behind < 2 ^ 33 }
    ensures within { result ≤ count }
    ensures is { (events : List Event) → length events ≡ count → drop result events ≡ drop 1 (drop behind events) }
{
    count.min(behind + 1)
}

fn signature_at(signatures: &[u32], count: usize, behind: usize) -> usize
    ensures within { result ≤ count }
    ensures is { (events : List Event) → length events ≡ count → signatures.now ≡ signatures_of events → drop result events ≡ signature_behind (drop behind events) 0 }
{
    count.saturating_sub(number_at(signatures, behind) as usize)
}

/// The event, where a type begins there.
fn whole_at(terms: &Terms, number: u32, place: usize) -> Option<usize>
    requires { number ≤ length terms.now.nodes.keys }
    ensures { (total : ℕ) (from : List Event) → total - length from ≡ place → result ≡ whole_at total (term_at terms.now.nodes.keys number) from }
{
    match terms.get(number) {
        Some(_) => Some(place),
        None => None,
    }
}

/// Whether a name of so many values has none of this index.
fn lacks(count: u128, index: u128) -> bool
    ensures { result ≡ nat_le count index }
{
    count <= index
}

/// What is wrong with a use of this type and index, where its definition has so many values, and the value of this index this type.
fn fault_of(terms: &Terms, used: u32, defined: u32, count: u128, index: u128) -> Option<Kind>
    requires used { used ≤ length terms.now.nodes.keys }
    requires defined { defined ≤ length terms.now.nodes.keys }
    ensures { result ≡ (if nat_le count index then Some ResultIndex else if same_term (term_at terms.now.nodes.keys used) (term_at terms.now.nodes.keys defined) then None else Some UseType) }
{
    if lacks(count, index) {
        Some(Kind::ResultIndex)
    } else if terms.same(used, defined) {
        None
    } else {
        Some(Kind::UseType)
    }
}

/// What the text says at its events.
#[derive(Clone, Copy, Drop)]
pub(crate) struct Said<'t> {
    pub(crate) terms: &'t Terms,
    pub(crate) events: &'t [Event],
    pub(crate) numbers: &'t [u32],
    pub(crate) signatures: &'t [u32],
    pub(crate) types: &'t Types,
}

/// The event at which the types of a name are written, where they are whole.
fn place_of(said: Said<'_>, event: usize) -> Option<usize>
    requires numbers { Within (length said.terms.now.nodes.keys) said.numbers.now }
    requires room { length said.events.now < 2 ^ 32 }
    ensures { (spelling : Spelling) (aliases : Aliases) (indexes : ℕ → ℕ) → Stands said.entry.terms.now.nodes.keys said.entry.numbers.now (begun spelling aliases said.entry.events.now) → said.entry.signatures.now ≡ signatures_of said.entry.events.now → result ≡ place_from spelling indexes aliases said.entry.events.now (drop event said.entry.events.now) }
{
    if event >= said.events.len() {
        return None;
    }
    let written = written_at(
        said.signatures,
        said.events[event].place,
        said.events.len(),
        event + 1,
    );
    whole_at(said.terms, number_at(said.numbers, written), written)
}

/// The clash of a use with its definition.
fn clash_of<S: Indexed>(words: &S, said: Said<'_>, used: usize, defined: usize) -> Option<Found>
    requires numbers { Within (length said.terms.now.nodes.keys) said.numbers.now }
    requires types { Within (length said.terms.now.nodes.keys) said.types.now.items.items }
    requires room { length said.events.now < 2 ^ 32 }
    ensures { (aliases : Aliases) → Says (S.spelling words.now) aliases said.entry.terms.now.nodes.keys said.entry.events.now said.entry.numbers.now said.entry.signatures.now said.entry.types.now.items.items said.entry.types.now.rows.items → result ≡ clash_of (named (S.spelling words.now) (S.indexes words.now) aliases said.entry.events.now used) (named (S.spelling words.now) (S.indexes words.now) aliases said.entry.events.now defined) }
{
    if used >= said.events.len() || defined >= said.events.len() {
        return None;
    }
    let index = index_of(words, &said.events[used + 1..]);
    let count = count_of(words, &said.events[defined + 1..]);
    let used_type = type_at(&said.types.items, &said.types.rows, used, 0);
    let defined_type = type_at(&said.types.items, &said.types.rows, defined, index);
    let fault = fault_of(said.terms, used_type, defined_type, count, index);
    later(place_of(said, used), place_of(said, defined), fault)
}

fn clash_at<S: Indexed>(
    words: &S,
    said: Said<'_>,
    used: usize,
    defined: Option<u32>,
) -> Option<Found>
    requires numbers { Within (length said.terms.now.nodes.keys) said.numbers.now }
    requires types { Within (length said.terms.now.nodes.keys) said.types.now.items.items }
    requires room { length said.events.now < 2 ^ 32 }
    ensures { (aliases : Aliases) → Says (S.spelling words.now) aliases said.entry.terms.now.nodes.keys said.entry.events.now said.entry.numbers.now said.entry.signatures.now said.entry.types.now.items.items said.entry.types.now.rows.items → result ≡ clash_at (S.spelling words.now) (S.indexes words.now) aliases said.entry.events.now used defined }
{
    match defined {
        Some(defined) => clash_of(words, said, used, defined as usize),
        None => None,
    }
}

/// The sooner of two refusals.
fn sooner(one: Option<Found>, other: Option<Found>) -> Option<Found>
    ensures { result ≡ sooner one other }
{
    least(&[one, other], &[])
}

/// The definition of the next use.
fn next_of(definitions: &[Option<u32>], next: usize) -> Option<u32>
    ensures { result ≡ next_of (drop next definitions.now) }
{
    match definitions.get(next) {
        Some(definition) => *definition,
        None => None,
    }
}

/// The first of all clashes, by the definitions of the uses in order.
fn first_of_uses<S: Indexed>(
    words: &S,
    said: Said<'_>,
    definitions: &[Option<u32>],
) -> Option<Found>
    requires numbers { Within (length said.terms.now.nodes.keys) said.numbers.now }
    requires types { Within (length said.terms.now.nodes.keys) said.types.now.items.items }
    requires room { length said.events.now < 2 ^ 32 }
    ensures { (aliases : Aliases) → Says (S.spelling words.now) aliases said.entry.terms.now.nodes.keys said.entry.events.now said.entry.numbers.now said.entry.signatures.now said.entry.types.now.items.items said.entry.types.now.rows.items → result ≡ least_of (clashes_from (clash_at (S.spelling words.now) (S.indexes words.now) aliases said.entry.events.now) 0 said.entry.events.now definitions.now) }
{
    let mut first = None;
    let mut next = 0;
    'each: for index in 0..said.events.len() {
        if is_use(said.events[index].place) {
            let clash = clash_at(words, said, index, next_of(definitions, next));
            first = sooner(first, clash);
            next += 1;
        }
    }
    first
}

/// The first use that clashes with its definition, where these numbers stand for what begins at each event, and `uses` are the
/// definitions of the uses of values.
pub fn first_clash<S: Indexed>(
    alloc: Global,
    words: &S,
    terms: &Terms,
    events: &[Event],
    numbers: &[u32],
    uses: &[Option<u32>],
) -> Result<Option<Found>, AllocError>
    requires numbers { Within (length terms.now.nodes.keys) numbers.now }
    requires room { length events.now < 2 ^ 32 }
    ensures { (aliases : Aliases) (class : ℕ → Class) → Stands terms.now.nodes.keys numbers.now (begun (S.spelling words.now) aliases events.now) → uses.now ≡ tables.definitions Values class events.now → IfOk result (λ o. o ≡ first_clash (S.spelling words.now) (S.indexes words.now) aliases class events.now) }
{
    let signatures = signatures(alloc, events)?;
    let types = types_of(alloc, words, terms, events, numbers, &signatures)?;
    let said = Said {
        terms,
        events,
        numbers,
        signatures: &signatures,
        types: &types,
    };
    Ok(first_of_uses(words, said, uses))
}
