//! The kinds that look at types, and those of uses.

ghost use Rattle.std.specs.Prelude.{◌≡◌, ◌<◌, ◌^◌, ◌++◌, ◌∷◌, [], ℕ, IfOk, OnOk, length};
ghost use Rattle.text_scopes.specs.declared.bodies.Class.{Class};
ghost use Rattle.text_scopes.specs.declared.tables.Names.TheVariants.{Values, Labels};
ghost use Rattle.text_scopes.specs.Bodies.{class_in};
ghost use Rattle.text_scopes.specs.Tables as tables;
ghost use Rattle.text_types.specs.Aliases.{aliases_of};
ghost use Rattle.text_types.specs.Items.{begun};
ghost use Rattle.text_types.specs.Marks.{marked};
ghost use Rattle.text_types.specs.Stack.{AliasesWithin, Stands, alias_terms};
ghost use Rattle.type_kinds.specs.Counts.{first_miscount};
ghost use Rattle.type_kinds.specs.Depths.{first_deep_attr, first_deep_type};
ghost use Rattle.type_kinds.specs.Parts.{first_part};
ghost use Rattle.use_kinds.specs.Clashes.{first_clash};
ghost use Rattle.text_kinds.specs.declared.found.Kind.TheVariants.{IntegerRange, TypeCount, TypeDepth, AttrDepth, Parts, UndefinedBlock, UndefinedValue};
ghost use Rattle.text_kinds.specs.Plain.{found_at};
ghost use Rattle.text_refusals.specs.Findings.{begun_at};
ghost use Rattle.text_refusals.specs.Placed.{ArePlaced};
ghost use Rattle.text_refusals.specs.Refusing.{kinds_of_types, typed_kinds, used_kinds};
ghost use Rattle.text_refusals.specs.Spelling.{indexes_of, spelling_of};

use crate::places::restore;
use crate::spells::Spells;
use std::alloc::{AllocError, Global};
use term_table::Terms;
use text_events::Event;
use text_grammar::Place;
use text_kinds::{Found, Kind};
use text_scopes::{Class, Names, Uses, resolve};
use text_types::{AliasNumbers, aliases_at, begun_at, mark};
use type_kinds::{
    first_attr_too_deep, first_out_of_range, first_part_too_many, first_type_count,
    first_type_too_deep,
};
use use_kinds::first_clash;

fn found_at(kind: Kind, place: Option<usize>) -> Option<Found>
    ensures { result ≡ found_at kind place }
{
    match place {
        Some(place) => Some(Found { place, kind }),
        None => None,
    }
}

/// The kinds that look at types, and the type or attribute that begins at each event.
#[derive(Drop)]
pub struct Typed {
    pub found: Vec<Option<Found>>,
    pub terms: Terms,
    pub begun: Vec<u32>,
}

/// Where each kind that looks at types stands first, and what begins at each event. `uses` are the definitions of the uses of
/// values. The events are marked in place, and then as they were, each at the place that stands for it.
pub fn typed_kinds(
    alloc: Global,
    words: &Spells<'_>,
    uses: &[Option<u32>],
    events: &mut [Event],
    places: &[Place],
) -> Result<Typed, AllocError>
    requires few { length events.old < 2 ^ 32 }
    requires placed { ArePlaced events.old places.now }
    ensures same { OnOk result (events.new ≡ events.old) }
    ensures found { (class : ℕ → Class) → uses.now ≡ tables.definitions Values class events.old → IfOk result (λ t. t.found.items ≡ typed_kinds (spelling_of words.now.source.text.now words.now.source.words.now) (indexes_of words.now.source.text.now words.now.source.words.now) class events.old) }
    ensures begun { IfOk result (λ t. Stands t.terms.nodes.keys t.begun.items (begun_at (spelling_of words.now.source.text.now words.now.source.words.now) events.old)) }
{
    mark_few(alloc, events)?;
    let typed = kinds_of_marked(alloc, words, uses, events)?;
    restore(events, places);
    Ok(typed)
}

/// Marks the function types of the events.
fn mark_few(alloc: Global, events: &mut [Event]) -> Result<(), AllocError>
    ensures is { OnOk result (events.new ≡ marked events.old) }
    ensures same { OnOk result (length events.new ≡ length events.old) }
{
    mark(alloc, events)
}

fn kinds_of_marked(
    alloc: Global,
    words: &Spells<'_>,
    uses: &[Option<u32>],
    events: &[Event],
) -> Result<Typed, AllocError>
    requires { length events.now < 2 ^ 32 }
    ensures found { (class : ℕ → Class) → uses.now ≡ tables.definitions Values class events.now → IfOk result (λ t. t.found.items ≡ kinds_of_types (spelling_of words.now.source.text.now words.now.source.words.now) (indexes_of words.now.source.text.now words.now.source.words.now) (aliases_of (spelling_of words.now.source.text.now words.now.source.words.now) events.now) class events.now) }
    ensures begun { IfOk result (λ t. Stands t.terms.nodes.keys t.begun.items (begun (spelling_of words.now.source.text.now words.now.source.words.now) (aliases_of (spelling_of words.now.source.text.now words.now.source.words.now) events.now) events.now)) }
{
    let mut terms = Terms::new(alloc);
    let aliases = aliases_at(alloc, words, &mut terms, events)?;
    let range = first_out_of_range(words, &aliases, &terms, events);
    let written = written_kinds(alloc, words, &aliases, &mut terms, uses, events)?;
    let found = list_of(alloc, range, written.count, written.clash, events)?;
    Ok(Typed {
        found,
        terms,
        begun: written.begun,
    })
}

/// The first function type with another number of types than its operation has, the first use that clashes with its definition, and
/// what begins at each event.
#[derive(Drop)]
struct Written {
    count: Option<usize>,
    clash: Option<Found>,
    begun: Vec<u32>,
}

fn written_kinds(
    alloc: Global,
    words: &Spells<'_>,
    aliases: &AliasNumbers,
    terms: &mut Terms,
    uses: &[Option<u32>],
    events: &[Event],
) -> Result<Written, AllocError>
    requires aliases { AliasesWithin (length terms.old.nodes.keys) aliases.now }
    requires room { length events.now < 2 ^ 32 }
    ensures count { IfOk result (λ w. w.count ≡ first_miscount (spelling_of words.now.source.text.now words.now.source.words.now) (alias_terms terms.old.nodes.keys aliases.now) events.now) }
    ensures clash { (class : ℕ → Class) → uses.now ≡ tables.definitions Values class events.now → IfOk result (λ w. w.clash ≡ first_clash (spelling_of words.now.source.text.now words.now.source.words.now) (indexes_of words.now.source.text.now words.now.source.words.now) (alias_terms terms.old.nodes.keys aliases.now) class events.now) }
    ensures begun { IfOk result (λ w. Stands terms.new.nodes.keys w.begun.items (begun (spelling_of words.now.source.text.now words.now.source.words.now) (alias_terms terms.old.nodes.keys aliases.now) events.now)) }
{
    let begun = begun_at(alloc, words, aliases, terms, events)?;
    let count = first_type_count(alloc, words, terms, events, &begun)?;
    let clash = first_clash(alloc, words, terms, events, &begun, uses)?;
    Ok(Written {
        count,
        clash,
        begun,
    })
}

fn list_of(
    alloc: Global,
    range: Option<usize>,
    count: Option<usize>,
    clash: Option<Found>,
    events: &[Event],
) -> Result<Vec<Option<Found>>, AllocError>
    ensures { IfOk result (λ v. v.items ≡ found_at IntegerRange range ∷ found_at TypeCount count ∷ found_at TypeDepth (first_deep_type events.now) ∷ found_at AttrDepth (first_deep_attr events.now) ∷ found_at Parts (first_part events.now) ∷ clash ∷ []) }
{
    let type_depth = first_type_too_deep(alloc, events)?;
    let attr_depth = first_attr_too_deep(alloc, events)?;
    let parts = first_part_too_many(alloc, events)?;
    let mut all = Vec::with_capacity(alloc, 6)?;
    all.push(found_at(Kind::IntegerRange, range))?;
    all.push(found_at(Kind::TypeCount, count))?;
    all.push(found_at(Kind::TypeDepth, type_depth))?;
    all.push(found_at(Kind::AttrDepth, attr_depth))?;
    all.push(found_at(Kind::Parts, parts))?;
    all.push(clash)?;
    Ok(all)
}

/// The definitions of the uses of a text.
#[derive(Drop)]
pub struct Resolved {
    pub values: Uses,
    pub labels: Uses,
}

/// The definition for which each use stands.
pub fn resolve_names(
    alloc: Global,
    classes: &[Class],
    events: &[Event],
) -> Result<Resolved, AllocError>
    requires { length events.now < 2 ^ 32 }
    ensures values { IfOk result (λ r. r.values.definitions.items ≡ tables.definitions Values (class_in classes.now) events.now) }
    ensures labels { IfOk result (λ r. r.labels.definitions.items ≡ tables.definitions Labels (class_in classes.now) events.now) }
    ensures used { IfOk result (λ r. found_at UndefinedValue r.values.undefined ∷ found_at UndefinedBlock r.labels.undefined ∷ [] ≡ used_kinds (class_in classes.now) events.now) }
{
    let values = resolve(alloc, Names::Values, classes, events)?;
    let labels = resolve(alloc, Names::Labels, classes, events)?;
    Ok(Resolved { values, labels })
}

/// The first uses that stand for nothing.
pub fn used_kinds(alloc: Global, uses: &Resolved) -> Result<Vec<Option<Found>>, AllocError>
    ensures { IfOk result (λ v. v.items ≡ found_at UndefinedValue uses.now.values.undefined ∷ found_at UndefinedBlock uses.now.labels.undefined ∷ []) }
{
    let mut all = Vec::with_capacity(alloc, 2)?;
    all.push(found_at(Kind::UndefinedValue, uses.values.undefined))?;
    all.push(found_at(Kind::UndefinedBlock, uses.labels.undefined))?;
    Ok(all)
}
