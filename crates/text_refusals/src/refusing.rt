//! What is found of a text, and its refusal.

ghost use Rattle.std.specs.Prelude.{◌≡◌, ◌≤◌, ◌<◌, ◌^◌, ◌++◌, ◌∷◌, [], IfOk, length, map, slice_get};
ghost use Rattle.text_events.specs.Names.{names_of};
ghost use Rattle.text_events.specs.Source.{events_of};
ghost use Rattle.text_refusals.specs.Classes.{classes_of};
ghost use Rattle.text_refusals.specs.Findings.{AreFindings, Finds};
ghost use Rattle.text_refusals.specs.Refusing.{Refuses, at_byte, at_word, before, end_kind, ended, events_seen};
ghost use Rattle.text_refusals.specs.Found.{seen_of};
ghost use Rattle.text_events.specs.Looking.{end_of, ending_of};
ghost use Rattle.text_kinds.specs.declared.found.Kind.TheVariants.{UndefinedBlock, UndefinedValue};
ghost use Rattle.text_kinds.specs.Kinds.{least};
ghost use Rattle.text_kinds.specs.Plain.{found_at};

use crate::classes::classes;
use crate::findings::Findings;
use crate::gathered::{Resolved, resolve_names, typed_kinds, used_kinds};
use crate::spells::Spells;
use std::alloc::{AllocError, Global};
use text_events::{EndKind, Ending, Event, Look, Source, events, find_ending, look_at, names};
use text_grammar::{Word, Words, cut};
use text_kinds::{Found, Kind, least, plain_kinds};
use text_scopes::Class;

/// The refusal of a text, by its byte; none where nothing refuses it. Unregistered operations are read where they are allowed.
pub fn refusal(alloc: Global, text: &[u8], allowed: bool) -> Result<Option<Found>, AllocError>
    requires { length text.now ≤ 2 ^ 24 }
    ensures { IfOk result (Refuses text.now allowed) }
{
    let findings = find(alloc, text, allowed)?;
    Ok(findings.refusal)
}

/// What is found of a text. Unregistered operations are read where they are allowed.
pub fn find(alloc: Global, text: &[u8], allowed: bool) -> Result<Findings, AllocError>
    requires { length text.now ≤ 2 ^ 24 }
    ensures { IfOk result (Finds text.now allowed) }
{
    let cut = cut(alloc, text)?;
    let names = names(alloc, text, &cut.words)?;
    if names.len() != cut.words.len() {
        return Err(AllocError);
    }
    let look = look_at(alloc, &cut.words, &names)?;
    findings_of(alloc, text, allowed, cut, names, look)
}

/// What is found of a text of which this was seen.
fn findings_of(
    alloc: Global,
    text: &[u8],
    allowed: bool,
    cut: Words,
    names: Vec<u32>,
    look: Look,
) -> Result<Findings, AllocError>
    requires { names.items ≡ names_of text.now cut.words.items }
    ensures { IfOk result (AreFindings text.now allowed (seen_of cut look)) }
{
    let classes = classes(alloc, text, &cut.words, &names)?;
    let events = seen_events(alloc, names, &look)?;
    judge(alloc, text, allowed, cut, look, classes, events)
}

/// The same, of these events.
fn judge(
    alloc: Global,
    text: &[u8],
    allowed: bool,
    cut: Words,
    look: Look,
    classes: Vec<Class>,
    events: Vec<Event>,
) -> Result<Findings, AllocError>
    requires few { length events.items < 2 ^ 32 }
    requires events { events.items ≡ events_seen text.now (seen_of cut look) }
    requires classes { classes.items ≡ classes_of text.now cut.words.items }
    ensures { IfOk result (AreFindings text.now allowed (seen_of cut look)) }
{
    let mut events = events;
    let plain = plain_kinds(alloc, &classes, allowed, &events)?;
    let uses = resolve_names(alloc, &classes, &events)?;
    let spells = Spells {
        source: Source {
            text,
            words: &cut.words,
        },
    };
    let definitions = &uses.values.definitions;
    let typed = typed_kinds(alloc, &spells, definitions, &mut events, &look.places)?;
    let refusal = soonest(alloc, text, &cut, &look, &plain, &typed.found, &uses)?;
    Ok(Findings {
        refusal,
        words: cut.words,
        classes,
        events,
        terms: typed.terms,
        begun: typed.begun,
        values: uses.values.definitions,
        labels: uses.labels.definitions,
    })
}

/// The events that are looked at.
fn seen_events(alloc: Global, names: Vec<u32>, look: &Look) -> Result<Vec<Event>, AllocError>
    ensures is { IfOk result (λ v. v.items ≡ before (end_of look.now.refusal look.now.whole (length look.now.places.items)) (events_of look.now.places.items names.items)) }
    ensures room { IfOk result (λ v. length v.items < 2 ^ 32) }
{
    let mut all = events(alloc, &look.places, &names)?;
    if let Some(count) = look.end() {
        all.truncate(count);
    }
    if u32::try_from(all.len()).is_err() {
        return Err(AllocError);
    }
    Ok(all)
}

/// The soonest of these refusals, of those of uses and of where looking ends.
fn soonest(
    alloc: Global,
    text: &[u8],
    cut: &Words,
    look: &Look,
    plain: &[Option<Found>],
    typed: &[Option<Found>],
    uses: &Resolved,
) -> Result<Option<Found>, AllocError>
    ensures { IfOk result (λ o. o ≡ least (map (at_byte cut.now.words.items) (plain.now ++ typed.now)
        ++ ended (ending_of (length text.now) cut.now.words.items cut.now.fault look.now.places.items look.now.whole look.now.refusal) ∷ [])
        (map (at_byte cut.now.words.items) (found_at UndefinedValue uses.now.values.undefined ∷ found_at UndefinedBlock uses.now.labels.undefined ∷ []))) }
{
    let end = ended(find_ending(text.len(), &cut.words, cut.fault, look));
    let others = others(alloc, &cut.words, plain, typed, end)?;
    let used = used_kinds(alloc, uses)?;
    let used = placed(alloc, &cut.words, &used)?;
    Ok(least(&others, &used))
}

/// All refusals but those of uses, by their bytes.
fn others(
    alloc: Global,
    words: &[Word],
    plain: &[Option<Found>],
    typed: &[Option<Found>],
    end: Option<Found>,
) -> Result<Vec<Option<Found>>, AllocError>
    ensures { IfOk result (λ v. v.items ≡ map (at_byte words.now) (plain.now ++ typed.now) ++ end ∷ []) }
{
    let mut found = plain.to_vec(alloc)?;
    found.extend_from_slice(typed)?;
    let mut all = placed(alloc, words, &found)?;
    all.push(end)?;
    Ok(all)
}

/// The refusals by their bytes.
fn placed(
    alloc: Global,
    words: &[Word],
    found: &[Option<Found>],
) -> Result<Vec<Option<Found>>, AllocError>
    ensures { IfOk result (λ v. v.items ≡ map (at_byte words.now) found.now) }
{
    let mut all = Vec::with_capacity(alloc, found.len())?;
    for one in found {
        all.push(at_byte(words, *one))?;
    }
    Ok(all)
}

/// The refusal at its byte.
fn at_byte(words: &[Word], found: Option<Found>) -> Option<Found>
    ensures { result ≡ at_byte words.now found }
{
    match found {
        Some(found) => at_word(found.kind, word_at(words, found.place)),
        None => None,
    }
}

fn word_at(words: &[Word], index: usize) -> Option<Word>
    ensures { result ≡ slice_get words.now index }
{
    words.get(index).copied()
}

fn at_word(kind: Kind, word: Option<Word>) -> Option<Found>
    ensures { result ≡ at_word kind word }
{
    match word {
        Some(word) => Some(Found {
            place: word.start as usize,
            kind,
        }),
        None => None,
    }
}

fn ended(end: Option<Ending>) -> Option<Found>
    ensures { result ≡ ended end }
{
    match end {
        Some(end) => Some(Found {
            place: end.place,
            kind: end_kind(end.kind),
        }),
        None => None,
    }
}

fn end_kind(kind: EndKind) -> Kind
    ensures { result ≡ end_kind kind }
{
    match kind {
        EndKind::BadByte => Kind::BadByte,
        EndKind::OpenString => Kind::OpenString,
        EndKind::BadEscape => Kind::BadEscape,
        EndKind::LongNumber => Kind::LongNumber,
        EndKind::Expected => Kind::Expected,
        EndKind::UnknownAlias => Kind::UnknownAlias,
        EndKind::UnsupportedType => Kind::UnsupportedType,
        EndKind::UnsupportedAttr => Kind::UnsupportedAttr,
    }
}
