//! A table of the definitions in scope, with what it takes to leave a region again.

ghost use Rattle.std.specs.Prelude.{◌≡◌, ◌+◌, ◌<◌, ◌^◌, ◌++◌, ◌∷◌, ℕ, suc, true, IfOk, List, [], get_or, set, length, if◌then◌else◌};
ghost use Rattle.text_events.specs.declared.event.Event.{Event};
ghost use Rattle.text_scopes.specs.Seen.{Turn};
ghost use Rattle.text_scopes.specs.Names.{is_named};
ghost use Rattle.text_scopes.specs.Levels.{Level, Stands, from, levels, nothing};

use crate::steps::Step;
use std::alloc::AllocError;

/// What was before.
#[derive(Clone, Copy, Drop)]
pub enum Entry {
    /// A region began, in one whose first turn is this.
    Region(u32),
    /// A name had this definition.
    Was(u32, Option<u32>),
}

/// What it takes to leave the regions that are open.
#[derive(Drop)]
pub struct Scopes {
    /// Definitions before this turn are not seen.
    pub start: u32,
    pub log: Vec<Entry>,
}

/// The definition of the name that is seen.
#[inline(always)]
pub fn find(scopes: &Scopes, table: &[Option<u32>], name: u32) -> Option<u32>
    ensures { result ≡ from scopes.now.start (get_or table.now name None) }
{
    match slot(table, name) {
        Some(place) => {
            if scopes.start <= place {
                Some(place)
            } else {
                None
            }
        }
        None => None,
    }
}

/// What the table has of the name.
fn slot(table: &[Option<u32>], name: u32) -> Option<u32>
    ensures { result ≡ get_or table.now name None }
{
    let at = name as usize;
    if at < table.len() { table[at] } else { None }
}

/// Takes a turn: the table has the definitions that are seen behind it.
#[inline(always)]
pub fn take(
    outward: bool,
    step: Step,
    name: u32,
    place: u32,
    scopes: &mut Scopes,
    table: &mut [Option<u32>],
) -> Result<(), AllocError>
    requires known { is_named step ≡ true → name < length table.old }
    requires room { place + 1 < 2 ^ 32 }
    ensures { IfOk result (λ u. (before : List Turn) (e : Event) → e.name ≡ name → length before ≡ place → Stands scopes.old table.old (levels outward before) → Stands scopes.new table.new (levels outward ((step, e) ∷ before))) }
{
    match step {
        Step::Defines => {
            define(name, place, scopes, table)?;
            Ok(())
        }
        Step::Opens => {
            open(outward, place, scopes)?;
            Ok(())
        }
        Step::Closes => {
            close(scopes, table);
            Ok(())
        }
        Step::Ends => {
            end(scopes, table);
            Ok(())
        }
        Step::Uses => Ok(()),
        Step::Misses => Ok(()),
        Step::Stays => Ok(()),
    }
}

fn define(
    name: u32,
    place: u32,
    scopes: &mut Scopes,
    table: &mut [Option<u32>],
) -> Result<(), AllocError>
    requires { name < length table.old }
    ensures log { IfOk result (λ u. scopes.new.log.items ≡ scopes.old.log.items ++ Entry.Was name (get_or table.old name None) ∷ []) }
    ensures table { IfOk result (λ u. table.new ≡ set table.old name (Some place)) }
    ensures start { scopes.new.start ≡ scopes.old.start }
{
    let was = table[name as usize];
    scopes.log.push(Entry::Was(name, was))?;
    table[name as usize] = Some(place);
    Ok(())
}

fn open(outward: bool, place: u32, scopes: &mut Scopes) -> Result<(), AllocError>
    requires { place + 1 < 2 ^ 32 }
    ensures log { IfOk result (λ u. scopes.new.log.items ≡ scopes.old.log.items ++ Entry.Region scopes.old.start ∷ []) }
    ensures start { IfOk result (λ u. scopes.new.start ≡ (if outward then scopes.old.start else suc place)) }
{
    scopes.log.push(Entry::Region(scopes.start))?;
    scopes.start = start_inside(outward, scopes.start, place);
    Ok(())
}

fn start_inside(outward: bool, start: u32, place: u32) -> u32
    requires { place + 1 < 2 ^ 32 }
    ensures { result ≡ (if outward then start else suc place) }
{
    if outward { start } else { place + 1 }
}

fn put(table: &mut [Option<u32>], name: u32, was: Option<u32>)
    ensures { table.new ≡ set table.old name was }
{
    let at = name as usize;
    if at < table.len() {
        table[at] = was;
    }
}

/// Leaves the region.
fn close(scopes: &mut Scopes, table: &mut [Option<u32>])
    ensures { (levels : ℕ → Level) → Stands scopes.old table.old levels → Stands scopes.new table.new (λ d. levels (suc d)) }
{
    while let Some(entry) = scopes.log.pop() {
        match entry {
            Entry::Region(start) => {
                scopes.start = start;
                return;
            }
            Entry::Was(name, was) => put(table, name, was),
        }
    }
    scopes.start = 0;
}

/// Leaves all regions, and forgets all names.
fn end(scopes: &mut Scopes, table: &mut [Option<u32>])
    ensures { (levels : ℕ → Level) → Stands scopes.old table.old levels → Stands scopes.new table.new (λ d. nothing) }
{
    while let Some(entry) = scopes.log.pop() {
        if let Entry::Was(name, was) = entry {
            put(table, name, was);
        }
    }
    scopes.start = 0;
}
