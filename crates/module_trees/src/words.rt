//! The operations of a text, word by word from the right.

ghost use Rattle.std.specs.Prelude.{◌≡◌, ◌≤◌, ◌∷◌, [], ℕ, IfOk, OnOk, length, map, reverse};
ghost use Rattle.event_trees.specs.Levels as behind;
ghost use Rattle.event_trees.specs.Roles.{roles_of};
ghost use Rattle.event_trees.specs.Wording.{wording_of};
ghost use Rattle.module_trees.specs.Views.{AllWithin, PartsWithin, level_of, role_of};
ghost use Rattle.term_table.specs.Terms.{term_at};
ghost use Rattle.text_types.specs.Stack.{Within};
ghost use Rattle.module_trees.specs.Adds.{adds};

use crate::levels::{Level, Role, empty, in_level, with_region};
use std::alloc::{AllocError, Global};
use term_table::Terms;
use text_events::{Event, Source};
use text_grammar::Place;
use tree_model::OpTree;

/// Does to the innermost level what the word does.
fn on_first(
    alloc: Global,
    source: &Source<'_>,
    terms: &Terms,
    levels: &mut Vec<Level>,
    role: Role,
) -> Result<(), AllocError>
    requires term { role.term ≤ length terms.now.nodes.keys }
    requires within { AllWithin (length terms.now.nodes.keys) (reverse levels.old.items) }
    ensures is { OnOk result (map (level_of terms.now.nodes.keys) (reverse levels.new.items)
        ≡ behind.on_first (behind.in_level (wording_of source.now.text.now source.now.words.now) (role_of terms.now.nodes.keys role)) (map (level_of terms.now.nodes.keys) (reverse levels.old.items))) }
    ensures within { OnOk result (AllWithin (length terms.now.nodes.keys) (reverse levels.new.items)) }
{
    let Some(level) = levels.pop() else {
        return Ok(());
    };
    levels.push(in_level(alloc, source, terms, level, role)?)?;
    Ok(())
}

/// A region begins: the innermost level becomes a part of the one around it.
fn close_over(
    alloc: Global,
    terms: &Terms,
    levels: &mut Vec<Level>,
    label: u32,
) -> Result<(), AllocError>
    requires { AllWithin (length terms.now.nodes.keys) (reverse levels.old.items) }
    ensures is { OnOk result (map (level_of terms.now.nodes.keys) (reverse levels.new.items) ≡ behind.closed_over label (map (level_of terms.now.nodes.keys) (reverse levels.old.items))) }
    ensures within { OnOk result (AllWithin (length terms.now.nodes.keys) (reverse levels.new.items)) }
{
    let Some(inner) = levels.pop() else {
        return Ok(());
    };
    match levels.pop() {
        Some(outer) => levels.push(with_region(alloc, label, inner, outer)?)?,
        None => levels.push(inner)?,
    }
    Ok(())
}

/// Whether a word at the place adds to its region.
fn adds(place: Place) -> bool
    ensures { result ≡ adds place }
{
    match place {
        Place::OpName
        | Place::ArgName
        | Place::BlockLabel
        | Place::UseName
        | Place::SuccessorName
        | Place::PropsOpen
        | Place::DictOpen
        | Place::SignatureOpen => true,
        _ => false,
    }
}

/// With a word before what stands behind it.
fn with_word(
    alloc: Global,
    source: &Source<'_>,
    terms: &Terms,
    levels: &mut Vec<Level>,
    role: Role,
) -> Result<(), AllocError>
    requires term { role.term ≤ length terms.now.nodes.keys }
    requires within { AllWithin (length terms.now.nodes.keys) (reverse levels.old.items) }
    ensures is { OnOk result (map (level_of terms.now.nodes.keys) (reverse levels.new.items)
        ≡ behind.with_word (wording_of source.now.text.now source.now.words.now) (role_of terms.now.nodes.keys role) (map (level_of terms.now.nodes.keys) (reverse levels.old.items))) }
    ensures within { OnOk result (AllWithin (length terms.now.nodes.keys) (reverse levels.new.items)) }
{
    match role.place {
        Place::RegionClose => {
            levels.push(empty(alloc))?;
            Ok(())
        }
        Place::RegionOpen => close_over(alloc, terms, levels, role.number),
        _ => {
            if !adds(role.place) {
                return Ok(());
            }
            on_first(alloc, source, terms, levels, role)
        }
    }
}

/// What stands behind the first word, with it.
fn levels_of(
    alloc: Global,
    source: &Source<'_>,
    terms: &Terms,
    events: &[Event],
    meant: &[u32],
    begun: &[u32],
) -> Result<Vec<Level>, AllocError>
    requires meant { length events.now ≡ length meant.now }
    requires begun { length events.now ≡ length begun.now }
    requires within { Within (length terms.now.nodes.keys) begun.now }
    ensures { IfOk result (λ ls. map (level_of terms.now.nodes.keys) (reverse ls.items)
        ≡ behind.levels_of (wording_of source.now.text.now source.now.words.now) (roles_of events.now meant.now (map (term_at terms.now.nodes.keys) begun.now))) }
{
    let mut levels = Vec::new(alloc);
    levels.push(empty(alloc))?;
    let mut index = events.len();
    'each: while index > 0 {
        index -= 1;
        let role = Role {
            place: events[index].place,
            name: events[index].name,
            number: meant[index],
            term: begun[index],
        };
        with_word(alloc, source, terms, &mut levels, role)?;
    }
    Ok(levels)
}

/// The operations of a file.
pub fn ops_at(
    alloc: Global,
    source: &Source<'_>,
    terms: &Terms,
    events: &[Event],
    meant: &[u32],
    begun: &[u32],
) -> Result<Vec<OpTree>, AllocError>
    requires meant { length events.now ≡ length meant.now }
    requires begun { length events.now ≡ length begun.now }
    requires within { Within (length terms.now.nodes.keys) begun.now }
    ensures { IfOk result (λ ops. ops.items ≡ behind.ops_of (behind.levels_of (wording_of source.now.text.now source.now.words.now) (roles_of events.now meant.now (map (term_at terms.now.nodes.keys) begun.now)))) }
{
    let mut levels = levels_of(alloc, source, terms, events, meant, begun)?;
    let Some(level) = levels.pop() else {
        return Ok(Vec::new(alloc));
    };
    let mut ops = level.ops;
    ops.reverse();
    Ok(ops)
}
