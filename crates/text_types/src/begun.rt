//! The type or attribute that begins at each event, by number.

ghost use Rattle.std.specs.Prelude.{◌≡◌, ◌≤◌, ℕ, List, IfOk, OnOk, length, map, reverse};
ghost use Rattle.term_table.specs.declared.node.Node.{Node};
ghost use Rattle.term_table.specs.Terms.{Grows, term_at};
ghost use Rattle.text_types.specs.Actions.{actions_at};
ghost use Rattle.text_types.specs.Items.{acted_both, begun, first_of};
ghost use Rattle.text_types.specs.Stack.{AliasesWithin, Stands, Within, alias_terms};

use crate::action_rows::actions_of;
use crate::alias_numbers::AliasNumbers;
use crate::spelled::Spelled;
use crate::stack::act_both;
use std::alloc::{AllocError, Global};
use term_table::Terms;
use text_events::Event;
use text_grammar::Place;

/// The first number of the stack, 0 for none.
fn top(stack: &[u32]) -> u32
    ensures within { (last : ℕ) → Within last (reverse stack.now) → result ≤ last }
    ensures is { (nodes : List Node) → term_at nodes result ≡ first_of (map (term_at nodes) (reverse stack.now)) }
{
    match stack.last() {
        Some(number) => *number,
        None => 0,
    }
}

/// Does to the terms on the stack what the event does.
fn pass<S: Spelled>(
    words: &S,
    aliases: &AliasNumbers,
    terms: &mut Terms,
    stack: &mut Vec<u32>,
    event: Event,
    next: Option<Place>,
) -> Result<(), AllocError>
    requires aliases { AliasesWithin (length terms.old.nodes.keys) aliases.now }
    requires stack { Within (length terms.old.nodes.keys) (reverse stack.old.items) }
    ensures grows { Grows terms.old.nodes.keys terms.new.nodes.keys }
    ensures stands { OnOk result (Stands terms.new.nodes.keys (reverse stack.new.items)
        (acted_both (alias_terms terms.old.nodes.keys aliases.now event.name) (actions_at (S.spelling words.now) event.place event.name next) (map (term_at terms.old.nodes.keys) (reverse stack.old.items)))) }
{
    let alias = aliases.of(event.name);
    act_both(terms, stack, actions_of(words, event, next), alias)
}

/// The number of the type or attribute that begins at each event, 0 where none does.
pub fn begun_at<S: Spelled>(
    alloc: Global,
    words: &S,
    aliases: &AliasNumbers,
    terms: &mut Terms,
    events: &[Event],
) -> Result<Vec<u32>, AllocError>
    requires { AliasesWithin (length terms.old.nodes.keys) aliases.now }
    ensures grows { Grows terms.old.nodes.keys terms.new.nodes.keys }
    ensures begun { IfOk result (λ numbers. Stands terms.new.nodes.keys numbers.items (begun (S.spelling words.now) (alias_terms terms.old.nodes.keys aliases.now) events.now)) }
{
    let mut numbers = Vec::with_capacity(alloc, events.len())?;
    let mut stack = Vec::new(alloc);
    let mut next = None;
    let mut index = events.len();
    'each: while index > 0 {
        index -= 1;
        let event = events[index];
        pass(words, aliases, terms, &mut stack, event, next)?;
        numbers.push(top(&stack))?;
        next = Some(event.place);
    }
    numbers.reverse();
    Ok(numbers)
}
