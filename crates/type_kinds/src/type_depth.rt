//! The depth of types.

ghost use Rattle.std.specs.Prelude.{◌≡◌, ◌+◌, ◌<◌, ◌≤◌, ◌^◌, IfOk, OnOk, length, reverse};
ghost use Rattle.text_types.specs.Marks.{first_or_false};
ghost use Rattle.type_kinds.specs.Depths.{closed, ended, first_deep_type, open_behind, type_depth, waiting};

use crate::begins::{Begin, begin_at, next_place};
use crate::tally::Tally;
use std::alloc::{AllocError, Global};
use text_events::Event;
use text_grammar::Place;

/// How deep a type or an attribute may be.
pub const MOST_DEPTH: u64 = 16;

/// The depth of the type that begins, 0 for none.
fn type_depth(begin: Begin, outer: u64, size: u32) -> u64
    requires { outer < 2 ^ 63 }
    ensures { result ≡ type_depth begin outer size }
{
    match begin {
        Begin::Type => outer + 1,
        Begin::TypeAlias => outer + size as u64,
        _ => 0,
    }
}

/// Whether the innermost type ends with the next one.
fn waits(outer: &[bool]) -> bool
    ensures { result ≡ first_or_false (reverse outer.now) }
{
    match outer.last() {
        Some(waits) => *waits,
        None => false,
    }
}

/// Behind the end of a type: the function types end of which it is the result.
fn end(outer: &mut Vec<bool>)
    ensures { reverse outer.new.items ≡ ended (reverse outer.old.items) }
{
    'each: while waits(outer) {
        let _ = outer.pop();
    }
}

/// Behind a sign that closes a type.
fn close(outer: &mut Vec<bool>)
    ensures { reverse outer.new.items ≡ closed (reverse outer.old.items) }
{
    if let Some(_) = outer.pop() {
        end(outer);
    }
}

/// The innermost type ends with the next one, or doesn't.
fn wait(outer: &mut Vec<bool>, waits: bool) -> Result<(), AllocError>
    ensures { OnOk result (reverse outer.new.items ≡ waiting waits (reverse outer.old.items)) }
{
    if let Some(_) = outer.pop() {
        outer.push(waits)?;
    }
    Ok(())
}

/// The types that are open behind a place.
fn pass_open(outer: &mut Vec<bool>, place: Place) -> Result<(), AllocError>
    ensures { OnOk result (reverse outer.new.items ≡ open_behind place (reverse outer.old.items)) }
{
    match place {
        Place::IntegerWord
        | Place::ElementWord
        | Place::TypeAlias
        | Place::ElementAlias
        | Place::LlvmPlain
        | Place::InnerPlain => {
            end(outer);
            Ok(())
        }
        Place::LlvmStruct
        | Place::InnerStruct
        | Place::LlvmArray
        | Place::InnerArray
        | Place::LlvmFunction
        | Place::InnerFunction
        | Place::MemrefWord
        | Place::FunctionOpen => {
            outer.push(false)?;
            Ok(())
        }
        Place::StructGreater
        | Place::ArrayGreater
        | Place::LlvmFunctionGreater
        | Place::MemrefGreater
        | Place::ResultsClose => {
            close(outer);
            Ok(())
        }
        Place::FunctionArrow => wait(outer, true),
        Place::ResultsOpen => wait(outer, false),
        _ => Ok(()),
    }
}

/// The first type that is deeper than types may be.
pub fn first_type_too_deep(alloc: Global, events: &[Event]) -> Result<Option<usize>, AllocError>
    ensures { IfOk result (λ found. found ≡ first_deep_type events.now) }
{
    let mut tally = Tally::new(alloc);
    let mut outer = Vec::new(alloc);
    'each: for (index, event) in events.iter().enumerate() {
        let begin = begin_at(event.place, tally.minus, next_place(events, index));
        let depth = type_depth(begin, outer.len() as u64, tally.size(event.name));
        if depth > MOST_DEPTH {
            return Ok(Some(index));
        }
        let amount = tally.amount.max(depth as u32);
        tally.pass(*event, amount)?;
        pass_open(&mut outer, event.place)?;
    }
    Ok(None)
}
