//! What is counted of a text.

ghost use Rattle.std.specs.Prelude.{◌≡◌, ◌+◌, ◌<◌, ◌≤◌, ◌^◌};
ghost use Rattle.text_scopes.specs.Bodies.{class_in, opens_body};
ghost use Rattle.text_kinds.specs.Tallies.{Within, begins_block, blocks_behind, counted, is_operand, names_function, names_operation, one_if, opens_region, operands_behind, region_depth};

use crate::classes::is_function;
use text_events::Event;
use text_grammar::Place;
use text_scopes::{Body, Class, behind, class_of, is_module, opens_body};

/// What stands before an event.
#[derive(Clone, Copy, Drop)]
pub struct Tally {
    pub body: Body,
    /// Whether a region begins right before.
    pub fresh: bool,
    pub functions: usize,
    pub operations: usize,
    /// The blocks of the last function.
    pub blocks: usize,
    /// The operands of the last operation.
    pub operands: usize,
}

/// What stands before the next event; `index` is the number of this one.
#[inline(always)]
pub fn counted(classes: &[Class], tally: Tally, event: Event, index: usize) -> Tally
    requires room { index + 1 < 2 ^ 64 }
    requires within { Within index tally }
    ensures is { result ≡ counted (class_in classes.now) tally event }
    ensures within { Within (index + 1) result }
{
    Tally {
        body: behind(classes, tally.body, event),
        fresh: opens_region(event.place),
        functions: one_if(names_function(classes, event), tally.functions),
        operations: one_if(names_operation(classes, event), tally.operations),
        blocks: blocks_behind(tally, event.place),
        operands: operands_behind(tally.operands, event.place),
    }
}

fn one_if(counts: bool, number: usize) -> usize
    requires { number + 1 < 2 ^ 64 }
    ensures is { result ≡ one_if counts number }
    ensures bound { result ≤ number + 1 }
{
    if counts { number + 1 } else { number }
}

pub fn names_function(classes: &[Class], event: Event) -> bool
    ensures { result ≡ names_function (class_in classes.now) event }
{
    match event.place {
        Place::OpName => is_function(class_of(classes, event.name)),
        _ => false,
    }
}

pub fn names_operation(classes: &[Class], event: Event) -> bool
    ensures { result ≡ names_operation (class_in classes.now) event }
{
    match event.place {
        Place::OpName => !is_module(class_of(classes, event.name)),
        _ => false,
    }
}

#[inline(always)]
pub fn begins_block(tally: Tally, place: Place) -> bool
    ensures { result ≡ begins_block tally place }
{
    match place {
        Place::BlockLabel => tally.body.within != 0,
        Place::ResultName | Place::OpName => {
            if tally.body.within == 0 {
                false
            } else {
                tally.fresh
            }
        }
        _ => false,
    }
}

pub fn is_operand(place: Place) -> bool
    ensures { result ≡ is_operand place }
{
    match place {
        Place::UseName => true,
        _ => false,
    }
}

pub fn opens_region(place: Place) -> bool
    ensures { result ≡ opens_region place }
{
    match place {
        Place::RegionOpen => true,
        _ => false,
    }
}

fn blocks_behind(tally: Tally, place: Place) -> usize
    requires { tally.blocks + 1 < 2 ^ 64 }
    ensures is { result ≡ blocks_behind tally place }
    ensures bound { result ≤ tally.blocks + 1 }
{
    match place {
        Place::OpName => {
            if tally.body.within == 0 {
                0
            } else {
                one_if(tally.fresh, tally.blocks)
            }
        }
        _ => one_if(begins_block(tally, place), tally.blocks),
    }
}

fn operands_behind(operands: usize, place: Place) -> usize
    requires { operands + 1 < 2 ^ 64 }
    ensures is { result ≡ operands_behind operands place }
    ensures bound { result ≤ operands + 1 }
{
    match place {
        Place::OperandsOpen => 0,
        Place::UseName => operands + 1,
        _ => operands,
    }
}

/// The depth of a region that begins.
pub fn region_depth(tally: Tally) -> usize
    requires { tally.body.within + 2 < 2 ^ 64 }
    ensures { result ≡ region_depth tally }
{
    if opens_body(tally.body) {
        1
    } else {
        tally.body.within + 2
    }
}
