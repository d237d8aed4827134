//! The form of the module that is the first operation of a file.

ghost use Rattle.std.specs.Prelude.{◌≡◌, ◌+◌, ◌<◌, ◌≤◌, ◌^◌, length};
ghost use Rattle.text_scopes.specs.Bodies.{class_in};
ghost use Rattle.text_kinds.specs.Shapes.{before_behind, brackets_behind, decides, ends_type, ends_wrong, header_behind, inside_behind, is_result, located_behind, named_behind, refused_module, region_behind, shape_behind, typed_behind};

use text_events::Event;
use text_grammar::Place;
use text_scopes::{Class, class_of, is_module};

/// How far the first operation is read.
#[derive(Clone, Copy, Drop)]
pub enum Phase {
    /// No operation has a name yet.
    Before,
    /// It is a module: from its name to the arrow of its type.
    Named,
    /// Its result types.
    Typed,
    /// Its location.
    Located,
    /// What comes behind it.
    Behind,
    /// It is no module.
    Other,
}

/// What is known of the module.
#[derive(Clone, Copy, Drop)]
pub struct Shape {
    pub phase: Phase,
    /// The number of its name among the events.
    pub place: usize,
    /// How many regions are open.
    pub depth: usize,
    /// Whether it has a region.
    pub region: bool,
    /// Whether its region has a block.
    pub block: bool,
    /// Whether its form is wrong.
    pub wrong: bool,
    /// How many signs that stand in pairs are open in its result types.
    pub brackets: usize,
    /// Whether its result types may end here.
    pub ended: bool,
}

/// The name of the module that is the first operation, if it has a wrong form or is not alone.
pub fn refused_module(classes: &[Class], events: &[Event]) -> Option<usize>
    requires { length events.now < 2 ^ 32 }
    ensures { result ≡ refused_module (class_in classes.now) events.now }
{
    let mut shape = Shape {
        phase: Phase::Before,
        place: 0,
        depth: 0,
        region: false,
        block: false,
        wrong: false,
        brackets: 0,
        ended: false,
    };
    for event in events {
        if decides(shape, event.place) {
            return Some(shape.place);
        }
        shape = shape_behind(classes, shape, *event);
    }
    if ends_wrong(shape) {
        Some(shape.place)
    } else {
        None
    }
}

fn shape_behind(classes: &[Class], s: Shape, event: Event) -> Shape
    requires place { s.place + 1 < 2 ^ 64 }
    requires depth { s.depth + 1 < 2 ^ 64 }
    requires brackets { s.brackets + 1 < 2 ^ 64 }
    ensures is { result ≡ shape_behind (class_in classes.now) s event }
    ensures place { result.place ≤ s.place + 1 }
    ensures depth { result.depth ≤ s.depth + 2 }
    ensures brackets { result.brackets ≤ s.brackets + 1 }
{
    match s.phase {
        Phase::Before => before_behind(classes, s, event),
        Phase::Named => named_behind(s, event.place),
        Phase::Typed => typed_behind(s, event.place),
        Phase::Located => located_behind(s, event.place),
        Phase::Behind => s,
        Phase::Other => s,
    }
}

fn before_behind(classes: &[Class], s: Shape, event: Event) -> Shape
    requires { s.place + 1 < 2 ^ 64 }
    ensures is { result ≡ before_behind (class_in classes.now) s event }
    ensures place { result.place ≤ s.place + 1 }
    ensures depth { result.depth ≤ s.depth }
    ensures brackets { result.brackets ≤ s.brackets }
{
    match event.place {
        Place::OpName => {
            if is_module(class_of(classes, event.name)) {
                Shape {
                    phase: Phase::Named,
                    ..s
                }
            } else {
                Shape {
                    phase: Phase::Other,
                    ..s
                }
            }
        }
        Place::ResultName => Shape {
            place: s.place + 1,
            wrong: true,
            ..s
        },
        _ => Shape {
            place: s.place + 1,
            ..s
        },
    }
}

fn named_behind(s: Shape, place: Place) -> Shape
    requires { s.depth + 1 < 2 ^ 64 }
    ensures is { result ≡ named_behind s place }
    ensures place { result.place ≤ s.place }
    ensures depth { result.depth ≤ s.depth + 2 }
    ensures brackets { result.brackets ≤ s.brackets }
{
    match s.depth {
        0 => header_behind(s, place),
        1 => region_behind(s, place),
        _ => inside_behind(s, place),
    }
}

fn header_behind(s: Shape, place: Place) -> Shape
    ensures is { result ≡ header_behind s place }
    ensures place { result.place ≤ s.place }
    ensures depth { result.depth ≤ s.depth + 1 }
    ensures brackets { result.brackets ≤ s.brackets }
{
    match place {
        Place::UseName => Shape { wrong: true, ..s },
        Place::SuccessorName => Shape { wrong: true, ..s },
        Place::RegionOpen => Shape {
            depth: 1,
            region: true,
            wrong: s.wrong || s.region,
            ..s
        },
        Place::SignatureColon => Shape {
            wrong: s.wrong || !s.region,
            ..s
        },
        Place::SignatureArrow => Shape {
            phase: Phase::Typed,
            ..s
        },
        _ => s,
    }
}

fn region_behind(s: Shape, place: Place) -> Shape
    ensures is { result ≡ region_behind s place }
    ensures place { result.place ≤ s.place }
    ensures depth { result.depth ≤ s.depth + 2 }
    ensures brackets { result.brackets ≤ s.brackets }
{
    match place {
        Place::RegionOpen => Shape { depth: 2, ..s },
        Place::RegionClose => Shape { depth: 0, ..s },
        Place::BlockLabel => Shape {
            block: true,
            wrong: s.wrong || s.block,
            ..s
        },
        Place::ArgName => Shape { wrong: true, ..s },
        Place::OpName => Shape { block: true, ..s },
        Place::ResultName => Shape { block: true, ..s },
        _ => s,
    }
}

fn inside_behind(s: Shape, place: Place) -> Shape
    requires { s.depth + 1 < 2 ^ 64 }
    ensures is { result ≡ inside_behind s place }
    ensures place { result.place ≤ s.place }
    ensures depth { result.depth ≤ s.depth + 1 }
    ensures brackets { result.brackets ≤ s.brackets }
{
    match place {
        Place::RegionOpen => Shape {
            depth: s.depth + 1,
            ..s
        },
        Place::RegionClose => Shape {
            depth: s.depth.saturating_sub(1),
            ..s
        },
        _ => s,
    }
}

fn typed_behind(s: Shape, place: Place) -> Shape
    requires { s.brackets + 1 < 2 ^ 64 }
    ensures is { result ≡ typed_behind s place }
    ensures place { result.place ≤ s.place }
    ensures depth { result.depth ≤ s.depth }
    ensures brackets { result.brackets ≤ s.brackets + 1 }
{
    match place {
        Place::LocWord => Shape {
            phase: Phase::Located,
            ..s
        },
        Place::TypeAliasName => Shape {
            phase: Phase::Behind,
            ..s
        },
        Place::AttrAliasName => Shape {
            phase: Phase::Behind,
            ..s
        },
        _ => Shape {
            wrong: s.wrong || is_result(place),
            brackets: brackets_behind(s.brackets, place),
            ended: ends_type(place),
            ..s
        },
    }
}

fn located_behind(s: Shape, place: Place) -> Shape
    ensures is { result ≡ located_behind s place }
    ensures place { result.place ≤ s.place }
    ensures depth { result.depth ≤ s.depth }
    ensures brackets { result.brackets ≤ s.brackets }
{
    match place {
        Place::LocClose => Shape {
            phase: Phase::Behind,
            ..s
        },
        _ => s,
    }
}

fn brackets_behind(brackets: usize, place: Place) -> usize
    requires { brackets + 1 < 2 ^ 64 }
    ensures is { result ≡ brackets_behind brackets place }
    ensures bound { result ≤ brackets + 1 }
{
    match place {
        Place::ResultsOpen
        | Place::FunctionOpen
        | Place::StructOpen
        | Place::ParametersOpen
        | Place::StructLess
        | Place::ArrayLess
        | Place::LlvmFunctionLess
        | Place::MemrefLess => brackets + 1,
        Place::ResultsClose
        | Place::FunctionClose
        | Place::StructClose
        | Place::ParametersClose
        | Place::StructGreater
        | Place::ArrayGreater
        | Place::LlvmFunctionGreater
        | Place::MemrefGreater => brackets.saturating_sub(1),
        _ => brackets,
    }
}

fn ends_type(place: Place) -> bool
    ensures { result ≡ ends_type place }
{
    match place {
        Place::IntegerWord
        | Place::TypeAlias
        | Place::LlvmPlain
        | Place::StructGreater
        | Place::ArrayGreater
        | Place::LlvmFunctionGreater
        | Place::MemrefGreater
        | Place::ResultsClose => true,
        _ => false,
    }
}

fn is_result(place: Place) -> bool
    ensures { result ≡ is_result place }
{
    match place {
        Place::ResultsOpen | Place::ResultsClose => false,
        _ => true,
    }
}

fn decides(s: Shape, place: Place) -> bool
    ensures { result ≡ decides s place }
{
    match s.phase {
        Phase::Typed => match place {
            Place::OpName | Place::ResultName => true,
            Place::TypeAliasName | Place::AttrAliasName => s.wrong,
            _ => false,
        },
        Phase::Located => match place {
            Place::LocClose => s.wrong,
            _ => false,
        },
        Phase::Behind => match place {
            Place::OpName | Place::ResultName => true,
            _ => false,
        },
        _ => false,
    }
}

fn ends_wrong(s: Shape) -> bool
    ensures { result ≡ ends_wrong s }
{
    match s.phase {
        Phase::Typed => s.wrong && s.ended && s.brackets == 0,
        _ => false,
    }
}
