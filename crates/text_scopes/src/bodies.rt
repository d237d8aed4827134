//! Where an event stands: in the body of the module, or in an operation of the body.

ghost use Rattle.std.specs.Prelude.{◌≡◌, ◌+◌, ◌<◌, ◌≤◌, ◌^◌, ◌-◌, ◌==◌, true, if◌then◌else◌};
ghost use Rattle.text_scopes.specs.Bodies.{class_in, is_module, behind, opens_body};

use text_events::Event;
use text_grammar::Place;

/// What an operation's name is.
#[derive(Clone, Copy, Drop)]
pub enum Class {
    /// `builtin.module`.
    Module,
    /// `func.func` or `llvm.func`.
    Function,
    /// Another operation of the catalogue.
    Known,
    Unknown,
}

/// Where an event stands.
#[derive(Clone, Copy, Drop)]
pub struct Body {
    /// How many regions are open, but for those of the module.
    pub within: usize,
    /// Whether the last operation that no such region holds is a module.
    pub at_module: bool,
}

/// What the name is; those of no operation are `Unknown`.
#[inline(always)]
pub fn class_of(classes: &[Class], name: u32) -> Class
    ensures { result ≡ class_in classes.now name }
{
    let at = name as usize;
    if at < classes.len() {
        classes[at]
    } else {
        Class::Unknown
    }
}

pub fn is_module(class: Class) -> bool
    ensures { result ≡ is_module class }
{
    match class {
        Class::Module => true,
        _ => false,
    }
}

/// Whether a region that begins is the body of the module.
pub fn opens_body(body: Body) -> bool
    ensures { result ≡ opens_body body }
{
    if body.within == 0 {
        body.at_module
    } else {
        false
    }
}

/// Where the next event stands.
#[inline(always)]
pub fn behind(classes: &[Class], body: Body, event: Event) -> Body
    requires { body.within + 1 < 2 ^ 64 }
    ensures is { result ≡ behind (class_in classes.now) body event }
    ensures bound { result.within ≤ body.within + 1 }
{
    match event.place {
        Place::OpName => named(class_of(classes, event.name), body),
        Place::RegionOpen => opened(body),
        Place::RegionClose => closed(body),
        _ => body,
    }
}

fn named(class: Class, body: Body) -> Body
    ensures is { result ≡ (if body.within == 0 then record { within = 0; at_module = is_module class } else body) }
    ensures bound { result.within ≤ body.within + 1 }
{
    if body.within == 0 {
        Body {
            within: 0,
            at_module: is_module(class),
        }
    } else {
        body
    }
}

fn opened(body: Body) -> Body
    requires { body.within + 1 < 2 ^ 64 }
    ensures is { result ≡ (if opens_body body then body else record { within = body.within + 1; at_module = body.at_module }) }
    ensures bound { result.within ≤ body.within + 1 }
{
    if opens_body(body) {
        body
    } else {
        Body {
            within: body.within + 1,
            at_module: body.at_module,
        }
    }
}

fn closed(body: Body) -> Body
    ensures is { result ≡ (if body.within == 0 then record { within = 0; at_module = true } else record { within = body.within - 1; at_module = body.at_module }) }
    ensures bound { result.within ≤ body.within + 1 }
{
    if body.within == 0 {
        Body {
            within: 0,
            at_module: true,
        }
    } else {
        Body {
            within: body.within - 1,
            at_module: body.at_module,
        }
    }
}
