//! What one operation comes to.

ghost use Rattle.std.specs.Prelude.{◌≡◌};
ghost use Rattle.step_code.specs.Turns.{turn_of};

use frame_code::Moving;
use run_code::{Callee, Packing};
use value_code::ValueList;

/// Why a run stops before its function returns.
#[derive(Clone, Copy, PartialEq, Eq, Debug)]
pub enum Stop {
    /// No fuel is left.
    More,
    Undefined,
    /// It is outside of what has a meaning.
    Outside,
    /// Memory is short.
    NoRoom,
}

/// What one operation comes to.
#[derive(Drop)]
pub enum Turn<'a> {
    /// The place has moved on.
    Went,
    /// It calls a function with these values. The results are taken from what that returns, and bound to these numbers.
    Calls(&'a Callee, ValueList, Packing, &'a [u32]),
    /// The function returns these values.
    Returns(ValueList),
    Stops(Stop),
}

/// A move of the place as a turn.
pub fn turned(m: Moving) -> Turn<'static>
    ensures { result ≡ turn_of m }
{
    match m {
        Moving::Went => Turn::Went,
        Moving::Undefined => Turn::Stops(Stop::Undefined),
        Moving::Outside => Turn::Stops(Stop::Outside),
    }
}
