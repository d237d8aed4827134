//! The law, as the contract of a function that does nothing.

ghost use Rattle.pass_own.specs.Passes.{PassesTakeOwn};

/// Each pass has a table of which the choices of a function ask no more.
pub fn law_passes_take_own()
    ensures { PassesTakeOwn }
{}
