//! Laws of these numbers, each the contract of a function that does nothing.

ghost use Rattle.row_numbers.specs.Promises.{Extremes, KeepsConstants, Roundings};

/// Division rounded up and down comes from the quotient towards zero, and unsigned division rounded up from that of one less.
pub fn law_roundings()
    ensures { Roundings }
{}

/// The greater and the less of two come from a comparison and a choice.
pub fn law_extremes()
    ensures { Extremes }
{}

/// A constant that is kept as the signed number that its bits are is the same constant.
pub fn law_constants()
    ensures { KeepsConstants }
{}
