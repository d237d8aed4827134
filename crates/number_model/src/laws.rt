//! Laws of the arithmetic, each the contract of a function that does nothing.

ghost use Rattle.number_model.specs.Promises.{DifferencesWrap, DividesDown, DividesTowardsZero, DividesUp, ProductsWrap, ResizesToWidth, StaysInWidth, SumsWrap};

/// Each operation gives a number of its width.
pub fn law_widths()
    ensures binary { StaysInWidth }
    ensures resized { ResizesToWidth }
{}

/// Without flags, sums, differences and products are those of the integers modulo 2 to the width.
pub fn law_wrapping()
    ensures sums { SumsWrap }
    ensures differences { DifferencesWrap }
    ensures products { ProductsWrap }
{}

/// Division by signed numbers: towards zero with a remainder, up, and down.
pub fn law_division()
    ensures towards_zero { DividesTowardsZero }
    ensures up { DividesUp }
    ensures down { DividesDown }
{}
