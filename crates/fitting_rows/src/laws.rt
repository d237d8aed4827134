//! Laws, each the contract of a function that does nothing.

ghost use Rattle.fitting_rows.specs.Promises.{ArithChosenFits, ExpandChosenFits};

/// What arith-expand or convert-arith-to-llvm chooses for an operation that fits is operations that fit, where an index has
/// 32 or 64 bits.
pub fn law_chosen_fits()
    ensures expand { ExpandChosenFits }
    ensures arith { ArithChosenFits }
{}
