//! The law of chosen derivations, the contract of a function that does nothing.

ghost use Rattle.chosen_laws.specs.Promises.{ChosenSound};

/// Where the rows of a table are sound each chosen derivation is: with its casts and the leaves of its products it does what
/// the operation does.
pub fn law_chosen()
    ensures { ChosenSound }
{}
