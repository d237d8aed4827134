//! Laws of looks, each the contract of a function that does nothing.

ghost use Rattle.scope_laws.specs.Turns.{Across, FoundIsRight, Into};

/// Where a definition of a name is seen behind or ahead, one is seen behind turns in which each region that begins ends.
pub fn law_across()
    ensures { Across }
{}

/// A value that is seen where a region begins is seen in it.
pub fn law_into()
    ensures { Into }
{}

/// Where a definition is seen, and each that looks may find is right, a use stands for one that is right.
pub fn law_found_is_right()
    ensures { FoundIsRight }
{}
