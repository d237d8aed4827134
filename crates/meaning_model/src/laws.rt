//! Laws of the meanings, each the contract of a function that does nothing.

ghost use Rattle.meaning_model.specs.Promises.{AlwaysRoom, MoreFuel, MoreFuelCells, SameForms};

/// The structured meaning and the machine come to the same at every fuel.
pub fn law_forms()
    ensures { SameForms }
{}

/// A run that has ended stays as it is with more fuel, and another one goes on from its trace and needs no less memory.
pub fn law_more_fuel()
    ensures structured { MoreFuel }
    ensures cells { MoreFuelCells }
{}

/// The structured meaning never ends for want of room.
pub fn law_always_room()
    ensures { AlwaysRoom }
{}
