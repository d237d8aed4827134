//! The law.

ghost use Rattle.first_places.specs.First.{OneFirst};

/// At most one place is the first at which a test holds, and none is where it holds nowhere.
pub fn law_one_first()
    ensures { OneFirst }
{}
