//! Laws of the rules, each the contract of a function that does nothing.

ghost use Rattle.rule_model.specs.Promises.{NothingIsBroken, OneAnswer, SearchIsRight, UseInFront, VerifiedRenames};
ghost use Rattle.rule_model.specs.Scopes.{DefinedByRegions, ReachedWithoutInFunction};

/// Whatever the search for the first broken rule answers is right. So examples that compute it show what the rules say.
pub fn law_search()
    ensures { SearchIsRight }
{}

/// At most one function, operation and rule is the first that is broken.
pub fn law_one_answer()
    ensures { OneAnswer }
{}

/// A formed module is verified exactly where none is the first.
pub fn law_nothing_broken()
    ensures { NothingIsBroken }
{}

/// What is verified stays so under a renaming of values and labels that is one-to-one in each function.
pub fn law_renaming()
    ensures { VerifiedRenames }
{}

/// In a block that is reached, a use in front of its definition isn't defined.
pub fn law_use_in_front()
    ensures { UseInFront }
{}

/// Rule `Defined` at each operation and region by region are the same; and where it is kept, an operation that is reached
/// without a value of the function's region doesn't use it freely.
pub fn law_regions()
    ensures same { DefinedByRegions }
    ensures free { ReachedWithoutInFunction }
{}
