//! Laws of the patterns, each the contract of a function that does nothing.

ghost use Rattle.pattern_model.specs.Promises.{PassesDefineOnce, SuppliesAgree, TablesHold};

/// Each set has the patterns of the tables, in their order, each with its root and the names that it may make.
pub fn law_tables()
    ensures { TablesHold }
{}

/// Whatever the fresh supply of new numbers, a pass makes the same of a function, up to those numbers.
pub fn law_renaming()
    ensures { SuppliesAgree }
{}

/// What a pass makes of a function defines each number at most once, where the function does and its labels stand once each.
pub fn law_defined_once()
    ensures { PassesDefineOnce }
{}
