//! Laws of states, each the contract of a function that does nothing.

ghost use Rattle.read_states.specs.Laws.{NothingBehind, OperationsLeave, OperationsStay};

/// Operations of a block leave what is around their region, and the function types that wait for a name.
pub fn law_operations_leave()
    ensures { OperationsLeave }
{}

/// Behind operations in a function the next event stands where they began.
pub fn law_operations_stay()
    ensures { OperationsStay }
{}

/// Behind the module of a file no operation comes.
pub fn law_nothing_behind()
    ensures { NothingBehind }
{}
