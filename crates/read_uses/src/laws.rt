//! Laws of uses, each the contract of a function that does nothing.

ghost use Rattle.read_uses.specs.Laws.{FinerForm, FunctionBehind, IndexInRange, ReadsAsRun, ReadsFinely};

/// What the grammar reads is operations and aliases, where each operation has the names of its results before it, and its operands behind its name.
pub fn law_reads_finely()
    ensures { ReadsFinely }
{}

/// The events of each text that reads as a module are such a file of moves: each use finds a definition with which it does not clash, and no function type has other numbers of types than were counted before it.
pub fn law_reads_as_run()
    ensures { ReadsAsRun }
{}

/// At a move of a use whose type is something, and at which as at its definition the types are whole, the index of the use is one of the values that the definition has types for.
pub fn law_index_in_range()
    ensures { IndexInRange }
{}

/// Behind the name of an operation its function type begins, which is whole, whatever operands and regions stand between.
pub fn law_function_behind()
    ensures { FunctionBehind }
{}

/// What has the finer form has the form of a file.
pub fn law_finer_form()
    ensures { FinerForm }
{}
