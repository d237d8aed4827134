//! The law of printed trees, the contract of a function that does nothing.

ghost use Rattle.printed_trees.specs.Laws.{ModulesDenote};

/// Events that have the words of a module denote it, where the numbers at the definitions of its uses are those of the values and labels that are used.
pub fn law_modules_denote()
    ensures { ModulesDenote }
{}
