//! The words of a printed module: its text is the text of these words, the lexer cuts exactly them, and the grammar reads them as a file.
//!
//! A crate of definitions with their laws.
#![tactic(auto)]

ghost use Rattle.printed_modules.specs.ModuleWords.{ModulesAreCut, ModulesAreRead, TextOfModules};

/// The printed text of a module is the text of its words.
pub fn law_text_of_modules()
    ensures { TextOfModules }
{}

/// It is cut into exactly these words, without a fault.
pub fn law_modules_are_cut()
    ensures { ModulesAreCut }
{}

/// They are a file of the grammar, and the machine finds their places.
pub fn law_modules_are_read()
    ensures { ModulesAreRead }
{}
