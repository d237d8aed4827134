//! Laws of types that are read, each the contract of a function that does nothing.

ghost use Rattle.begun_types.specs.Laws.{TextTypesBegin, TypesBegin};

/// In the words of a text in which each alias of a type that is used stands for something, each function type begins a term that is one, and each type of an argument begins a term.
pub fn law_types_begin()
    ensures { TypesBegin }
{}

/// The same of each whole text at whose words looking ends nowhere, with the aliases that it defines.
pub fn law_text_types_begin()
    ensures { TextTypesBegin }
{}
