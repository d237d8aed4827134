//! Texts written out, each the contract of a function that does nothing.
ghost use Rattle.tree_text.specs.Laws.{ArrayInArray, BitAttr, DialectAttr, Entries, FunctionAsResult, FunctionInStruct, FunctionOutside, IntegerAttr, IntegersAttr, LlvmFunction, MemrefInStruct};

/// Texts of types: a type of the llvm dialect has no prefix inside another one, at any depth.
pub fn law_texts_of_types()
    ensures function_in_struct { FunctionInStruct }
    ensures memref_in_struct { MemrefInStruct }
    ensures array_in_array { ArrayInArray }
    ensures llvm_function { LlvmFunction }
    ensures function_outside { FunctionOutside }
    ensures function_as_result { FunctionAsResult }
{}

/// Texts of attributes and of the entries of a dictionary.
pub fn law_texts_of_attrs()
    ensures bit { BitAttr }
    ensures integer { IntegerAttr }
    ensures integers { IntegersAttr }
    ensures dialect { DialectAttr }
    ensures entries { Entries }
{}
