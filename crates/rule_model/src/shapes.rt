//! The shapes of operations.

/// The shape of an operation: operations of one shape take the same operands, results, properties and regions.
#[derive(Clone, Copy, PartialEq, Eq, Debug)]
pub enum Shape {
    Module,
    /// A cast between types.
    Recast,
    FuncFunction,
    FuncCall,
    FuncReturn,
    NumberConstant,
    /// Of two numbers, with flags.
    FlaggedNumbers,
    TwoNumbers,
    CompareNumbers,
    /// One of two values of any type.
    SelectValues,
    Widen,
    NarrowNumber,
    IndexCast,
    Branch,
    BranchOn,
    If,
    For,
    While,
    Switch,
    Execute,
    Yield,
    Condition,
    Allocate,
    Deallocate,
    LoadElement,
    StoreElement,
    TakeSize,
    TakeRank,
    MemrefCast,
    LlvmFunction,
    LlvmCall,
    LlvmReturn,
    IntegerConstant,
    Unset,
    /// Of two integers, with flags.
    FlaggedIntegers,
    TwoIntegers,
    CompareIntegers,
    /// One of two values of an llvm type.
    SelectOwn,
    NarrowInteger,
    TakePart,
    PutPart,
    MovePointer,
    LoadInteger,
    StoreInteger,
}
