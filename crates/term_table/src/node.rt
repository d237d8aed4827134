//! Nodes, with the numbers of their parts.

/// What a node is.
#[derive(Clone, Copy, PartialEq, Eq, Hash)]
pub enum Form {
    // types
    Int,
    Index,
    Ptr,
    Void,
    Memref,
    Size,
    Dynamic,
    Func,
    Struct,
    Array,
    LlvmFunc,
    Types,
    // attributes
    Unit,
    Number,
    Minus,
    Bool,
    Text,
    Items,
    Item,
    Dict,
    Entry,
    Symbol,
    Numbers,
    Listed,
    ListedMinus,
    Dialect,
    DialectWord,
}

/// A node of a term. The value is a width, a length, a size or the number of a name, and 0 where the form has none. A part is
/// a number of the table, and 0 where there is nothing.
#[derive(Clone, Copy, PartialEq, Eq, Hash)]
pub struct Node {
    pub form: Form,
    pub value: u64,
    pub left: u32,
    pub right: u32,
}
