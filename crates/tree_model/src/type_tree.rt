//! Types.

use sqlite_items::{Boxed, Items};

/// A dimension of a memref: a number, or one that only a run knows.
#[derive(Clone, Copy, PartialEq, Eq, Debug)]
pub enum Dim {
    Fixed(u64),
    Dynamic,
}

/// The dimensions of a memref, in order.
pub type DimList = Items<Dim>;

/// Types in order.
pub type TypeList = Items<TypeTree>;

/// A type.
#[derive(Debug, Drop)]
pub enum TypeTree {
    /// A signless integer, by its number of bits.
    Int(u32),
    /// The type of sizes and places.
    Index,
    /// A buffer, by its dimensions and the type of its elements.
    Memref(DimList, Boxed<TypeTree>),
    /// A function, by the types of its inputs and those of its results.
    Func(TypeList, TypeList),
    /// The pointer of the llvm dialect.
    Ptr,
    /// The llvm dialect's type of a function that gives nothing.
    Void,
    /// A struct of the llvm dialect, by the types of its fields.
    Struct(TypeList),
    /// An array of the llvm dialect, by its length and the type of its elements.
    Array(u64, Boxed<TypeTree>),
    /// A function of the llvm dialect, by the type of its result and those of its parameters.
    LlvmFunc(Boxed<TypeTree>, TypeList),
}
