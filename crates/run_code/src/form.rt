//! The forms of operations.

use crate::width::Width;
use number_code::{Binary, Comparison, Flags};
use sqlite_items::Items;
use tree_model::Bytes;
use value_code::Value;

/// Plain numbers in order: a path of fields and places.
pub type NumberList = Items<u64>;

/// Sizes in order, each where it is fixed.
pub type SizeList = Items<Option<u64>>;

/// How each argument is handed over: as it is, or where it is a memref by the fields of its descriptor of this rank.
pub type ShapeList = Items<Option<u64>>;

/// Signed numbers in order.
pub type CaseList = Items<i64>;

/// A change of an integer's width, with the width to which it goes.
#[derive(Clone, Copy, PartialEq, Eq, Debug)]
pub enum Change {
    ExtendSigned(Width),
    Extend(Width),
    Truncate(Flags, Width),
    Keep,
}

/// An operation that only computes. A pointer moves by elements of a width.
#[derive(Debug, Drop)]
pub enum Pure {
    Known(Value),
    TwoNumbers(Binary, Width),
    Compares(Comparison, Width),
    Resizes(Change, Width),
    Selects,
    Moves,
    TakesPart(NumberList),
    PutsPart(NumberList),
    MovesPointer(Width),
    HasSizes(Width, SizeList),
    TakesSize(Width, u64),
}

/// What a function returns is one value or none: several results stand together as a struct.
#[derive(Clone, Copy, PartialEq, Eq, Debug)]
pub enum Packing {
    Bare,
    Together,
}

/// The function that is called: its name, and the place in the list of functions where it is thought to stand. The place is looked at
/// before others, and says nothing of the meaning.
#[derive(Debug, Drop)]
pub struct Callee {
    pub name: Bytes,
    pub place: u32,
}

/// A new memref: the width of its sizes, its sizes where they are fixed, the width of its elements, and its alignment.
#[derive(Debug, Drop)]
pub struct Layout {
    pub bits: Width,
    pub sizes: SizeList,
    pub element: Width,
    pub alignment: u64,
}

/// The form of an operation.
#[derive(Debug, Drop)]
pub enum Form {
    Computes(Pure),
    Branch,
    BranchOn(u64, u64),
    Call(Callee, ShapeList, Packing),
    Return(Packing),
    Load(Width),
    Store(Width),
    Allocate,
    AllocateAligned,
    Free,
    NewMemref(Layout),
    EndMemref,
    LoadElement(Width, Width),
    StoreElement(Width, Width),
    If,
    For(Width),
    While,
    Switch(Width, CaseList),
    Execute,
    Yield,
    Condition,
    Unknown,
}
