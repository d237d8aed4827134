//! Pieces: what a cut gives, in the order of the text.

use sqlite_items::Items;
use tree_model::{DictTree, Name, TypeTree, ValueList};

/// A value in a cut: one that is there, by its number, or a new one, by its place.
#[derive(Clone, Copy, PartialEq, Eq, Debug)]
pub enum CutValue {
    Old(u32),
    New(u32),
}

/// A label in a cut: one that is there, by its number, or a new one, by its place.
#[derive(Clone, Copy, PartialEq, Eq, Debug)]
pub enum CutLabel {
    Old(u32),
    New(u32),
}

/// A product: its results are new values, by their places with their types.
#[derive(Debug, Drop)]
pub struct ProductTree {
    pub name: Name,
    pub results: ValueList,
    pub operands: Items<CutValue>,
    pub props: DictTree,
    pub successors: Items<CutLabel>,
    /// New values that may be among the operands, with their types.
    pub known: ValueList,
}

/// A piece of a cut.
#[derive(Debug, Drop)]
pub enum PieceTree {
    Product(ProductTree),
    /// A block opens, with this label and these arguments.
    Opens(CutLabel, ValueList),
    /// The operations of a block in front of its first `scf.yield` or `scf.condition`, by the places of its region and of itself.
    Held(u32, u32),
    /// A result, by its number and its type, stands for a value that is there.
    Stands(u32, TypeTree, u32),
}

/// Pieces in order.
pub type PieceList = Items<PieceTree>;
