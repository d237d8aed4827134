//! An operation with what surrounds it.

use tree_model::{AttrTree, Name, TypeTree};

/// A block of a region: the types of its arguments, and the name of its last operation, none where it is empty.
#[derive(Drop)]
pub struct Head<'a> {
    pub args: Vec<&'a TypeTree>,
    pub last: Option<&'a Name>,
}

/// A successor: the block, where there is one, and whether it is the first of its region.
#[derive(Drop)]
pub struct Target<'a> {
    pub block: Option<&'a Head<'a>>,
    pub first: bool,
}

/// The operation that holds a region, and which of its regions that is.
#[derive(Clone, Copy)]
pub struct Holder<'a> {
    pub name: &'a Name,
    pub props: &'a [(Name, AttrTree)],
    pub operands: &'a [&'a TypeTree],
    pub results: &'a [&'a TypeTree],
    pub region: usize,
}

/// An operation, without any number of a value or label.
#[derive(Clone, Copy)]
pub struct Facts<'a> {
    pub name: &'a Name,
    pub props: &'a [(Name, AttrTree)],
    pub operands: &'a [&'a TypeTree],
    pub results: &'a [&'a TypeTree],
    pub successors: &'a [Target<'a>],
    pub regions: &'a [Vec<Head<'a>>],
    /// What holds its region: nothing where it is a function.
    pub holder: Option<Holder<'a>>,
    /// Whether no operation stands behind it in its block.
    pub last: bool,
}
