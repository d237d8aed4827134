//! Slots: what stands for each operation.

use conversion_model::TemplateTree;
use cut_code::{FrameTree, PieceList};
use sqlite_items::Items;
use std::rc::Rc;

/// For each piece of a cut the leaves of its product: none where the piece is no product, or a product that is legal itself.
pub type LineList = Items<Option<TemplateTree>>;

/// The pieces that a block is cut into, with the place of the pattern that cuts it.
#[derive(Debug, Drop)]
pub struct CutTree {
    pub place: u32,
    pub pieces: PieceList,
    pub lines: LineList,
}

/// What stands for an operation of a function.
#[derive(Debug, Drop)]
pub enum Slot {
    /// The operation itself, over the regions that its own become.
    Keeps,
    /// Operations one after another. What operations of one shape become is there once.
    Line(Rc<TemplateTree>),
    /// Pieces of the block that it stands in.
    Cuts(CutTree),
}

/// What a function becomes, and the steps at its start that give its old arguments.
#[derive(Debug, Drop)]
pub struct Framing {
    pub frame: FrameTree,
    pub entry: TemplateTree,
}

/// What is chosen for a function: for itself, and for each operation in it by its number in the order of the text. The
/// slot at 0, the function's own, isn't looked at.
#[derive(Debug, Drop)]
pub struct Choices {
    pub framing: Option<Framing>,
    pub slots: Vec<Slot>,
}
