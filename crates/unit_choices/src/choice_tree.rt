//! Choices of code.

use conversion_model::TemplateTree;
use unit_slots::{CutTree, Framing};

/// What replaces an operation.
#[derive(Debug, Drop)]
pub enum ChoiceTree {
    /// Nothing: it is legal.
    Stays,
    /// Operations one after another.
    Line(TemplateTree),
    /// Pieces of the block that it stands in.
    Cuts(CutTree),
    /// A function of another frame.
    Frames(Framing),
}
