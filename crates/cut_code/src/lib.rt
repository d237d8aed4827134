//! What rows of operations with regions give: frames of functions, and pieces of a block that is cut.
#![tactic(auto)]

mod cuts;
mod frames;
mod pieces;
mod sketch;

pub use cuts::Cuts;
pub use frames::{FrameTree, Frames, PartList, PartTree};
pub use pieces::{CutLabel, CutValue, PieceList, PieceTree, ProductTree};
pub use sketch::{BlockSketch, OpSketch, RegionSketch};
