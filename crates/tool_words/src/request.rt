//! What words ask for.

use pipeline_text::Pipeline;
use sqlite_items::Items;
use tree_model::Bytes;

/// A function that is run before the pipeline and behind it.
#[derive(Drop)]
pub struct RunWords {
    pub name: Bytes,
    pub args: Items<i128>,
    /// How many operations a run may take.
    pub fuel: u32,
}

/// What is done with the input.
#[derive(Drop)]
pub struct Request {
    pub pipeline: Pipeline,
    /// Whether operations are read that the table of operations does not have.
    pub allowed: bool,
    pub run: Option<RunWords>,
}

/// What the words are read as.
#[derive(Drop)]
pub enum WordsRead {
    Asked(Request),
    /// The usage text, without a line feed.
    Refused(Bytes),
}
