//! Pipeline texts: which passes run on what, in which order.
#![tactic(auto)]

mod laws;
mod lexer;
mod pass;
mod printer;
mod reader;
mod reading;
mod refusal;
mod token;

pub use laws::{
    law_no_option_in_texts, law_one_answer, law_printed_reads_again, law_runs_are_words,
};
pub use pass::{Anchor, PassName, PassUse, Pipeline, Stage};
pub use printer::print_pipeline;
pub use reading::read_pipeline;
pub use refusal::{PipelineKind, PipelineRefusal};
pub use tree_model::NoMemory;
