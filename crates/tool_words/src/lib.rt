//! The words of the program: what a command line asks for, or the text with which it is refused.
#![tactic(auto)]

mod command;
mod laws;
mod numbers;
mod reading;
mod request;
mod settings;
mod texts;

pub use laws::{law_examples, law_little_fuel, law_pipeline_of};
pub use reading::read_words;
pub use request::{Request, RunWords, WordsRead};
pub use tree_model::NoMemory;
