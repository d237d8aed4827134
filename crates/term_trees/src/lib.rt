//! Terms as types, attributes and dictionaries, from a table of terms and the words of a text.
#![tactic(auto)]

mod attrs;
mod dictionaries;
mod integers;
mod lists;
mod spelled;
mod types;
mod values;

pub use attrs::{attr_at, written_at};
pub use dictionaries::{Dictionaries, split};
pub use spelled::name_at;
pub use types::{type_at, types_at};
pub use values::{result_count, results_at};
