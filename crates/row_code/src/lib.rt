//! What rows in code stand on: shapes, templates, properties, and the trait of a set of rows.
#![tactic(auto)]

mod infos;
mod props;
mod rows;
mod shape;
mod steps;
mod types;
mod wrap;

pub use infos::pattern_info;
pub use props::{constant_value, find, flag_props, kept_props, predicate};
pub use rows::Rows;
pub use shape::{ShapeTree, is_plain};
pub use steps::{Line, Makes, Props, drafted, one_value};
pub use types::all_types;
pub use wrap::wrapped;
