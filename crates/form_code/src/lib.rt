//! The form of each operation, in code, as `form_model` says it.
#![tactic(auto)]

mod classes;
mod entries;
mod flow;
mod forms;
mod memory;
mod names;
mod numeric;
mod places;
mod properties;
mod recast;
mod seen;
mod types;

pub use classes::{CLASSES, Class, Flow, Memory, Numeric, Plain, Resizing, Wrapping, class_of};
pub use entries::{has_word, property};
pub use flow::packing_of;
pub use forms::form_of;
pub use places::Places;
pub use properties::{
    alignment_of, comparison_of, counts_of, flags_of, integer_in, integer_of, numbers_of,
    position_of, symbol_of, text_of, type_of,
};
pub use recast::become_same;
pub use seen::Seen;
pub use types::{Memref, memref_of, shape_of, shapes_of, sizes_of, unset_of, width_of, widths_of};
