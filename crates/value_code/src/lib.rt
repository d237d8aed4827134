//! Values and the operations that only compute, in code, as `meaning_model` says them.
#![tactic(auto)]

mod choices;
mod elements;
mod look;
mod parts;
mod pointers;
mod pures;
mod value;

pub use choices::{selected, taken_size};
pub use elements::element_place;
pub use look::{Looked, number, place_of};
pub use parts::{part, part_at};
pub use pointers::{bytes_of, move_pointer, moved_on};
pub use pures::{compared, truth, two_numbers, with_width};
pub use value::{Place, Value, ValueList, copy_value, copy_values};
