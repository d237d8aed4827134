//! New memrefs in code: their sizes, their number of elements and their strides.
#![tactic(auto)]

mod counts;
mod sizes;

pub use counts::{element_count, stride_values};
pub use sizes::{Size, SizeItems, size_values, sizes_from};
