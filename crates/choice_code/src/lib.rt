//! The choice: which operations replace one, found on shapes alone, before anything is written.
#![tactic(auto)]

mod casts;
mod derivation;
mod draft;
mod given;
mod moves;
mod own;
mod paths;

pub use casts::{cast_step, type_changes};
pub use derivation::{Pass, chosen, is_converted};
pub use draft::{Draft, copy_types};
pub use paths::{leaves_on, products_on, row_leaves};
