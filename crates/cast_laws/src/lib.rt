//! Laws of reconciliation: casts that undo each other may be left out.
#![tactic(auto)]

mod laws;

pub use laws::{law_casts, law_undone_casts};
