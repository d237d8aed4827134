//! Laws of passes: what they make of verified modules agrees with these.
#![tactic(auto)]

mod laws;

pub use laws::{law_arith, law_cf, law_conversion, law_expand, law_unused_casts};
