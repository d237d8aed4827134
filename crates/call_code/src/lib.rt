//! How values are handed over at calls and returns, in code.
#![tactic(auto)]

mod gathers;
mod packs;
mod spreads;

pub use gathers::gathered;
pub use packs::{packed, unpacked};
pub use spreads::spread;
