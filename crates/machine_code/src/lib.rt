//! Runs of functions from a place, with the calls under way in a list, in code.
#![tactic(auto)]

mod begins;
mod calls;
mod external;
mod kinds;
mod returns;
mod runs;

pub use begins::begin;
pub use kinds::{Caller, ExternalCall, Finish, Machine, SignedList};
pub use runs::run_on;
