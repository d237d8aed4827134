//! Counting loops, switches, and what external functions are told and answer, in code.
#![tactic(auto)]

mod counting;
mod outside;

pub use counting::{Counting, Start, case_of, counts, has_round, next_number};
pub use outside::{answered, numbers, signed_numbers};
