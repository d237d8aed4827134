//! The first operation of a function that uses a value which isn't defined there.
#![tactic(auto)]

mod first;
mod homes;
mod level;
mod region;
mod searches;
mod walk;

pub use first::first_undefined;
