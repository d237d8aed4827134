//! Types and attributes of the generic text: which one begins at an event, and its number.
#![tactic(auto)]

mod action;
mod action_rows;
mod alias_calls;
mod alias_numbers;
mod aliases;
mod begun;
mod laws;
mod marks;
mod spelled;
mod stack;

pub use action::{Action, Actions};
pub use action_rows::actions_of;
pub use alias_numbers::AliasNumbers;
pub use aliases::aliases_at;
pub use begun::begun_at;
pub use laws::{law_one_number_for_a_type, law_type_of_term};
pub use marks::mark;
pub use spelled::Spelled;
