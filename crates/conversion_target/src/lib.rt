//! What a pass wants of operations: which names are legal, always or by a rule, which are illegal, and which are unknown.
#![tactic(auto)]

mod answers;
mod rule;
mod target;

pub use answers::Legality;
pub use rule::{LegalRule, holds};
pub use target::Target;
