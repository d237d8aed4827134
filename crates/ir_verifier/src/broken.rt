//! A rule that a module breaks.

use rule_model::Rule;

/// The first rule that a module breaks.
#[derive(Clone, Copy, PartialEq, Eq, Debug)]
pub struct BrokenRule {
    /// The place of the function among those of the module, from 0.
    pub function: usize,
    /// The number of the operation in its function, in the order of the text from 0: the function itself is the first.
    pub operation: usize,
    pub rule: Rule,
}
