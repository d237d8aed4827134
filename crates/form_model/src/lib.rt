//! From the trees of a module to its functions as a run sees them: the form of each operation. A crate of definitions.
#![tactic(auto)]
