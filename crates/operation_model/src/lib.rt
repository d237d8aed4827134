//! What operations without regions do: values, forms, and each form's questions to memory and calls. A crate of definitions.
#![tactic(auto)]
