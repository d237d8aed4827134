//! Conversion: shapes, templates, rows, the chosen derivation, and the conversion of one function.
#![tactic(auto)]

mod laws;
mod templates;

pub use laws::{law_defined_once, law_no_casts, law_own_types, law_reconciled, law_written_once};
pub use templates::{Source, SourceList, StepList, StepTree, TemplateTree};
