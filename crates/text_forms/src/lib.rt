//! Texts as operations: what lies between two words where an operation, a block or a region stands between them, and that what the grammar reads has this form.
//!
//! A crate of definitions with a law.
#![tactic(auto)]

ghost use Rattle.text_forms.specs.Laws.{ReadsAsFile};

/// What the grammar reads is operations and aliases, in which each region ends and each operation has its function type.
pub fn law_reads_as_file()
    ensures { ReadsAsFile }
{}
