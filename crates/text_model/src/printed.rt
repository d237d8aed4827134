//! The laws of the printed text.

ghost use Rattle.text_model.specs.PrintedLaws.{EmptyModuleText, NamesOfAFunction, LabelsOfAFunction, UsesOfAGroup, LinesOfARegion};

/// An empty module prints as these 42 bytes.
pub fn law_empty_module()
    ensures { EmptyModuleText }
{}

/// The values and the blocks of a function with an inner region have these names.
pub fn law_names_of_a_function()
    ensures values { NamesOfAFunction }
    ensures blocks { LabelsOfAFunction }
    ensures uses { UsesOfAGroup }
{}

/// A region of two blocks has these lines.
pub fn law_lines_of_a_region()
    ensures { LinesOfARegion }
{}
