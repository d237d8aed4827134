//! Laws of texts that are printed and read, each the contract of a function that does nothing.

ghost use Rattle.round_trip.specs.Laws.{PrintedTextDenotes, ReadsInBytes, ReadsSettled, ScopedTextDenotes};

/// The printed text of a module that stands as reading leaves modules denotes this module, where its uses find their definitions.
pub fn law_printed_text_denotes()
    ensures { PrintedTextDenotes }
{}

/// The printed text of such a module whose uses are in scope denotes this module.
pub fn law_scoped_text_denotes()
    ensures { ScopedTextDenotes }
{}

/// In a module that a text reads as the dictionaries are in order, and no attribute belongs to the properties of its operation.
pub fn law_read_is_settled()
    ensures { ReadsSettled }
{}

/// In a module that a text of bytes reads as all names and strings are of bytes.
pub fn law_read_is_in_bytes()
    ensures { ReadsInBytes }
{}
