//! Laws of the names of operations, each the contract of a function that does nothing.

ghost use Rattle.read_names.specs.Laws.{NamesAreKept, ReadIsRegistered};

/// What passes at each name of an operation in events passes at each operation that they denote.
pub fn law_names_are_kept()
    ensures { NamesAreKept }
{}

/// In a module that a text reads as, where unregistered operations aren't allowed, each operation has a name of the table.
pub fn law_read_is_registered()
    ensures { ReadIsRegistered }
{}
