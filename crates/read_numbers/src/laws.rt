//! Laws of numbers that are read, each the contract of a function that does nothing.

ghost use Rattle.read_numbers.specs.Laws.{ReadInOrder, ReadOnce};

/// In each function of a module that a text reads as the values and the labels are counted from 0 on, in the order of the text.
pub fn law_read_in_order()
    ensures { ReadInOrder }
{}

/// Each function of a module that a text reads as numbers each of its values and each of its blocks once.
pub fn law_read_once()
    ensures { ReadOnce }
{}
