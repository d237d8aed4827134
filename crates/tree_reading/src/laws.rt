//! Laws of reading, each the contract of a function that does nothing.

ghost use Rattle.tree_reading.specs.Laws.{NeverBoth, OneModule, OneOfTheTwo, OneRefusal, SameModule};

/// A text reads as one module, also where unregistered operations are allowed and where they aren't.
pub fn law_one_module()
    ensures one { OneModule }
    ensures same { SameModule }
{}

/// A text that reads as a module isn't refused.
pub fn law_never_both()
    ensures { NeverBoth }
{}

/// A text is refused at one byte, as of one kind.
pub fn law_one_refusal()
    ensures { OneRefusal }
{}

/// Each text reads as a module or is refused.
pub fn law_one_of_the_two()
    ensures { OneOfTheTwo }
{}
