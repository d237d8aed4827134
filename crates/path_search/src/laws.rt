//! The law.

ghost use Rattle.path_search.specs.LeftOut.{LeftOutDecides};

/// A value that one block of a region defines before its end: a place that no terminator stands before, and that the value isn't defined
/// in front of in its block, is reached without the value exactly where the block is reached in the graph of blocks with the defining
/// block left out.
pub fn law_left_out()
    ensures { LeftOutDecides }
{}
