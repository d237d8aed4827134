//! Places of new values.

/// Where a new value is for.
#[derive(Clone, Copy, PartialEq, Eq, Hash, Debug)]
pub enum ValuePlace {
    /// A value of the row of a source operation, by the operation's number and the value's place.
    OfRow(u32, u32),
    /// A value of what replaces an operation or a product: the number of the source operation, the place of the product from
    /// 1 on (0 for the operation itself), and the value's place.
    OfLine(u32, u32, u32),
    /// A parameter of a function, by its place.
    OfFunction(u32),
    /// An argument of a block, by the block's label and the argument's place.
    OfBlock(u32, u32),
}
