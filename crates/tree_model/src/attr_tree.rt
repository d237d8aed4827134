//! Attributes.

use crate::bytes::Bytes;
use crate::name::Name;
use crate::type_tree::TypeTree;
use sqlite_items::Items;

/// Attributes in order.
pub type AttrList = Items<AttrTree>;

/// The entries of a dictionary. In a well-formed tree they stand in the order of the bytes of their
/// names, and no name stands twice.
pub type DictTree = Items<(Name, AttrTree)>;

/// Words in order.
pub type NameList = Items<Name>;

/// Signed numbers in order.
pub type NumberList = Items<i64>;

/// An attribute.
#[derive(Debug, Drop)]
pub enum AttrTree {
    /// What says something by standing there alone.
    Unit,
    /// An integer, as a signed value, and its type. Of `i1` the value is 0 or -1.
    Int(i64, TypeTree),
    /// A text.
    Str(Bytes),
    /// Attributes in order.
    List(AttrList),
    /// Attributes by name.
    Dict(DictTree),
    /// A type.
    OfType(TypeTree),
    /// The name of a function.
    Symbol(Bytes),
    /// Integers of one number of bits, as signed values.
    Ints(u32, NumberList),
    /// An attribute of a dialect, by its full name, and the words in it.
    Dialect(Name, NameList),
}
