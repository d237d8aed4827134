//! Entries: a key's outermost level, with the handles of its parts.

use crate::handle::Handle;
use sqlite_items::Items;
use tree_model::{Bytes, DimList, Name, NameList, NumberList};

/// The outermost level of a key, without its parts.
#[derive(Debug, Drop)]
pub enum Head {
    TInt(u32),
    TIndex,
    TMemref(DimList),
    /// By the number of inputs. The parts are the inputs, and then the results.
    TFunc(u32),
    TPtr,
    TVoid,
    TStruct,
    TArray(u64),
    /// The parts are the output, and then the inputs.
    TLlvmFunc,
    Unit,
    /// The part is the type.
    Int(i64),
    Str(Bytes),
    List,
    /// By the names. The parts are their values.
    Dict(NameList),
    OfType,
    Symbol(Bytes),
    Ints(u32, NumberList),
    Dialect(Name, NameList),
}

/// Handles in order.
pub type HandleList = Items<Handle>;

/// A key by its outermost level and the handles of its parts.
#[derive(Debug, Drop)]
pub struct Entry {
    pub head: Head,
    pub children: HandleList,
}
