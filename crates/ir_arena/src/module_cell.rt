//! Modules.

use crate::func::Func;
use flat_model::NamedAttrs;
use sqlite_items::Items;

/// A module: its properties, its attributes and its functions, with handles of one interner.
#[derive(Debug, Drop)]
pub struct Module {
    pub props: NamedAttrs,
    pub attrs: NamedAttrs,
    pub funcs: Items<Func>,
}
