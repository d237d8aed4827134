//! Pipelines: passes, and what each runs on.

use sqlite_items::Items;

/// The passes, in the order of the table in docs/LOWERING.md.
#[derive(Clone, Copy, PartialEq, Eq, Debug)]
pub enum PassName {
    ConvertScfToCf,
    ArithExpand,
    ConvertArithToLlvm,
    ConvertCfToLlvm,
    ConvertFuncToLlvm,
    FinalizeMemrefToLlvm,
    ReconcileUnrealizedCasts,
    FullConvertToLlvm,
}

/// The operation on which a nested list of passes runs.
#[derive(Clone, Copy, PartialEq, Eq, Debug)]
pub enum Anchor {
    FuncFunc,
    LlvmFunc,
}

/// A pass, and how wide `index` is for it.
#[derive(Clone, Copy, PartialEq, Eq, Debug)]
pub struct PassUse {
    pub pass: PassName,
    pub bits: u32,
}

#[derive(Drop)]
pub enum Stage {
    /// A pass on every function, and then its step on the module.
    Whole(PassUse),
    /// Passes on each function with the operation's name.
    Each(Anchor, Items<PassUse>),
}

#[derive(Drop)]
pub struct Pipeline {
    pub stages: Items<Stage>,
}
