//! Templates as trees: what a row of code gives, the operations that replace one operation.

use sqlite_items::Items;
use tree_model::{DictTree, IdList, Name, TypeList};

/// Where an operand of a step comes from, or what a result stands for, by its place.
#[derive(Clone, Copy, PartialEq, Eq, Debug)]
pub enum Source {
    /// An operand of the operation that is replaced.
    Operand(u32),
    /// A value that an earlier step makes. The values of all steps are counted through from 0 on.
    Made(u32),
}

/// Sources in order.
pub type SourceList = Items<Source>;

/// One operation of a template.
#[derive(Debug, Drop)]
pub struct StepTree {
    pub name: Name,
    pub props: DictTree,
    pub sources: SourceList,
    /// The successors, by their places among those of the operation that is replaced.
    pub successors: IdList,
    /// The types of the values that it makes.
    pub makes: TypeList,
}

/// Steps in order.
pub type StepList = Items<StepTree>;

/// The operations that replace one, and what each of its results stands for behind them.
#[derive(Debug, Drop)]
pub struct TemplateTree {
    pub steps: StepList,
    pub results: SourceList,
}
