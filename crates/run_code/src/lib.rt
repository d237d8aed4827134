//! Functions as a run sees them, in code: each operation by its form, each value by its number.
#![tactic(auto)]

mod form;
mod function;
mod width;

pub use form::{
    Callee, CaseList, Change, Form, Layout, NumberList, Packing, Pure, ShapeList, SizeList,
};
pub use function::{
    Block, BlockList, Face, Function, IdList, Operation, OperationList, Region, RegionList,
    WidthList,
};
pub use width::{Width, byte_size, full_width, width_of};
