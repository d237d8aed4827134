//! The properties that belong to a row.
#![tactic(auto, unfolding(crate::specs::Table::is_listed))]

ghost use Rattle.std.specs.Prelude.{◌≡◌, bytes_eq};
ghost use Rattle.op_catalog.specs.Table.{is_listed, shape_at};
ghost use Rattle.rule_model.specs.declared.shapes.Shape.TheVariants.{Allocate, FuncFunction, LlvmFunction, Module, MovePointer};

use crate::rows::RowId;
use rule_model::Shape;

fn is_one(name: &[u8], text: &[u8]) -> bool
    ensures { result ≡ bytes_eq text.now name.now }
{
    text == name
}

fn names_module(name: &[u8]) -> bool
    ensures { result ≡ is_listed Module name.now }
{
    is_one(name, b"sym_name") || is_one(name, b"sym_visibility")
}

fn names_function(name: &[u8]) -> bool
    ensures { result ≡ is_listed FuncFunction name.now }
{
    is_one(name, b"function_type")
        || is_one(name, b"sym_name")
        || is_one(name, b"sym_visibility")
        || is_one(name, b"arg_attrs")
        || is_one(name, b"res_attrs")
}

fn names_llvm_function(name: &[u8]) -> bool
    ensures { result ≡ is_listed LlvmFunction name.now }
{
    is_one(name, b"function_type")
        || is_one(name, b"sym_name")
        || is_one(name, b"linkage")
        || is_one(name, b"sym_visibility")
}

fn names_allocation(name: &[u8]) -> bool
    ensures { result ≡ is_listed Allocate name.now }
{
    is_one(name, b"operandSegmentSizes") || is_one(name, b"alignment")
}

fn names_move(name: &[u8]) -> bool
    ensures { result ≡ is_listed MovePointer name.now }
{
    is_one(name, b"elem_type") || is_one(name, b"rawConstantIndices")
}

fn names(shape: Shape, name: &[u8]) -> bool
    ensures { result ≡ is_listed shape name.now }
{
    match shape {
        Shape::Module => names_module(name),
        Shape::FuncFunction => names_function(name),
        Shape::FuncCall | Shape::LlvmCall => is_one(name, b"callee"),
        Shape::NumberConstant | Shape::IntegerConstant => is_one(name, b"value"),
        Shape::FlaggedNumbers
        | Shape::NarrowNumber
        | Shape::FlaggedIntegers
        | Shape::NarrowInteger => is_one(name, b"overflowFlags"),
        Shape::CompareNumbers | Shape::CompareIntegers => is_one(name, b"predicate"),
        Shape::BranchOn => is_one(name, b"operandSegmentSizes"),
        Shape::Switch => is_one(name, b"cases"),
        Shape::Execute => is_one(name, b"no_inline"),
        Shape::Allocate => names_allocation(name),
        Shape::LoadElement | Shape::StoreElement => is_one(name, b"nontemporal"),
        Shape::LlvmFunction => names_llvm_function(name),
        Shape::TakePart | Shape::PutPart => is_one(name, b"position"),
        Shape::MovePointer => names_move(name),
        _ => false,
    }
}

/// Whether a property of this name belongs to the row.
pub fn inherent(row: RowId, name: &[u8]) -> bool
    ensures { result ≡ is_listed (shape_at row) name.now }
{
    names(row.shape(), name)
}
