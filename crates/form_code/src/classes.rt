//! What tells the form of an operation, by its name.

ghost use Rattle.std.specs.Prelude.{◌≡◌, get_or};
ghost use Rattle.form_model.specs.Classes as model;
ghost use Rattle.form_code.specs.declared.classes.Class.TheVariants as class;
ghost use Rattle.form_code.specs.ClassViews.{class_view};

use number_code::{Binary, Flags};
use tree_model::Name;

/// Forms that the name alone tells.
#[derive(Clone, Copy, PartialEq, Eq, Debug)]
pub enum Plain {
    Select,
    Branch,
    ReturnBare,
    EndMemref,
    If,
    While,
    Execute,
    Yield,
    Condition,
}

/// The operations of two integers that may carry promises.
#[derive(Clone, Copy, PartialEq, Eq, Debug)]
pub enum Wrapping {
    Add,
    Subtract,
    Multiply,
    ShiftLeft,
}

/// How an integer becomes one of another width. A cast extends where the result is wider and cuts where it is narrower.
#[derive(Clone, Copy, PartialEq, Eq, Debug)]
pub enum Resizing {
    ExtendSigned,
    Extend,
    Truncate(Flags),
    Cast,
    CastUnsigned,
}

/// Operations on integers.
#[derive(Clone, Copy, PartialEq, Eq, Debug)]
pub enum Numeric {
    Constant,
    Flagged(Wrapping),
    Two(Binary),
    Comparison,
    Resized(Resizing),
    Truncation,
}

/// Calls, returns, branches and loops, and casts between types that become the same.
#[derive(Clone, Copy, PartialEq, Eq, Debug)]
pub enum Flow {
    Recast,
    Call,
    LlvmCall,
    Returns,
    BranchOn,
    For,
    Switch,
}

/// Operations on memrefs, structs and pointers.
#[derive(Clone, Copy, PartialEq, Eq, Debug)]
pub enum Memory {
    NewMemref,
    LoadElement,
    StoreElement,
    TakesSize,
    Rank,
    MemrefCast,
    Unset,
    TakesPart,
    PutsPart,
    MovesPointer,
    Load,
    Store,
}

/// What tells the form. An operation of the class `Nothing` has no meaning.
#[derive(Clone, Copy, PartialEq, Eq, Debug)]
pub enum Class {
    Nothing,
    Always(Plain),
    Numbers(Numeric),
    Flow(Flow),
    Memory(Memory),
}

/// The classes of the known names, in the order of their numbers. The names behind these tell nothing.
pub const CLASSES: &[Class] = &[
    Class::Nothing,
    Class::Flow(Flow::Recast),
    Class::Nothing,
    Class::Flow(Flow::Call),
    Class::Flow(Flow::Returns),
    Class::Numbers(Numeric::Constant),
    Class::Numbers(Numeric::Flagged(Wrapping::Add)),
    Class::Numbers(Numeric::Flagged(Wrapping::Subtract)),
    Class::Numbers(Numeric::Flagged(Wrapping::Multiply)),
    Class::Numbers(Numeric::Flagged(Wrapping::ShiftLeft)),
    Class::Numbers(Numeric::Two(Binary::Divide)),
    Class::Numbers(Numeric::Two(Binary::DivideUnsigned)),
    Class::Numbers(Numeric::Two(Binary::Remainder)),
    Class::Numbers(Numeric::Two(Binary::RemainderUnsigned)),
    Class::Numbers(Numeric::Two(Binary::DivideUp)),
    Class::Numbers(Numeric::Two(Binary::DivideDown)),
    Class::Numbers(Numeric::Two(Binary::DivideUpUnsigned)),
    Class::Numbers(Numeric::Two(Binary::And)),
    Class::Numbers(Numeric::Two(Binary::Or)),
    Class::Numbers(Numeric::Two(Binary::Xor)),
    Class::Numbers(Numeric::Two(Binary::ShiftRight)),
    Class::Numbers(Numeric::Two(Binary::ShiftRightUnsigned)),
    Class::Numbers(Numeric::Two(Binary::Greater)),
    Class::Numbers(Numeric::Two(Binary::GreaterUnsigned)),
    Class::Numbers(Numeric::Two(Binary::Less)),
    Class::Numbers(Numeric::Two(Binary::LessUnsigned)),
    Class::Numbers(Numeric::Comparison),
    Class::Always(Plain::Select),
    Class::Numbers(Numeric::Resized(Resizing::ExtendSigned)),
    Class::Numbers(Numeric::Resized(Resizing::Extend)),
    Class::Numbers(Numeric::Truncation),
    Class::Numbers(Numeric::Resized(Resizing::Cast)),
    Class::Numbers(Numeric::Resized(Resizing::CastUnsigned)),
    Class::Always(Plain::Branch),
    Class::Flow(Flow::BranchOn),
    Class::Always(Plain::If),
    Class::Flow(Flow::For),
    Class::Always(Plain::While),
    Class::Flow(Flow::Switch),
    Class::Always(Plain::Execute),
    Class::Always(Plain::Yield),
    Class::Always(Plain::Condition),
    Class::Memory(Memory::NewMemref),
    Class::Always(Plain::EndMemref),
    Class::Memory(Memory::LoadElement),
    Class::Memory(Memory::StoreElement),
    Class::Memory(Memory::TakesSize),
    Class::Memory(Memory::Rank),
    Class::Memory(Memory::MemrefCast),
    Class::Nothing,
    Class::Flow(Flow::LlvmCall),
    Class::Always(Plain::ReturnBare),
    Class::Always(Plain::Branch),
    Class::Flow(Flow::BranchOn),
    Class::Numbers(Numeric::Constant),
    Class::Memory(Memory::Unset),
    Class::Numbers(Numeric::Flagged(Wrapping::Add)),
    Class::Numbers(Numeric::Flagged(Wrapping::Subtract)),
    Class::Numbers(Numeric::Flagged(Wrapping::Multiply)),
    Class::Numbers(Numeric::Flagged(Wrapping::ShiftLeft)),
    Class::Numbers(Numeric::Two(Binary::Divide)),
    Class::Numbers(Numeric::Two(Binary::DivideUnsigned)),
    Class::Numbers(Numeric::Two(Binary::Remainder)),
    Class::Numbers(Numeric::Two(Binary::RemainderUnsigned)),
    Class::Numbers(Numeric::Two(Binary::And)),
    Class::Numbers(Numeric::Two(Binary::Or)),
    Class::Numbers(Numeric::Two(Binary::Xor)),
    Class::Numbers(Numeric::Two(Binary::ShiftRight)),
    Class::Numbers(Numeric::Two(Binary::ShiftRightUnsigned)),
    Class::Numbers(Numeric::Comparison),
    Class::Always(Plain::Select),
    Class::Numbers(Numeric::Resized(Resizing::ExtendSigned)),
    Class::Numbers(Numeric::Resized(Resizing::Extend)),
    Class::Numbers(Numeric::Truncation),
    Class::Memory(Memory::TakesPart),
    Class::Memory(Memory::PutsPart),
    Class::Memory(Memory::MovesPointer),
    Class::Memory(Memory::Load),
    Class::Memory(Memory::Store),
];

fn class_in(table: &'static [Class], number: u8) -> Class
    ensures { result ≡ get_or table.now number class.Nothing }
{
    match table.get(usize::from(number)) {
        Some(class) => *class,
        None => Class::Nothing,
    }
}

/// What tells the form of an operation of this name. No bytes are compared.
#[tactic(auto, using(crate::proofs::ClassTable::table))]
pub fn class_of(name: &Name) -> Class
    ensures { class_view result ≡ model.class_of name.now model.classes }
{
    match name.number() {
        Some(number) => class_in(CLASSES, number),
        None => Class::Nothing,
    }
}
