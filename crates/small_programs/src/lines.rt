//! Operations as lines, and the trees that they stand for.

use sqlite_items::{Boxed, Items};
use std::alloc::Global;
use tree_model::{
    AttrTree, BlockTree, Bytes, DictTree, Dim, DimList, FuncTree, ModuleTree, Name, NoMemory,
    OpTree, RegionTree, TypeList, TypeTree, ValueList, entry, one,
};

/// A type of a value.
#[derive(Clone, Copy, Debug)]
pub enum Ty {
    Int(u32),
    Index,
    Ptr,
    /// A memref of one open dimension, of integers of this width.
    Memref(u32),
    /// A memref of one dimension of this size, of integers of this width.
    Sized(u64, u32),
    /// A memref without dimensions, of an integer of this width.
    Cell(u32),
    /// The descriptor of a memref without dimensions: two pointers and an integer of 64 bits.
    Descriptor,
}

/// What a property says.
#[derive(Clone, Copy, Debug)]
pub enum Note<'a> {
    Nothing,
    /// The value of a constant.
    Value(i64, Ty),
    /// The number of a comparison.
    Predicate(i64),
    /// The function that is called.
    Callee(&'a [u8]),
    /// How many operands each successor takes, behind those of the operation itself.
    Segments(&'a [i64]),
    /// A word of an operation's promises.
    Promise(&'a [u8]),
    /// A path of fields and places.
    Position(&'a [i64]),
    /// The width of the integers by which a pointer moves.
    Element(u32),
    /// The cases of a choice among regions.
    Cases(&'a [i64]),
}

/// An operation: its name, its results with their types, its operands, what a property says, and its successors.
#[derive(Clone, Copy, Debug)]
pub struct Line<'a> {
    pub name: &'a [u8],
    pub results: &'a [(u32, Ty)],
    pub operands: &'a [u32],
    pub note: Note<'a>,
    pub successors: &'a [u32],
}

/// An operation without properties and successors.
pub fn plain<'a>(name: &'a [u8], results: &'a [(u32, Ty)], operands: &'a [u32]) -> Line<'a> {
    Line {
        name,
        results,
        operands,
        note: Note::Nothing,
        successors: &[],
    }
}

/// A constant.
pub fn constant<'a>(name: &'a [u8], results: &'a [(u32, Ty)], value: i64, ty: Ty) -> Line<'a> {
    Line {
        name,
        results,
        operands: &[],
        note: Note::Value(value, ty),
        successors: &[],
    }
}

fn memref(alloc: Global, dims: DimList, width: u32) -> Result<TypeTree, NoMemory> {
    let element = Boxed::new(alloc, TypeTree::Int(width))?;
    Ok(TypeTree::Memref(dims, element))
}

fn descriptor(alloc: Global) -> Result<TypeTree, NoMemory> {
    let mut fields = one(alloc, TypeTree::Ptr)?;
    fields.push(TypeTree::Ptr)?;
    fields.push(TypeTree::Int(64))?;
    Ok(TypeTree::Struct(fields))
}

fn type_tree(alloc: Global, ty: Ty) -> Result<TypeTree, NoMemory> {
    match ty {
        Ty::Int(width) => Ok(TypeTree::Int(width)),
        Ty::Index => Ok(TypeTree::Index),
        Ty::Ptr => Ok(TypeTree::Ptr),
        Ty::Memref(width) => memref(alloc, one(alloc, Dim::Dynamic)?, width),
        Ty::Sized(size, width) => memref(alloc, one(alloc, Dim::Fixed(size))?, width),
        Ty::Cell(width) => memref(alloc, Items::new(alloc), width),
        Ty::Descriptor => descriptor(alloc),
    }
}

fn types(alloc: Global, list: &[Ty]) -> Result<TypeList, NoMemory> {
    let mut all = Items::new(alloc);
    for ty in list {
        all.push(type_tree(alloc, *ty)?)?;
    }
    Ok(all)
}

fn values(alloc: Global, list: &[(u32, Ty)]) -> Result<ValueList, NoMemory> {
    let mut all = Items::new(alloc);
    for (number, ty) in list {
        all.push((*number, type_tree(alloc, *ty)?))?;
    }
    Ok(all)
}

fn promise(alloc: Global, word: &[u8]) -> Result<AttrTree, NoMemory> {
    let dialect = Name::from_slice(alloc, b"arith.overflow")?;
    let words = one(alloc, Name::from_slice(alloc, word)?)?;
    Ok(AttrTree::Dialect(dialect, words))
}

fn numbers(alloc: Global, width: u32, list: &[i64]) -> Result<AttrTree, NoMemory> {
    Ok(AttrTree::Ints(width, Items::from_slice(alloc, list)?))
}

fn properties(alloc: Global, note: Note<'_>) -> Result<DictTree, NoMemory> {
    match note {
        Note::Nothing => Ok(Items::new(alloc)),
        Note::Value(value, ty) => {
            let value = AttrTree::Int(value, type_tree(alloc, ty)?);
            entry(alloc, b"value", value)
        }
        Note::Predicate(number) => {
            let number = AttrTree::Int(number, TypeTree::Int(64));
            entry(alloc, b"predicate", number)
        }
        Note::Callee(name) => {
            let name = Bytes::from_slice(alloc, name)?;
            entry(alloc, b"callee", AttrTree::Symbol(name))
        }
        Note::Segments(counts) => {
            entry(alloc, b"operandSegmentSizes", numbers(alloc, 32, counts)?)
        }
        Note::Promise(word) => entry(alloc, b"overflowFlags", promise(alloc, word)?),
        Note::Position(path) => entry(alloc, b"position", numbers(alloc, 64, path)?),
        Note::Element(width) => {
            let element = AttrTree::OfType(TypeTree::Int(width));
            entry(alloc, b"elem_type", element)
        }
        Note::Cases(cases) => entry(alloc, b"cases", numbers(alloc, 64, cases)?),
    }
}

/// The operation of a line.
pub fn op(alloc: Global, line: &Line<'_>) -> Result<OpTree, NoMemory> {
    Ok(OpTree {
        name: Name::from_slice(alloc, line.name)?,
        results: values(alloc, line.results)?,
        operands: Items::from_slice(alloc, line.operands)?,
        props: properties(alloc, line.note)?,
        attrs: Items::new(alloc),
        regions: Items::new(alloc),
        successors: Items::from_slice(alloc, line.successors)?,
    })
}

/// The operations of lines behind those of a block.
pub fn add(alloc: Global, block: &mut BlockTree, lines: &[Line<'_>]) -> Result<(), NoMemory> {
    for line in lines {
        block.ops.push(op(alloc, line)?)?;
    }
    Ok(())
}

/// A block of lines.
pub fn block(
    alloc: Global,
    label: u32,
    args: &[(u32, Ty)],
    lines: &[Line<'_>],
) -> Result<BlockTree, NoMemory> {
    let mut block = BlockTree {
        label,
        args: values(alloc, args)?,
        ops: Items::new(alloc),
    };
    add(alloc, &mut block, lines)?;
    Ok(block)
}

/// The operation of a line that holds a region of one block.
pub fn holding(alloc: Global, line: &Line<'_>, block: BlockTree) -> Result<OpTree, NoMemory> {
    let mut holder = op(alloc, line)?;
    hold(alloc, &mut holder, block)?;
    Ok(holder)
}

/// Another region of one block for an operation.
pub fn hold(alloc: Global, holder: &mut OpTree, block: BlockTree) -> Result<(), NoMemory> {
    let blocks = one(alloc, block)?;
    holder.regions.push(RegionTree { blocks })?;
    Ok(())
}

fn func_props(
    alloc: Global,
    name: &[u8],
    inputs: &[Ty],
    outputs: &[Ty],
) -> Result<DictTree, NoMemory> {
    let inputs = types(alloc, inputs)?;
    let face = TypeTree::Func(inputs, types(alloc, outputs)?);
    let mut props = entry(alloc, b"function_type", AttrTree::OfType(face))?;
    let name = AttrTree::Str(Bytes::from_slice(alloc, name)?);
    props.push((Name::from_slice(alloc, b"sym_name")?, name))?;
    Ok(props)
}

/// A function of this name and type without a body.
pub fn declared(
    alloc: Global,
    name: &[u8],
    inputs: &[Ty],
    outputs: &[Ty],
) -> Result<FuncTree, NoMemory> {
    Ok(FuncTree {
        op: OpTree {
            name: Name::from_slice(alloc, b"func.func")?,
            results: Items::new(alloc),
            operands: Items::new(alloc),
            props: func_props(alloc, name, inputs, outputs)?,
            attrs: Items::new(alloc),
            regions: Items::new(alloc),
            successors: Items::new(alloc),
        },
    })
}

/// A function with these blocks.
pub fn defined(
    alloc: Global,
    name: &[u8],
    inputs: &[Ty],
    outputs: &[Ty],
    blocks: Items<BlockTree>,
) -> Result<FuncTree, NoMemory> {
    let mut func = declared(alloc, name, inputs, outputs)?;
    func.op.regions.push(RegionTree { blocks })?;
    Ok(func)
}

/// A module of one function.
pub fn module(alloc: Global, func: FuncTree) -> Result<ModuleTree, NoMemory> {
    Ok(ModuleTree {
        props: Items::new(alloc),
        attrs: Items::new(alloc),
        funcs: one(alloc, func)?,
    })
}
