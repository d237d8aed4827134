//! Functions and choices for them as constants, and the trees that they stand for.

use conversion_model::{Source, StepList, StepTree, TemplateTree};
use cut_code::{
    CutLabel, CutValue, FrameTree, PartList, PartTree, PieceList, PieceTree, ProductTree,
};
use sqlite_items::Items;
use std::alloc::Global;
use std::rc::Rc;
use tree_model::{
    BlockList, BlockTree, Name, NoMemory, OpList, OpTree, RegionList, RegionTree, TypeList,
    TypeTree, ValueList,
};
use unit_slots::{Choices, CutTree, Framing, LineList, Slot};

/// A type of a value.
#[derive(Clone, Copy, Debug)]
pub enum Ty {
    Index,
    I64,
}

/// Values with their types.
pub type Values = &'static [(u32, Ty)];

/// An operation without regions.
#[derive(Clone, Copy, Debug)]
pub struct Leaf {
    pub name: &'static [u8],
    pub results: Values,
    pub operands: &'static [u32],
    pub successors: &'static [u32],
}

/// A block of operations without regions.
#[derive(Clone, Copy, Debug)]
pub struct Inner {
    pub label: u32,
    pub args: Values,
    pub ops: &'static [Leaf],
}

/// An operation with the blocks of its region, where it has one.
#[derive(Clone, Copy, Debug)]
pub struct Outer {
    pub leaf: Leaf,
    pub inside: Option<&'static [Inner]>,
}

/// A block of a function.
#[derive(Clone, Copy, Debug)]
pub struct Block {
    pub label: u32,
    pub args: Values,
    pub ops: &'static [Outer],
}

/// An operation of a template.
#[derive(Clone, Copy, Debug)]
pub struct Step {
    pub name: &'static [u8],
    pub sources: &'static [Source],
    pub makes: &'static [Ty],
}

/// A template.
#[derive(Clone, Copy, Debug)]
pub struct Line {
    pub steps: &'static [Step],
    pub results: &'static [Source],
}

/// A product of a cut, with the template in its place where there is one.
#[derive(Clone, Copy, Debug)]
pub struct Product {
    pub name: &'static [u8],
    pub results: Values,
    pub operands: &'static [CutValue],
    pub successors: &'static [CutLabel],
    pub line: Option<Line>,
}

/// A piece of a cut.
#[derive(Clone, Copy, Debug)]
pub enum Piece {
    Makes(Product),
    Opens(CutLabel, Values),
    Held(u32, u32),
    Stands(u32, Ty, u32),
}

/// What is chosen for an operation.
#[derive(Clone, Copy, Debug)]
pub enum Chosen {
    Keeps,
    Line(Line),
    Cuts(&'static [Piece]),
}

/// What a function becomes: its new name, the types of its parameters by its old arguments, and the steps at its start.
#[derive(Clone, Copy, Debug)]
pub struct Frame {
    pub name: &'static [u8],
    pub parts: &'static [&'static [Ty]],
    pub entry: Line,
}

/// A function with what is chosen for it.
#[derive(Clone, Copy, Debug)]
pub struct Case {
    pub about: &'static [u8],
    pub blocks: &'static [Block],
    pub chosen: &'static [Chosen],
    pub frame: Option<Frame>,
}

fn type_tree(ty: Ty) -> TypeTree {
    match ty {
        Ty::Index => TypeTree::Index,
        Ty::I64 => TypeTree::Int(64),
    }
}

fn types(alloc: Global, list: &[Ty]) -> Result<TypeList, NoMemory> {
    let mut all = Items::new(alloc);
    for ty in list {
        all.push(type_tree(*ty))?;
    }
    Ok(all)
}

fn values(alloc: Global, list: &[(u32, Ty)]) -> Result<ValueList, NoMemory> {
    let mut all = Items::new(alloc);
    for (number, ty) in list {
        all.push((*number, type_tree(*ty)))?;
    }
    Ok(all)
}

// Functions

fn op_tree(alloc: Global, leaf: &Leaf, regions: RegionList) -> Result<OpTree, NoMemory> {
    let name = Name::from_slice(alloc, leaf.name)?;
    let results = values(alloc, leaf.results)?;
    let operands = Items::from_slice(alloc, leaf.operands)?;
    let successors = Items::from_slice(alloc, leaf.successors)?;
    Ok(OpTree {
        name,
        results,
        operands,
        props: Items::new(alloc),
        attrs: Items::new(alloc),
        regions,
        successors,
    })
}

fn leaves(alloc: Global, list: &[Leaf]) -> Result<OpList, NoMemory> {
    let mut all = Items::new(alloc);
    for leaf in list {
        all.push(op_tree(alloc, leaf, Items::new(alloc))?)?;
    }
    Ok(all)
}

fn inner_blocks(alloc: Global, list: &[Inner]) -> Result<BlockList, NoMemory> {
    let mut all = Items::new(alloc);
    for block in list {
        let args = values(alloc, block.args)?;
        let ops = leaves(alloc, block.ops)?;
        all.push(BlockTree {
            label: block.label,
            args,
            ops,
        })?;
    }
    Ok(all)
}

fn region(alloc: Global, blocks: BlockList) -> Result<RegionList, NoMemory> {
    let mut all = Items::new(alloc);
    all.push(RegionTree { blocks })?;
    Ok(all)
}

fn regions(alloc: Global, inside: Option<&[Inner]>) -> Result<RegionList, NoMemory> {
    match inside {
        Some(list) => region(alloc, inner_blocks(alloc, list)?),
        None => Ok(Items::new(alloc)),
    }
}

fn outer_ops(alloc: Global, list: &[Outer]) -> Result<OpList, NoMemory> {
    let mut all = Items::new(alloc);
    for op in list {
        let inside = regions(alloc, op.inside)?;
        all.push(op_tree(alloc, &op.leaf, inside)?)?;
    }
    Ok(all)
}

fn blocks(alloc: Global, list: &[Block]) -> Result<BlockList, NoMemory> {
    let mut all = Items::new(alloc);
    for block in list {
        let args = values(alloc, block.args)?;
        let ops = outer_ops(alloc, block.ops)?;
        all.push(BlockTree {
            label: block.label,
            args,
            ops,
        })?;
    }
    Ok(all)
}

const FUNCTION: Leaf = Leaf {
    name: b"func.func",
    results: &[],
    operands: &[],
    successors: &[],
};

/// The function of a case.
pub fn function(alloc: Global, case: &Case) -> Result<OpTree, NoMemory> {
    let body = region(alloc, blocks(alloc, case.blocks)?)?;
    op_tree(alloc, &FUNCTION, body)
}

// Choices

fn step_tree(alloc: Global, step: &Step) -> Result<StepTree, NoMemory> {
    let name = Name::from_slice(alloc, step.name)?;
    let sources = Items::from_slice(alloc, step.sources)?;
    let makes = types(alloc, step.makes)?;
    Ok(StepTree {
        name,
        props: Items::new(alloc),
        sources,
        successors: Items::new(alloc),
        makes,
    })
}

fn steps(alloc: Global, list: &[Step]) -> Result<StepList, NoMemory> {
    let mut all = Items::new(alloc);
    for step in list {
        all.push(step_tree(alloc, step)?)?;
    }
    Ok(all)
}

fn template(alloc: Global, line: &Line) -> Result<TemplateTree, NoMemory> {
    let steps = steps(alloc, line.steps)?;
    let results = Items::from_slice(alloc, line.results)?;
    Ok(TemplateTree { steps, results })
}

fn product_tree(alloc: Global, product: &Product) -> Result<PieceTree, NoMemory> {
    let name = Name::from_slice(alloc, product.name)?;
    let results = values(alloc, product.results)?;
    let operands = Items::from_slice(alloc, product.operands)?;
    let successors = Items::from_slice(alloc, product.successors)?;
    Ok(PieceTree::Product(ProductTree {
        name,
        results,
        operands,
        props: Items::new(alloc),
        successors,
        known: Items::new(alloc),
    }))
}

fn piece_tree(alloc: Global, piece: &Piece) -> Result<PieceTree, NoMemory> {
    match piece {
        Piece::Makes(made) => product_tree(alloc, made),
        Piece::Opens(label, args) => Ok(PieceTree::Opens(*label, values(alloc, args)?)),
        Piece::Held(region, block) => Ok(PieceTree::Held(*region, *block)),
        Piece::Stands(known, ty, value) => { Ok(PieceTree::Stands(*known, type_tree(*ty), *value)) }
    }
}

fn pieces(alloc: Global, list: &[Piece]) -> Result<PieceList, NoMemory> {
    let mut all = Items::new(alloc);
    for piece in list {
        all.push(piece_tree(alloc, piece)?)?;
    }
    Ok(all)
}

fn line_of(alloc: Global, piece: &Piece) -> Result<Option<TemplateTree>, NoMemory> {
    match piece {
        Piece::Makes(made) => match &made.line {
            Some(line) => Ok(Some(template(alloc, line)?)),
            None => Ok(None),
        },
        _ => Ok(None),
    }
}

fn lines(alloc: Global, list: &[Piece]) -> Result<LineList, NoMemory> {
    let mut all = Items::new(alloc);
    for piece in list {
        all.push(line_of(alloc, piece)?)?;
    }
    Ok(all)
}

fn cut(alloc: Global, list: &[Piece]) -> Result<CutTree, NoMemory> {
    let pieces = pieces(alloc, list)?;
    let lines = lines(alloc, list)?;
    Ok(CutTree {
        place: 0,
        pieces,
        lines,
    })
}

fn slot(alloc: Global, chosen: &Chosen) -> Result<Slot, NoMemory> {
    match chosen {
        Chosen::Keeps => Ok(Slot::Keeps),
        Chosen::Line(line) => Ok(Slot::Line(Rc::new(alloc, template(alloc, line)?)?)),
        Chosen::Cuts(list) => Ok(Slot::Cuts(cut(alloc, list)?)),
    }
}

fn slots(alloc: Global, list: &[Chosen]) -> Result<Vec<Slot>, NoMemory> {
    let mut all = Vec::new(alloc);
    for chosen in list {
        all.push(slot(alloc, chosen)?)?;
    }
    Ok(all)
}

const NOTHING: Line = Line {
    steps: &[],
    results: &[],
};

fn part(alloc: Global, list: &[Ty]) -> Result<PartTree, NoMemory> {
    let takes = types(alloc, list)?;
    let gives = template(alloc, &NOTHING)?;
    Ok(PartTree { takes, gives })
}

fn parts(alloc: Global, list: &[&[Ty]]) -> Result<PartList, NoMemory> {
    let mut all = Items::new(alloc);
    for types in list {
        all.push(part(alloc, types)?)?;
    }
    Ok(all)
}

fn frame_tree(alloc: Global, frame: &Frame) -> Result<FrameTree, NoMemory> {
    let name = Name::from_slice(alloc, frame.name)?;
    let entry = parts(alloc, frame.parts)?;
    Ok(FrameTree {
        name,
        props: Items::new(alloc),
        attrs: Items::new(alloc),
        entry,
    })
}

fn framing(alloc: Global, frame: &Option<Frame>) -> Result<Option<Framing>, NoMemory> {
    match frame {
        Some(frame) => {
            let entry = template(alloc, &frame.entry)?;
            let frame = frame_tree(alloc, frame)?;
            Ok(Some(Framing { frame, entry }))
        }
        None => Ok(None),
    }
}

/// What is chosen in a case.
pub fn choices(alloc: Global, case: &Case) -> Result<Choices, NoMemory> {
    let framing = framing(alloc, &case.frame)?;
    let slots = slots(alloc, case.chosen)?;
    Ok(Choices { framing, slots })
}
