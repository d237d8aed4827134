//! Functions with what is chosen for them.

use crate::shapes::{
    Block, Case, Chosen, Frame, Inner, Leaf, Line, Outer, Piece, Product, Step, Ty,
};
use conversion_model::Source;
use cut_code::{CutLabel, CutValue};

macro_rules! leaf {
    ($name:literal, $results:expr, $operands:expr) => {
        Leaf {
            name: $name,
            results: $results,
            operands: $operands,
            successors: &[],
        }
    };
}

macro_rules! plain {
    ($name:literal, $results:expr, $operands:expr) => {
        Outer {
            leaf: leaf!($name, $results, $operands),
            inside: None,
        }
    };
}

macro_rules! step {
    ($name:literal, $makes:expr, $sources:expr) => {
        Step {
            name: $name,
            sources: $sources,
            makes: $makes,
        }
    };
}

macro_rules! makes {
    ($name:literal, $results:expr, $operands:expr, $successors:expr, $line:expr) => {
        Piece::Makes(Product {
            name: $name,
            results: $results,
            operands: $operands,
            successors: $successors,
            line: $line,
        })
    };
}

const N: Ty = Ty::Index;

const I: Ty = Ty::I64;

/// A region inside of an operation, which is kept.
const KEPT: &[Block] = &[Block {
    label: 0,
    args: &[(0, N)],
    ops: &[
        plain!(b"t.one", &[(1, N)], &[0]),
        Outer {
            leaf: leaf!(b"t.loop", &[(2, N)], &[1]),
            inside: Some(&[Inner {
                label: 1,
                args: &[(3, N)],
                ops: &[leaf!(b"t.two", &[], &[3]), leaf!(b"t.end", &[], &[])],
            }]),
        },
        plain!(b"t.return", &[], &[2]),
    ],
}];

/// Two operations that templates replace.
const LINED: &[Block] = &[Block {
    label: 0,
    args: &[(0, N), (1, N)],
    ops: &[
        plain!(b"t.add", &[(2, N)], &[0, 1]),
        plain!(b"t.same", &[(3, N)], &[2]),
        plain!(b"t.return", &[], &[3]),
    ],
}];

const ADD: Line = Line {
    steps: &[
        step!(b"u.one", &[I], &[Source::Operand(0)]),
        step!(b"u.two", &[N], &[Source::Made(0), Source::Operand(1)]),
    ],
    results: &[Source::Made(1)],
};

const SAME: Line = Line {
    steps: &[],
    results: &[Source::Operand(0)],
};

/// An operation with a region that is cut: its block is held.
const BRANCHES: &[Block] = &[Block {
    label: 0,
    args: &[(0, N)],
    ops: &[
        Outer {
            leaf: leaf!(b"t.if", &[(1, N)], &[0]),
            inside: Some(&[Inner {
                label: 1,
                args: &[],
                ops: &[
                    leaf!(b"t.in", &[(2, N)], &[]),
                    leaf!(b"scf.yield", &[], &[2]),
                ],
            }]),
        },
        plain!(b"t.return", &[], &[1]),
    ],
}];

const COMPARES: Line = Line {
    steps: &[step!(b"u.compare", &[I], &[Source::Operand(0)])],
    results: &[Source::Made(0)],
};

const CUT: &[Piece] = &[
    makes!(
        b"t.compare",
        &[(0, I)],
        &[CutValue::Old(0)],
        &[],
        Some(COMPARES)
    ),
    makes!(
        b"t.branch",
        &[],
        &[CutValue::New(0)],
        &[CutLabel::New(0)],
        None
    ),
    Piece::Opens(CutLabel::New(0), &[]),
    Piece::Held(0, 0),
    makes!(
        b"t.jump",
        &[],
        &[CutValue::Old(2)],
        &[CutLabel::New(1)],
        None
    ),
    Piece::Opens(CutLabel::New(1), &[(1, N)]),
];

/// An operation whose result stands for a value.
const PASSES: &[Block] = &[Block {
    label: 0,
    args: &[(0, N)],
    ops: &[
        plain!(b"t.pass", &[(1, N)], &[0]),
        plain!(b"t.return", &[], &[1]),
    ],
}];

/// Two arguments that a frame replaces.
const FRAMED: &[Block] = &[Block {
    label: 0,
    args: &[(0, N), (1, I)],
    ops: &[plain!(b"t.return", &[], &[0, 1])],
}];

const FRAME: Frame = Frame {
    name: b"u.func",
    parts: &[&[I, I], &[I]],
    entry: Line {
        steps: &[step!(b"u.pack", &[N], &[Source::Operand(0), Source::Operand(1)])],
        results: &[Source::Made(0), Source::Operand(2)],
    },
};

/// All cases.
pub const CASES: &[Case] = &[
    Case {
        about: b"all is kept",
        blocks: KEPT,
        chosen: &[],
        frame: None,
    },
    Case {
        about: b"lines",
        blocks: LINED,
        chosen: &[Chosen::Keeps, Chosen::Line(ADD), Chosen::Line(SAME)],
        frame: None,
    },
    Case {
        about: b"a cut",
        blocks: BRANCHES,
        chosen: &[Chosen::Keeps, Chosen::Cuts(CUT)],
        frame: None,
    },
    Case {
        about: b"a result that stands for a value",
        blocks: PASSES,
        chosen: &[Chosen::Keeps, Chosen::Cuts(&[Piece::Stands(1, N, 0)])],
        frame: None,
    },
    Case {
        about: b"a frame",
        blocks: FRAMED,
        chosen: &[],
        frame: Some(FRAME),
    },
];
