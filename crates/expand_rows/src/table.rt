//! The rows as tables of lines.

ghost use Rattle.std.specs.Prelude.{◌≡◌, map};
ghost use Rattle.legal_graph.specs.Graphs.{info_of};
ghost use Rattle.pattern_model.specs.ExpandRows.{expand_set};
ghost use Rattle.expand_rows.specs.Table.{info_at, pattern_at};

use conversion_model::Source;
use row_code::{Line, Makes, Props};

/// A pattern: its root, the names that it may make, and the operations of its row.
#[derive(Clone, Copy, Debug)]
pub struct Entry {
    pub root: &'static [u8],
    pub products: &'static [&'static [u8]],
    pub lines: &'static [Line],
}

// The quotient towards zero, and one more of it where there is a rest and the operands have the same sign.
const UP_SIGNED: &[Line] = &[
    Line {
        name: b"arith.divsi",
        sources: &[Source::Operand(0), Source::Operand(1)],
        props: Props::Nothing,
        makes: Makes::Same,
    },
    Line {
        name: b"arith.muli",
        sources: &[Source::Made(0), Source::Operand(1)],
        props: Props::Nothing,
        makes: Makes::Same,
    },
    Line {
        name: b"arith.cmpi",
        sources: &[Source::Operand(0), Source::Made(1)],
        props: Props::Predicate(1),
        makes: Makes::Bit,
    },
    Line {
        name: b"arith.constant",
        sources: &[],
        props: Props::Constant(0),
        makes: Makes::Same,
    },
    Line {
        name: b"arith.cmpi",
        sources: &[Source::Operand(0), Source::Made(3)],
        props: Props::Predicate(2),
        makes: Makes::Bit,
    },
    Line {
        name: b"arith.cmpi",
        sources: &[Source::Operand(1), Source::Made(3)],
        props: Props::Predicate(2),
        makes: Makes::Bit,
    },
    Line {
        name: b"arith.cmpi",
        sources: &[Source::Made(4), Source::Made(5)],
        props: Props::Predicate(0),
        makes: Makes::Bit,
    },
    Line {
        name: b"arith.andi",
        sources: &[Source::Made(2), Source::Made(6)],
        props: Props::Nothing,
        makes: Makes::Bit,
    },
    Line {
        name: b"arith.constant",
        sources: &[],
        props: Props::Constant(1),
        makes: Makes::Same,
    },
    Line {
        name: b"arith.addi",
        sources: &[Source::Made(0), Source::Made(8)],
        props: Props::Nothing,
        makes: Makes::Same,
    },
    Line {
        name: b"arith.select",
        sources: &[Source::Made(7), Source::Made(9), Source::Made(0)],
        props: Props::Nothing,
        makes: Makes::Same,
    },
];

// Of 0 it is 0, else 1 + (a - 1) / b.
const UP_UNSIGNED: &[Line] = &[
    Line {
        name: b"arith.constant",
        sources: &[],
        props: Props::Constant(0),
        makes: Makes::Same,
    },
    Line {
        name: b"arith.constant",
        sources: &[],
        props: Props::Constant(1),
        makes: Makes::Same,
    },
    Line {
        name: b"arith.cmpi",
        sources: &[Source::Operand(0), Source::Made(0)],
        props: Props::Predicate(0),
        makes: Makes::Bit,
    },
    Line {
        name: b"arith.subi",
        sources: &[Source::Operand(0), Source::Made(1)],
        props: Props::Nothing,
        makes: Makes::Same,
    },
    Line {
        name: b"arith.divui",
        sources: &[Source::Made(3), Source::Operand(1)],
        props: Props::Nothing,
        makes: Makes::Same,
    },
    Line {
        name: b"arith.addi",
        sources: &[Source::Made(4), Source::Made(1)],
        props: Props::Nothing,
        makes: Makes::Same,
    },
    Line {
        name: b"arith.select",
        sources: &[Source::Made(2), Source::Made(0), Source::Made(5)],
        props: Props::Nothing,
        makes: Makes::Same,
    },
];

// The quotient towards zero, and one less of it where there is a rest and the operands have unlike signs.
const DOWN_SIGNED: &[Line] = &[
    Line {
        name: b"arith.divsi",
        sources: &[Source::Operand(0), Source::Operand(1)],
        props: Props::Nothing,
        makes: Makes::Same,
    },
    Line {
        name: b"arith.muli",
        sources: &[Source::Made(0), Source::Operand(1)],
        props: Props::Nothing,
        makes: Makes::Same,
    },
    Line {
        name: b"arith.cmpi",
        sources: &[Source::Operand(0), Source::Made(1)],
        props: Props::Predicate(1),
        makes: Makes::Bit,
    },
    Line {
        name: b"arith.constant",
        sources: &[],
        props: Props::Constant(0),
        makes: Makes::Same,
    },
    Line {
        name: b"arith.cmpi",
        sources: &[Source::Operand(0), Source::Made(3)],
        props: Props::Predicate(2),
        makes: Makes::Bit,
    },
    Line {
        name: b"arith.cmpi",
        sources: &[Source::Operand(1), Source::Made(3)],
        props: Props::Predicate(2),
        makes: Makes::Bit,
    },
    Line {
        name: b"arith.cmpi",
        sources: &[Source::Made(4), Source::Made(5)],
        props: Props::Predicate(1),
        makes: Makes::Bit,
    },
    Line {
        name: b"arith.andi",
        sources: &[Source::Made(2), Source::Made(6)],
        props: Props::Nothing,
        makes: Makes::Bit,
    },
    Line {
        name: b"arith.constant",
        sources: &[],
        props: Props::Constant(1),
        makes: Makes::Same,
    },
    Line {
        name: b"arith.subi",
        sources: &[Source::Made(0), Source::Made(8)],
        props: Props::Nothing,
        makes: Makes::Same,
    },
    Line {
        name: b"arith.select",
        sources: &[Source::Made(7), Source::Made(9), Source::Made(0)],
        props: Props::Nothing,
        makes: Makes::Same,
    },
];

// By a comparison with sgt.
const GREATEST: &[Line] = &[
    Line {
        name: b"arith.cmpi",
        sources: &[Source::Operand(0), Source::Operand(1)],
        props: Props::Predicate(4),
        makes: Makes::Bit,
    },
    Line {
        name: b"arith.select",
        sources: &[Source::Made(0), Source::Operand(0), Source::Operand(1)],
        props: Props::Nothing,
        makes: Makes::Same,
    },
];

// By a comparison with slt.
const LEAST: &[Line] = &[
    Line {
        name: b"arith.cmpi",
        sources: &[Source::Operand(0), Source::Operand(1)],
        props: Props::Predicate(2),
        makes: Makes::Bit,
    },
    Line {
        name: b"arith.select",
        sources: &[Source::Made(0), Source::Operand(0), Source::Operand(1)],
        props: Props::Nothing,
        makes: Makes::Same,
    },
];

// The rows, in the order of the table.
const ROWS: &[Entry] = &[
    Entry {
        root: b"arith.ceildivsi",
        products: &[
            b"arith.divsi",
            b"arith.muli",
            b"arith.cmpi",
            b"arith.constant",
            b"arith.andi",
            b"arith.addi",
            b"arith.select",
        ],
        lines: UP_SIGNED,
    },
    Entry {
        root: b"arith.ceildivui",
        products: &[
            b"arith.constant",
            b"arith.cmpi",
            b"arith.subi",
            b"arith.divui",
            b"arith.addi",
            b"arith.select",
        ],
        lines: UP_UNSIGNED,
    },
    Entry {
        root: b"arith.floordivsi",
        products: &[
            b"arith.divsi",
            b"arith.muli",
            b"arith.cmpi",
            b"arith.constant",
            b"arith.andi",
            b"arith.subi",
            b"arith.select",
        ],
        lines: DOWN_SIGNED,
    },
    Entry {
        root: b"arith.maxsi",
        products: &[b"arith.cmpi", b"arith.select"],
        lines: GREATEST,
    },
    Entry {
        root: b"arith.minsi",
        products: &[b"arith.cmpi", b"arith.select"],
        lines: LEAST,
    },
];

/// The rows, in the order of the table.
pub fn entries() -> &'static [Entry]
    ensures patterns { map pattern_at result.now ≡ expand_set }
    ensures infos { map info_at result.now ≡ map info_of expand_set }
{
    ROWS
}
