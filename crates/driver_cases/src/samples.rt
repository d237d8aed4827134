//! Samples: sets of patterns with what a target says of names.

use crate::rows::Entry;
use conversion_model::Source;
use row_code::{Line, Makes, Props};

/// What is asked of operations of a dynamic name.
#[derive(Clone, Copy, Debug)]
pub enum Asks {
    Own,
    Has(&'static [u8]),
}

/// A dynamic name.
#[derive(Clone, Copy, Debug)]
pub struct Dynamic {
    pub name: &'static [u8],
    pub asks: Asks,
}

/// Patterns and a target. All other names are unknown.
#[derive(Clone, Copy, Debug)]
pub struct Sample {
    pub name: &'static [u8],
    pub entries: &'static [Entry],
    pub legal: &'static [&'static [u8]],
    pub dynamic: &'static [Dynamic],
    pub illegal: &'static [&'static [u8]],
}

const FIRST: Source = Source::Operand(0);

const SECOND: Source = Source::Operand(1);

macro_rules! line {
    ($name:literal, $sources:expr) => {
        Line {
            name: $name,
            sources: $sources,
            props: Props::Nothing,
            makes: Makes::Same,
        }
    };
}

macro_rules! entry {
    ($root:literal, $benefit:literal, $products:expr, $lines:expr) => {
        Entry {
            root: $root,
            products: $products,
            benefit: $benefit,
            converted: false,
            lines: $lines,
        }
    };
}

macro_rules! converting {
    ($root:literal, $products:expr, $lines:expr) => {
        Entry {
            root: $root,
            products: $products,
            benefit: 1,
            converted: true,
            lines: $lines,
        }
    };
}

macro_rules! link {
    ($root:literal, $next:literal) => {
        entry!($root, 1, &[$next], &[line!($next, &[FIRST])])
    };
}

macro_rules! asks {
    ($name:literal, $asks:expr) => {
        Dynamic {
            name: $name,
            asks: $asks,
        }
    };
}

/// A straight way, and a longer one of greater benefit, which turns the operands.
const SHALLOW: Sample = Sample {
    name: b"shallow",
    entries: &[
        entry!(b"t.a", 1, &[b"t.c"], &[line!(b"t.c", &[FIRST, SECOND])]),
        entry!(b"t.a", 9, &[b"t.b"], &[line!(b"t.b", &[FIRST, SECOND])]),
        entry!(b"t.b", 1, &[b"t.c"], &[line!(b"t.c", &[SECOND, FIRST])]),
    ],
    legal: &[b"t.c", b"func.func", b"func.return"],
    dynamic: &[],
    illegal: &[b"t.a"],
};

/// The product of the straight way lacks the attribute that is asked for.
const ATTRIBUTED: Sample = Sample {
    name: b"attributed",
    entries: &[
        entry!(b"t.a", 1, &[b"t.c"], &[line!(b"t.c", &[FIRST, SECOND])]),
        entry!(b"t.a", 9, &[b"t.b"], &[line!(b"t.b", &[FIRST, SECOND])]),
        entry!(b"t.b", 1, &[b"t.f"], &[line!(b"t.f", &[SECOND, FIRST])]),
    ],
    legal: &[b"t.f"],
    dynamic: &[asks!(b"t.c", Asks::Has(b"ok"))],
    illegal: &[b"t.a"],
};

/// The same without the longer way's second half.
const STUCK: Sample = Sample {
    name: b"stuck",
    entries: &[
        entry!(b"t.a", 1, &[b"t.c"], &[line!(b"t.c", &[FIRST, SECOND])]),
        entry!(b"t.a", 9, &[b"t.b"], &[line!(b"t.b", &[FIRST, SECOND])]),
    ],
    legal: &[],
    dynamic: &[asks!(b"t.c", Asks::Has(b"ok"))],
    illegal: &[b"t.a"],
};

/// Each pattern makes the root of the next one.
const CHAIN: Sample = Sample {
    name: b"chain",
    entries: &[
        link!(b"t.0", b"t.1"),
        link!(b"t.1", b"t.2"),
        link!(b"t.2", b"t.3"),
        link!(b"t.3", b"t.4"),
        link!(b"t.4", b"t.5"),
        link!(b"t.5", b"t.6"),
        link!(b"t.6", b"t.7"),
        link!(b"t.7", b"t.8"),
        link!(b"t.8", b"t.9"),
        link!(b"t.9", b"t.10"),
        link!(b"t.10", b"t.11"),
        link!(b"t.11", b"t.12"),
        link!(b"t.12", b"t.13"),
        link!(b"t.13", b"t.14"),
        link!(b"t.14", b"t.15"),
        link!(b"t.15", b"t.16"),
    ],
    legal: &[b"t.16", b"func.func", b"func.return"],
    dynamic: &[],
    illegal: &[b"t.0"],
};

/// Two patterns that make each other's root, and a way out that ends nowhere.
const CIRCLE: Sample = Sample {
    name: b"circle",
    entries: &[
        entry!(b"t.a", 1, &[b"t.b"], &[line!(b"t.b", &[SECOND, FIRST])]),
        entry!(b"t.b", 1, &[b"t.a"], &[line!(b"t.a", &[SECOND, FIRST])]),
        entry!(b"t.b", 1, &[b"t.c"], &[line!(b"t.c", &[FIRST, SECOND])]),
    ],
    legal: &[],
    dynamic: &[asks!(b"t.c", Asks::Has(b"ok"))],
    illegal: &[b"t.a"],
};

/// A pattern that makes its own root: its second operand, as a bit, becomes the first.
const TWICE: Sample = Sample {
    name: b"twice",
    entries: &[entry!(
        b"t.a",
        1,
        &[b"t.bit", b"t.a"],
        &[
            Line {
                name: b"t.bit",
                sources: &[SECOND],
                props: Props::Nothing,
                makes: Makes::Bit
            },
            line!(b"t.a", &[Source::Made(0), FIRST]),
        ]
    )],
    legal: &[b"t.bit"],
    dynamic: &[asks!(b"t.a", Asks::Own)],
    illegal: &[],
};

/// Four patterns of one root.
const BENEFITS: Sample = Sample {
    name: b"benefits",
    entries: &[
        entry!(b"t.a", 1, &[b"t.c"], &[line!(b"t.c", &[FIRST])]),
        entry!(b"t.a", 5, &[b"t.d"], &[line!(b"t.d", &[FIRST])]),
        entry!(b"t.a", 5, &[b"t.e"], &[line!(b"t.e", &[FIRST])]),
        entry!(b"t.a", 9, &[b"t.b"], &[line!(b"t.b", &[FIRST])]),
    ],
    legal: &[b"t.c", b"t.d", b"t.e"],
    dynamic: &[],
    illegal: &[b"t.a"],
};

/// Several products, two of which are replaced in turn.
const SEVERAL: Sample = Sample {
    name: b"several",
    entries: &[
        entry!(
            b"t.a",
            1,
            &[b"t.b", b"t.c"],
            &[
                line!(b"t.b", &[FIRST, SECOND]),
                line!(b"t.b", &[Source::Made(0), SECOND]),
                line!(b"t.c", &[Source::Made(1), Source::Made(0)]),
            ]
        ),
        entry!(
            b"t.b",
            1,
            &[b"t.d", b"t.c"],
            &[
                line!(b"t.d", &[SECOND]),
                line!(b"t.c", &[Source::Made(0), FIRST]),
            ]
        ),
    ],
    legal: &[b"t.c", b"t.d"],
    dynamic: &[],
    illegal: &[b"t.a"],
};

/// Operands and results in converted types.
const CASTS: Sample = Sample {
    name: b"casts",
    entries: &[
        converting!(b"t.add", &[b"u.add"], &[line!(b"u.add", &[FIRST, SECOND])]),
        converting!(b"t.dbl", &[b"t.add"], &[line!(b"t.add", &[FIRST, FIRST])]),
    ],
    legal: &[b"u.add", b"t.use", b"func.func", b"func.return"],
    dynamic: &[],
    illegal: &[b"t.add", b"t.dbl"],
};

const SAMPLES: &[Sample] = &[
    SHALLOW, ATTRIBUTED, STUCK, CHAIN, CIRCLE, TWICE, BENEFITS, SEVERAL, CASTS,
];

/// The sample of that name.
pub fn sample_named(name: &[u8]) -> Option<&'static Sample> {
    for sample in SAMPLES {
        if sample.name == name {
            return Some(sample);
        }
    }
    None
}
