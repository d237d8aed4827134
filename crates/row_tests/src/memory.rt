//! Cases of memref_lowering and func_lowering.

use crate::shapes::{Case, Note, Notes, Ty};
use tree_model::Dim;

const BIT: Ty = Ty::Int(1);

const I16: Ty = Ty::Int(16);

const I32: Ty = Ty::Int(32);

const N: Ty = Ty::Index;

// Of rank 0, of one open dimension, and of a fixed and an open one.
const CELL: Ty = Ty::Memref(&[], 8);

const OPEN: Ty = Ty::Memref(&[Dim::Dynamic], 32);

const TABLE: Ty = Ty::Memref(&[Dim::Fixed(4), Dim::Dynamic], 16);

const CUBE: Ty = Ty::Memref(&[Dim::Dynamic, Dim::Fixed(2), Dim::Dynamic], 64);

const ALIGNED: Notes = &[(b"alignment", Note::Number(64, Ty::Int(64)))];

const CALLEE: Notes = &[(b"callee", Note::Symbol(b"g"))];

macro_rules! case {
    ($at:literal, $bits:literal, $name:literal, $operands:expr, $results:expr) => {
        case!($at, $bits, $name, $operands, $results, &[])
    };
    ($at:literal, $bits:literal, $name:literal, $operands:expr, $results:expr, $props:expr) => {
        Case {
            at: $at,
            bits: $bits,
            name: $name,
            operands: $operands,
            results: $results,
            props: $props,
            attrs: &[],
            successors: 0,
            regions: 0,
        }
    };
}

/// Cases of memref_lowering.
pub const MEMREF: &[Case] = &[
    case!(0, 64, b"memref.alloc", &[], &[CELL]),
    case!(0, 32, b"memref.alloc", &[N], &[OPEN]),
    case!(0, 64, b"memref.alloc", &[N], &[TABLE]),
    case!(0, 64, b"memref.alloc", &[N, N], &[CUBE]),
    case!(0, 64, b"memref.alloc", &[], &[OPEN]),
    case!(0, 64, b"memref.alloc", &[N], &[OPEN], ALIGNED),
    case!(1, 64, b"memref.alloc", &[N], &[OPEN], ALIGNED),
    case!(1, 32, b"memref.alloc", &[], &[CELL], ALIGNED),
    case!(1, 64, b"memref.alloc", &[N], &[OPEN]),
    case!(2, 64, b"memref.dealloc", &[TABLE], &[]),
    case!(3, 64, b"memref.load", &[CELL], &[Ty::Int(8)]),
    case!(3, 64, b"memref.load", &[TABLE, N, N], &[I16]),
    case!(3, 32, b"memref.load", &[OPEN, N], &[I32]),
    case!(3, 64, b"memref.load", &[TABLE, N], &[I16]),
    case!(4, 64, b"memref.store", &[I32, OPEN, N], &[]),
    case!(4, 32, b"memref.store", &[Ty::Int(8), CELL], &[]),
    case!(5, 64, b"memref.dim", &[OPEN, N], &[N]),
    case!(5, 64, b"memref.dim", &[CUBE, N], &[N]),
    case!(5, 64, b"memref.dim", &[CELL, N], &[N]),
    case!(6, 64, b"memref.rank", &[CUBE], &[N]),
    case!(6, 32, b"memref.rank", &[CELL], &[N]),
    case!(
        7,
        64,
        b"memref.cast",
        &[OPEN],
        &[Ty::Memref(&[Dim::Fixed(5)], 32)]
    ),
    case!(7, 64, b"memref.cast", &[OPEN], &[TABLE]),
];

/// Cases of the straight rows of func_lowering.
pub const FUNC: &[Case] = &[
    case!(1, 64, b"func.call", &[I32, N], &[I32], CALLEE),
    case!(1, 64, b"func.call", &[], &[], CALLEE),
    case!(1, 64, b"func.call", &[I32, TABLE, CELL], &[N, I32], CALLEE),
    case!(1, 32, b"func.call", &[OPEN], &[OPEN], CALLEE),
    case!(1, 64, b"func.call", &[], &[]),
    case!(2, 64, b"func.return", &[], &[]),
    case!(2, 64, b"func.return", &[N], &[]),
    case!(2, 64, b"func.return", &[I32, N, BIT], &[]),
    case!(0, 64, b"func.func", &[], &[]),
];

/// Cases of the row of casts.
pub const CASTS: &[Case] = &[
    case!(
        0,
        64,
        b"builtin.unrealized_conversion_cast",
        &[N],
        &[Ty::Int(64)]
    ),
    case!(
        0,
        32,
        b"builtin.unrealized_conversion_cast",
        &[N],
        &[Ty::Int(64)]
    ),
    case!(
        0,
        64,
        b"builtin.unrealized_conversion_cast",
        &[OPEN],
        &[OPEN]
    ),
];

macro_rules! function {
    ($bits:literal, $props:expr, $attrs:expr) => {
        Case {
            at: 0,
            bits: $bits,
            name: b"func.func",
            operands: &[],
            results: &[],
            props: $props,
            attrs: $attrs,
            successors: 0,
            regions: 1,
        }
    };
}

/// Cases of the framing row.
pub const FUNCTIONS: &[Case] = &[
    function!(
        64,
        &[
            (
                b"function_type",
                Note::Function(&[I32, N, TABLE], &[N, CELL])
            ),
            (b"sym_name", Note::Text(b"f")),
            (b"sym_visibility", Note::Text(b"private")),
        ],
        &[(b"linkage", Note::Unit), (b"test.kept", Note::Unit)]
    ),
    function!(
        32,
        &[
            (b"function_type", Note::Function(&[OPEN], &[])),
            (b"sym_name", Note::Text(b"g")),
        ],
        &[]
    ),
    function!(64, &[(b"sym_name", Note::Text(b"h"))], &[]),
];
