//! Cases of arith_lowering, arith_expand and cf_lowering.

use crate::shapes::{Case, Note, Notes, Ty};
use tree_model::Dim;

const BIT: Ty = Ty::Int(1);

const I8: Ty = Ty::Int(8);

const I32: Ty = Ty::Int(32);

const I64: Ty = Ty::Int(64);

const N: Ty = Ty::Index;

const BUFFER: Ty = Ty::Memref(&[Dim::Dynamic], 32);

const WRAPS: Notes = &[(
    b"overflowFlags",
    Note::Words(b"arith.overflow", &[b"nsw", b"nuw"]),
)];

macro_rules! case {
    ($at:literal, $bits:literal, $name:literal, $operands:expr, $results:expr) => {
        case!($at, $bits, $name, $operands, $results, &[])
    };
    ($at:literal, $bits:literal, $name:literal, $operands:expr, $results:expr, $props:expr) => {
        case!($at, $bits, $name, $operands, $results, $props, 0)
    };
    ($at:literal, $bits:literal, $name:literal, $operands:expr, $results:expr, $props:expr, $successors:literal) => {
        Case {
            at: $at,
            bits: $bits,
            name: $name,
            operands: $operands,
            results: $results,
            props: $props,
            attrs: &[],
            successors: $successors,
            regions: 0,
        }
    };
}

/// Cases of arith_lowering.
pub const ARITH: &[Case] = &[
    case!(
        0,
        64,
        b"arith.constant",
        &[],
        &[I32],
        &[(b"value", Note::Number(-7, I32))]
    ),
    case!(
        0,
        64,
        b"arith.constant",
        &[],
        &[N],
        &[(b"value", Note::Number(4294967295, N))]
    ),
    case!(
        0,
        32,
        b"arith.constant",
        &[],
        &[N],
        &[(b"value", Note::Number(4294967295, N))]
    ),
    case!(
        0,
        64,
        b"arith.constant",
        &[],
        &[BIT],
        &[(b"value", Note::Number(-1, BIT))]
    ),
    case!(
        0,
        64,
        b"arith.constant",
        &[],
        &[I32],
        &[(b"value", Note::Unit)]
    ),
    case!(1, 64, b"arith.addi", &[I32, I32], &[I32]),
    case!(1, 64, b"arith.addi", &[N, N], &[N], WRAPS),
    case!(1, 32, b"arith.addi", &[N, N], &[N]),
    case!(1, 64, b"arith.addi", &[I32], &[I32]),
    case!(2, 64, b"arith.subi", &[I8, I8], &[I8], WRAPS),
    case!(3, 64, b"arith.muli", &[I32, I32], &[I32], WRAPS),
    case!(4, 64, b"arith.divsi", &[I32, I32], &[I32]),
    case!(5, 64, b"arith.divui", &[I32, I32], &[I32]),
    case!(6, 64, b"arith.remsi", &[I32, I32], &[I32]),
    case!(7, 64, b"arith.remui", &[N, N], &[N]),
    case!(8, 64, b"arith.andi", &[BIT, BIT], &[BIT]),
    case!(9, 64, b"arith.ori", &[I32, I32], &[I32]),
    case!(10, 64, b"arith.xori", &[I32, I32], &[I32]),
    case!(11, 64, b"arith.shli", &[I32, I32], &[I32], WRAPS),
    case!(12, 64, b"arith.shrsi", &[I32, I32], &[I32]),
    case!(13, 64, b"arith.shrui", &[I32, I32], &[I32]),
    case!(
        14,
        64,
        b"arith.cmpi",
        &[I32, I32],
        &[BIT],
        &[(b"predicate", Note::Number(6, I64))]
    ),
    case!(14, 64, b"arith.cmpi", &[I32, I32], &[BIT]),
    case!(15, 64, b"arith.select", &[BIT, N, N], &[N]),
    case!(15, 64, b"arith.select", &[BIT, BUFFER, BUFFER], &[BUFFER]),
    case!(16, 64, b"arith.extsi", &[I8], &[I32]),
    case!(17, 64, b"arith.extui", &[BIT], &[I64]),
    case!(18, 64, b"arith.trunci", &[I64], &[I8], WRAPS),
    case!(19, 64, b"arith.index_cast", &[I32], &[N]),
    case!(19, 64, b"arith.index_cast", &[N], &[I32]),
    case!(19, 64, b"arith.index_cast", &[N], &[I64]),
    case!(19, 32, b"arith.index_cast", &[N], &[I64]),
    case!(20, 64, b"arith.index_castui", &[I32], &[N]),
    case!(20, 64, b"arith.index_castui", &[N], &[I8]),
    case!(20, 32, b"arith.index_castui", &[I32], &[N]),
    case!(21, 64, b"arith.maxsi", &[I32, I32], &[I32]),
    case!(22, 64, b"arith.maxui", &[I32, I32], &[I32]),
    case!(23, 64, b"arith.minsi", &[N, N], &[N]),
    case!(24, 64, b"arith.minui", &[I32, I32], &[I32]),
    case!(25, 64, b"arith.addi", &[I32, I32], &[I32]),
];

/// Cases of arith_expand.
pub const EXPAND: &[Case] = &[
    case!(0, 64, b"arith.ceildivsi", &[I32, I32], &[I32]),
    case!(0, 64, b"arith.ceildivsi", &[BIT, BIT], &[BIT]),
    case!(1, 64, b"arith.ceildivui", &[N, N], &[N]),
    case!(2, 64, b"arith.floordivsi", &[I32, I32], &[I32]),
    case!(3, 64, b"arith.maxsi", &[I32, I32], &[I32]),
    case!(4, 64, b"arith.minsi", &[I32, I32], &[I32]),
    case!(4, 64, b"arith.minsi", &[I32, I32, I32], &[I32]),
];

const ONE_TWO: Notes = &[(b"operandSegmentSizes", Note::Numbers(32, &[1, 1, 2]))];

const ONE_ONE: Notes = &[(b"operandSegmentSizes", Note::Numbers(32, &[1, 0, 1]))];

/// Cases of cf_lowering.
pub const BRANCHES: &[Case] = &[
    case!(0, 64, b"cf.br", &[], &[], &[], 1),
    case!(0, 64, b"cf.br", &[N, I32], &[], &[], 1),
    case!(1, 64, b"cf.cond_br", &[BIT, N, I32, I32], &[], ONE_TWO, 2),
    case!(1, 64, b"cf.cond_br", &[BIT], &[], &[], 2),
    case!(2, 64, b"llvm.br", &[N], &[], &[], 1),
    case!(2, 64, b"llvm.br", &[I32], &[], &[], 1),
    case!(3, 64, b"llvm.cond_br", &[BIT, BUFFER], &[], ONE_ONE, 2),
    case!(3, 64, b"llvm.cond_br", &[BIT, I32], &[], ONE_ONE, 2),
];
