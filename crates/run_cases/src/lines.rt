//! The lines of small programs. A line takes its operands by their numbers, and a program returns the number 9.

use small_programs::{Line, Note, Ty};

const N: Ty = Ty::Index;

const I: Ty = Ty::Int(32);

const L: Ty = Ty::Int(64);

const B: Ty = Ty::Int(1);

const E: Ty = Ty::Int(8);

const M: Ty = Ty::Memref(32);

const P: Ty = Ty::Ptr;

macro_rules! line {
    ($name:literal, $results:expr, $operands:expr) => {
        line!($name, $results, $operands, Note::Nothing)
    };
    ($name:literal, $results:expr, $operands:expr, $note:expr) => {
        Line {
            name: $name,
            results: $results,
            operands: $operands,
            note: $note,
            successors: &[],
        }
    };
}

pub const ZERO: Line<'static> = line!(b"arith.constant", &[(80, N)], &[], Note::Value(0, N));

pub const ONE_N: Line<'static> = line!(b"arith.constant", &[(81, N)], &[], Note::Value(1, N));

pub const MINUS_N: Line<'static> = line!(b"arith.constant", &[(81, N)], &[], Note::Value(-1, N));

pub const THREE_N: Line<'static> = line!(b"arith.constant", &[(82, N)], &[], Note::Value(3, N));

pub const SEVEN: Line<'static> = line!(b"arith.constant", &[(83, I)], &[], Note::Value(7, I));

pub const SEVENS: Line<'static> = line!(b"arith.constant", &[(83, I)], &[], Note::Value(1799, I));

pub const TRUE: Line<'static> = line!(b"arith.constant", &[(84, B)], &[], Note::Value(-1, B));

pub const BYTES_3: Line<'static> = line!(b"arith.constant", &[(85, L)], &[], Note::Value(3, L));

pub const BYTES_16: Line<'static> = line!(b"arith.constant", &[(86, L)], &[], Note::Value(16, L));

pub const BYTES_32: Line<'static> = line!(b"arith.constant", &[(87, L)], &[], Note::Value(32, L));

pub const BYTES_8192: Line<'static> = line!(
    b"arith.constant",
    &[(88, L)],
    &[],
    Note::Value(8192, L)
);

pub const ONE_BYTE: Line<'static> = line!(b"arith.constant", &[(89, E)], &[], Note::Value(1, E));

pub const TWO_BYTE: Line<'static> = line!(b"arith.constant", &[(89, E)], &[], Note::Value(2, E));

pub const NO_OFFSET: Line<'static> = line!(b"arith.constant", &[(90, L)], &[], Note::Value(0, L));

pub const ALLOC: Line<'static> = line!(b"memref.alloc", &[(1, M)], &[0]);

pub const ALLOC_WIDE: Line<'static> = line!(b"memref.alloc", &[(1, Ty::Sized(2147483648, 8))], &[]);

pub const ALLOC_3: Line<'static> = line!(b"memref.alloc", &[(1, M)], &[82]);

pub const DEALLOC: Line<'static> = line!(b"memref.dealloc", &[], &[1]);

pub const DIM: Line<'static> = line!(b"memref.dim", &[(9, N)], &[1, 80]);

pub const DIM_1: Line<'static> = line!(b"memref.dim", &[(9, N)], &[1, 81]);

pub const RANK: Line<'static> = line!(b"memref.rank", &[(9, N)], &[1]);

pub const CAST_4: Line<'static> = line!(b"memref.cast", &[(2, Ty::Sized(4, 32))], &[1]);

pub const DIM_CAST: Line<'static> = line!(b"memref.dim", &[(9, N)], &[2, 80]);

pub const STORE_AT: Line<'static> = line!(b"memref.store", &[], &[83, 1, 0]);

pub const LOAD_AT: Line<'static> = line!(b"memref.load", &[(9, I)], &[1, 0]);

pub const MALLOC: Line<'static> = line!(b"llvm.call", &[(10, P)], &[86], Note::Callee(b"malloc"));

pub const MALLOC_3: Line<'static> = line!(b"llvm.call", &[(10, P)], &[85], Note::Callee(b"malloc"));

pub const MALLOC_AGAIN: Line<'static> = line!(
    b"llvm.call",
    &[(20, P)],
    &[86],
    Note::Callee(b"malloc")
);

pub const FREE: Line<'static> = line!(b"llvm.call", &[], &[10], Note::Callee(b"free"));

pub const FREE_AGAIN: Line<'static> = line!(b"llvm.call", &[], &[20], Note::Callee(b"free"));

pub const FREE_MOVED: Line<'static> = line!(b"llvm.call", &[], &[16], Note::Callee(b"free"));

pub const FREE_UNSET: Line<'static> = line!(b"llvm.call", &[], &[31], Note::Callee(b"free"));

pub const ALIGNED: Line<'static> = line!(
    b"llvm.call",
    &[(10, P)],
    &[86, 87],
    Note::Callee(b"aligned_alloc")
);

pub const ALIGNED_3: Line<'static> = line!(
    b"llvm.call",
    &[(10, P)],
    &[85, 86],
    Note::Callee(b"aligned_alloc")
);

pub const ALIGNED_8192: Line<'static> = line!(
    b"llvm.call",
    &[(10, P)],
    &[88, 88],
    Note::Callee(b"aligned_alloc")
);

pub const ALIGNED_PART: Line<'static> = line!(
    b"llvm.call",
    &[(10, P)],
    &[86, 85],
    Note::Callee(b"aligned_alloc")
);

pub const UNSET_FIELDS: Line<'static> = line!(b"llvm.mlir.undef", &[(11, Ty::Descriptor)], &[]);

pub const FIRST: Line<'static> = line!(
    b"llvm.insertvalue",
    &[(12, Ty::Descriptor)],
    &[11, 10],
    Note::Position(&[0])
);

pub const SECOND: Line<'static> = line!(
    b"llvm.insertvalue",
    &[(13, Ty::Descriptor)],
    &[12, 10],
    Note::Position(&[1])
);

pub const MOVED_FIRST: Line<'static> = line!(
    b"llvm.insertvalue",
    &[(12, Ty::Descriptor)],
    &[11, 16],
    Note::Position(&[0])
);

pub const MOVED_SECOND: Line<'static> = line!(
    b"llvm.insertvalue",
    &[(13, Ty::Descriptor)],
    &[12, 16],
    Note::Position(&[1])
);

pub const OFFSET: Line<'static> = line!(
    b"llvm.insertvalue",
    &[(14, Ty::Descriptor)],
    &[13, 90],
    Note::Position(&[2])
);

pub const UNSET_OFFSET: Line<'static> = line!(
    b"llvm.insertvalue",
    &[(14, Ty::Descriptor)],
    &[11, 90],
    Note::Position(&[2])
);

pub const TAKE_OFFSET: Line<'static> = line!(
    b"llvm.extractvalue",
    &[(9, L)],
    &[14],
    Note::Position(&[2])
);

pub const TAKE_UNSET: Line<'static> = line!(
    b"llvm.extractvalue",
    &[(9, L)],
    &[11],
    Note::Position(&[2])
);

pub const TAKE_NOWHERE: Line<'static> = line!(
    b"llvm.extractvalue",
    &[(9, L)],
    &[11],
    Note::Position(&[3])
);

pub const CELL_1: Line<'static> = line!(
    b"builtin.unrealized_conversion_cast",
    &[(15, Ty::Cell(1))],
    &[14]
);

pub const CELL_32: Line<'static> = line!(
    b"builtin.unrealized_conversion_cast",
    &[(15, Ty::Cell(32))],
    &[14]
);

pub const DEALLOC_CELL: Line<'static> = line!(b"memref.dealloc", &[], &[15]);

pub const LOAD_CELL_1: Line<'static> = line!(b"memref.load", &[(9, B)], &[15]);

pub const LOAD_CELL_32: Line<'static> = line!(b"memref.load", &[(9, I)], &[15]);

pub const STORE_CELL_32: Line<'static> = line!(b"memref.store", &[], &[83, 15]);

pub const MOVE_BYTE: Line<'static> = line!(
    b"llvm.getelementptr",
    &[(16, P)],
    &[10, 89],
    Note::Element(8)
);

pub const MOVE_UNSET: Line<'static> = line!(
    b"llvm.getelementptr",
    &[(16, P)],
    &[31, 89],
    Note::Element(8)
);

pub const STORE_BYTE: Line<'static> = line!(b"llvm.store", &[], &[89, 10]);

pub const STORE: Line<'static> = line!(b"llvm.store", &[], &[83, 10]);

pub const STORE_UNSET: Line<'static> = line!(b"llvm.store", &[], &[30, 10]);

pub const LOAD: Line<'static> = line!(b"llvm.load", &[(9, I)], &[10]);

pub const LOAD_BIT: Line<'static> = line!(b"llvm.load", &[(9, B)], &[10]);

pub const LOAD_MOVED: Line<'static> = line!(b"llvm.load", &[(9, E)], &[16]);

pub const LOAD_BY_UNSET: Line<'static> = line!(b"llvm.load", &[(9, I)], &[31]);

pub const UNSET: Line<'static> = line!(b"llvm.mlir.undef", &[(30, I)], &[]);

pub const UNSET_POINTER: Line<'static> = line!(b"llvm.mlir.undef", &[(31, P)], &[]);

pub const UNSET_BIT: Line<'static> = line!(b"llvm.mlir.undef", &[(32, B)], &[]);

pub const UNSET_SIZE: Line<'static> = line!(b"llvm.mlir.undef", &[(33, N)], &[]);

pub const UNSET_SUM: Line<'static> = line!(b"llvm.add", &[(9, I)], &[30, 30]);

pub const UNSET_ORDER: Line<'static> = line!(
    b"llvm.icmp",
    &[(9, B)],
    &[30, 30],
    Note::Predicate(0)
);

pub const UNSET_WIDER: Line<'static> = line!(b"llvm.sext", &[(9, L)], &[30]);

pub const SELECT_BY_UNSET: Line<'static> = line!(b"llvm.select", &[(9, I)], &[32, 83, 83]);

pub const SELECT_SEVEN: Line<'static> = line!(b"llvm.select", &[(9, I)], &[84, 83, 30]);

pub const SELECT_UNSET: Line<'static> = line!(b"llvm.select", &[(9, I)], &[84, 30, 83]);

pub const ALLOC_UNSET: Line<'static> = line!(b"memref.alloc", &[(1, M)], &[33]);

pub const LOAD_UNSET: Line<'static> = line!(b"memref.load", &[(9, I)], &[1, 33]);

pub const UNKNOWN: Line<'static> = line!(b"test.unknown", &[], &[]);

pub const NOWHERE: Line<'static> = line!(b"llvm.add", &[(9, I)], &[70, 70]);

pub const UNBOUND: Line<'static> = line!(b"arith.constant", &[], &[], Note::Value(0, I));

pub const RETURN: Line<'static> = line!(b"func.return", &[], &[]);

pub const RETURN_9: Line<'static> = line!(b"func.return", &[], &[9]);

pub const RETURN_UNSET: Line<'static> = line!(b"func.return", &[], &[30]);

pub const RETURN_MEMREF: Line<'static> = line!(b"func.return", &[], &[1]);

pub const RETURN_ARGUMENT: Line<'static> = line!(b"func.return", &[], &[0]);
