//! How small programs of one block end.

use crate::lines::{
    ALIGNED, ALIGNED_3, ALIGNED_8192, ALIGNED_PART, ALLOC, ALLOC_3, ALLOC_UNSET, ALLOC_WIDE,
    BYTES_3, BYTES_16, BYTES_32, BYTES_8192, CAST_4, CELL_1, CELL_32, DEALLOC, DEALLOC_CELL, DIM,
    DIM_1, DIM_CAST, FIRST, FREE, FREE_AGAIN, FREE_MOVED, FREE_UNSET, LOAD, LOAD_AT, LOAD_BIT,
    LOAD_BY_UNSET, LOAD_CELL_1, LOAD_CELL_32, LOAD_MOVED, LOAD_UNSET, MALLOC, MALLOC_3,
    MALLOC_AGAIN, MINUS_N, MOVE_BYTE, MOVE_UNSET, MOVED_FIRST, MOVED_SECOND, NO_OFFSET, NOWHERE,
    OFFSET, ONE_BYTE, ONE_N, RANK, RETURN, RETURN_9, RETURN_ARGUMENT, RETURN_MEMREF, RETURN_UNSET,
    SECOND, SELECT_BY_UNSET, SELECT_SEVEN, SELECT_UNSET, SEVEN, SEVENS, STORE, STORE_AT,
    STORE_BYTE, STORE_CELL_32, STORE_UNSET, TAKE_NOWHERE, TAKE_OFFSET, TAKE_UNSET, THREE_N, TRUE,
    TWO_BYTE, UNBOUND, UNKNOWN, UNSET, UNSET_BIT, UNSET_FIELDS, UNSET_OFFSET, UNSET_ORDER,
    UNSET_POINTER, UNSET_SIZE, UNSET_SUM, UNSET_WIDER, ZERO,
};
use crate::runs::{by_s, ends};
use small_programs::{Line, Ty, one_function};
use std::alloc::Global;
use std::string::String;
use tree_model::{ModuleTree, NoMemory};

const N: Ty = Ty::Index;

const I: Ty = Ty::Int(32);

const L: Ty = Ty::Int(64);

const B: Ty = Ty::Int(1);

const E: Ty = Ty::Int(8);

const M: Ty = Ty::Memref(32);

/// A function `f` of one block, with the arguments of a run.
struct Program {
    title: &'static str,
    inputs: &'static [Ty],
    outputs: &'static [Ty],
    args: &'static [i128],
    lines: &'static [Line<'static>],
}

/// New memrefs and their ends.
const NEW_MEMREFS: &[Program] = &[
    Program {
        title: "memref.alloc of 0 elements, memref.dim",
        inputs: &[N],
        outputs: &[N],
        args: &[0],
        lines: &[ALLOC, ZERO, DIM, RETURN_9],
    },
    Program {
        title: "memref.alloc of -1 elements",
        inputs: &[N],
        outputs: &[],
        args: &[-1],
        lines: &[ALLOC, RETURN],
    },
    Program {
        title: "memref.alloc of 2147483648 bytes by its type",
        inputs: &[],
        outputs: &[],
        args: &[],
        lines: &[ALLOC_WIDE, RETURN],
    },
    Program {
        title: "memref.dealloc",
        inputs: &[N],
        outputs: &[],
        args: &[1],
        lines: &[ALLOC, DEALLOC, RETURN],
    },
    Program {
        title: "memref.dealloc twice",
        inputs: &[N],
        outputs: &[],
        args: &[1],
        lines: &[ALLOC, DEALLOC, DEALLOC, RETURN],
    },
    Program {
        title: "memref.dealloc by a pointer behind the start",
        inputs: &[],
        outputs: &[],
        args: &[],
        lines: &[
            BYTES_16,
            MALLOC,
            ONE_BYTE,
            MOVE_BYTE,
            UNSET_FIELDS,
            MOVED_FIRST,
            MOVED_SECOND,
            NO_OFFSET,
            OFFSET,
            CELL_32,
            DEALLOC_CELL,
            RETURN,
        ],
    },
];

/// Elements of memrefs.
const ELEMENTS: &[Program] = &[
    Program {
        title: "memref.store and memref.load at the first index",
        inputs: &[N],
        outputs: &[I],
        args: &[0],
        lines: &[THREE_N, ALLOC_3, SEVEN, STORE_AT, LOAD_AT, RETURN_9],
    },
    Program {
        title: "memref.store and memref.load at the last index",
        inputs: &[N],
        outputs: &[I],
        args: &[2],
        lines: &[THREE_N, ALLOC_3, SEVEN, STORE_AT, LOAD_AT, RETURN_9],
    },
    Program {
        title: "memref.store and memref.load at the index -1",
        inputs: &[N],
        outputs: &[I],
        args: &[-1],
        lines: &[THREE_N, ALLOC_3, SEVEN, STORE_AT, LOAD_AT, RETURN_9],
    },
    Program {
        title: "memref.store and memref.load at the index that is the size",
        inputs: &[N],
        outputs: &[I],
        args: &[3],
        lines: &[THREE_N, ALLOC_3, SEVEN, STORE_AT, LOAD_AT, RETURN_9],
    },
    Program {
        title: "memref.load of what was never set",
        inputs: &[N],
        outputs: &[I],
        args: &[0],
        lines: &[THREE_N, ALLOC_3, LOAD_AT, RETURN_9],
    },
    Program {
        title: "memref.load at the index -1",
        inputs: &[N],
        outputs: &[I],
        args: &[-1],
        lines: &[THREE_N, ALLOC_3, LOAD_AT, RETURN_9],
    },
    Program {
        title: "memref.load from a dead buffer",
        inputs: &[N],
        outputs: &[I],
        args: &[0],
        lines: &[
            THREE_N, ALLOC_3, SEVEN, STORE_AT, DEALLOC, LOAD_AT, RETURN_9,
        ],
    },
    Program {
        title: "memref.store to a dead buffer",
        inputs: &[N],
        outputs: &[],
        args: &[0],
        lines: &[THREE_N, ALLOC_3, SEVEN, DEALLOC, STORE_AT, RETURN],
    },
];

/// Memrefs over bytes that are there or not.
const BYTES: &[Program] = &[
    Program {
        title: "memref.load of an i1 from a byte of 1",
        inputs: &[],
        outputs: &[B],
        args: &[],
        lines: &[
            BYTES_16,
            MALLOC,
            ONE_BYTE,
            STORE_BYTE,
            UNSET_FIELDS,
            FIRST,
            SECOND,
            NO_OFFSET,
            OFFSET,
            CELL_1,
            LOAD_CELL_1,
            RETURN_9,
        ],
    },
    Program {
        title: "memref.load of an i1 from a byte of 2",
        inputs: &[],
        outputs: &[B],
        args: &[],
        lines: &[
            BYTES_16,
            MALLOC,
            TWO_BYTE,
            STORE_BYTE,
            UNSET_FIELDS,
            FIRST,
            SECOND,
            NO_OFFSET,
            OFFSET,
            CELL_1,
            LOAD_CELL_1,
            RETURN_9,
        ],
    },
    Program {
        title: "memref.load past the end of the buffer",
        inputs: &[],
        outputs: &[I],
        args: &[],
        lines: &[
            BYTES_3,
            MALLOC_3,
            SEVEN,
            UNSET_FIELDS,
            FIRST,
            SECOND,
            NO_OFFSET,
            OFFSET,
            CELL_32,
            LOAD_CELL_32,
            RETURN_9,
        ],
    },
    Program {
        title: "memref.store past the end of the buffer",
        inputs: &[],
        outputs: &[],
        args: &[],
        lines: &[
            BYTES_3,
            MALLOC_3,
            SEVEN,
            UNSET_FIELDS,
            FIRST,
            SECOND,
            NO_OFFSET,
            OFFSET,
            CELL_32,
            STORE_CELL_32,
            RETURN,
        ],
    },
];

/// Sizes of memrefs.
const SIZES: &[Program] = &[
    Program {
        title: "memref.dim at 0",
        inputs: &[N],
        outputs: &[N],
        args: &[5],
        lines: &[ALLOC, ZERO, DIM, RETURN_9],
    },
    Program {
        title: "memref.dim at the rank",
        inputs: &[N],
        outputs: &[N],
        args: &[5],
        lines: &[ALLOC, ONE_N, DIM_1, RETURN_9],
    },
    Program {
        title: "memref.dim at -1",
        inputs: &[N],
        outputs: &[N],
        args: &[5],
        lines: &[ALLOC, MINUS_N, DIM_1, RETURN_9],
    },
    Program {
        title: "memref.rank",
        inputs: &[N],
        outputs: &[N],
        args: &[5],
        lines: &[ALLOC, RANK, RETURN_9],
    },
    Program {
        title: "memref.cast to the size that it has, memref.dim",
        inputs: &[N],
        outputs: &[N],
        args: &[4],
        lines: &[ALLOC, CAST_4, ZERO, DIM_CAST, RETURN_9],
    },
    Program {
        title: "memref.cast to another size",
        inputs: &[N],
        outputs: &[],
        args: &[3],
        lines: &[ALLOC, CAST_4, RETURN],
    },
];

/// Values that were never set: computed with, chosen, taken.
const UNSET_VALUES: &[Program] = &[
    Program {
        title: "llvm.add of what was never set",
        inputs: &[],
        outputs: &[],
        args: &[],
        lines: &[UNSET, UNSET_SUM, RETURN],
    },
    Program {
        title: "llvm.icmp of what was never set",
        inputs: &[],
        outputs: &[],
        args: &[],
        lines: &[UNSET, UNSET_ORDER, RETURN],
    },
    Program {
        title: "llvm.sext of what was never set",
        inputs: &[],
        outputs: &[],
        args: &[],
        lines: &[UNSET, UNSET_WIDER, RETURN],
    },
    Program {
        title: "llvm.select by what was never set",
        inputs: &[],
        outputs: &[],
        args: &[],
        lines: &[UNSET_BIT, SEVEN, SELECT_BY_UNSET, RETURN],
    },
    Program {
        title: "llvm.select of a set value beside one that was never set",
        inputs: &[],
        outputs: &[I],
        args: &[],
        lines: &[UNSET, TRUE, SEVEN, SELECT_SEVEN, RETURN_9],
    },
    Program {
        title: "llvm.select of what was never set",
        inputs: &[],
        outputs: &[],
        args: &[],
        lines: &[UNSET, TRUE, SEVEN, SELECT_UNSET, RETURN],
    },
    Program {
        title: "llvm.extractvalue of a set field beside unset ones",
        inputs: &[],
        outputs: &[L],
        args: &[],
        lines: &[UNSET_FIELDS, NO_OFFSET, UNSET_OFFSET, TAKE_OFFSET, RETURN_9],
    },
    Program {
        title: "llvm.extractvalue of an unset field",
        inputs: &[],
        outputs: &[],
        args: &[],
        lines: &[UNSET_FIELDS, TAKE_UNSET, RETURN],
    },
];

/// The same: returned, stored, as pointers, sizes and indices.
const UNSET_PLACES: &[Program] = &[
    Program {
        title: "the return of what was never set",
        inputs: &[],
        outputs: &[I],
        args: &[],
        lines: &[UNSET, RETURN_UNSET],
    },
    Program {
        title: "llvm.store of what was never set",
        inputs: &[],
        outputs: &[],
        args: &[],
        lines: &[BYTES_16, MALLOC, UNSET, STORE_UNSET, RETURN],
    },
    Program {
        title: "llvm.load by a pointer that was never set",
        inputs: &[],
        outputs: &[],
        args: &[],
        lines: &[UNSET_POINTER, LOAD_BY_UNSET, RETURN],
    },
    Program {
        title: "free of a pointer that was never set",
        inputs: &[],
        outputs: &[],
        args: &[],
        lines: &[UNSET_POINTER, FREE_UNSET, RETURN],
    },
    Program {
        title: "llvm.getelementptr from a pointer that was never set",
        inputs: &[],
        outputs: &[],
        args: &[],
        lines: &[UNSET_POINTER, ONE_BYTE, MOVE_UNSET, RETURN],
    },
    Program {
        title: "memref.alloc of a size that was never set",
        inputs: &[],
        outputs: &[],
        args: &[],
        lines: &[UNSET_SIZE, ALLOC_UNSET, RETURN],
    },
    Program {
        title: "memref.load at an index that was never set",
        inputs: &[],
        outputs: &[],
        args: &[],
        lines: &[THREE_N, ALLOC_3, UNSET_SIZE, LOAD_UNSET, RETURN],
    },
];

/// Loads and stores by pointers.
const POINTERS: &[Program] = &[
    Program {
        title: "llvm.store and llvm.load",
        inputs: &[],
        outputs: &[I],
        args: &[],
        lines: &[BYTES_16, MALLOC, SEVEN, STORE, LOAD, RETURN_9],
    },
    Program {
        title: "llvm.load of the second byte of 1799",
        inputs: &[],
        outputs: &[E],
        args: &[],
        lines: &[
            BYTES_16, MALLOC, SEVENS, STORE, ONE_BYTE, MOVE_BYTE, LOAD_MOVED, RETURN_9,
        ],
    },
    Program {
        title: "llvm.load of what was never set",
        inputs: &[],
        outputs: &[I],
        args: &[],
        lines: &[BYTES_16, MALLOC, LOAD, RETURN_9],
    },
    Program {
        title: "llvm.load past the end",
        inputs: &[],
        outputs: &[I],
        args: &[],
        lines: &[BYTES_3, MALLOC_3, LOAD, RETURN_9],
    },
    Program {
        title: "llvm.load from a dead buffer",
        inputs: &[],
        outputs: &[I],
        args: &[],
        lines: &[BYTES_16, MALLOC, SEVEN, STORE, FREE, LOAD, RETURN_9],
    },
    Program {
        title: "llvm.load of an i1 from a byte of 2",
        inputs: &[],
        outputs: &[B],
        args: &[],
        lines: &[BYTES_16, MALLOC, TWO_BYTE, STORE_BYTE, LOAD_BIT, RETURN_9],
    },
    Program {
        title: "llvm.store past the end",
        inputs: &[],
        outputs: &[],
        args: &[],
        lines: &[BYTES_3, MALLOC_3, SEVEN, STORE, RETURN],
    },
    Program {
        title: "llvm.store to a dead buffer",
        inputs: &[],
        outputs: &[],
        args: &[],
        lines: &[BYTES_16, MALLOC, SEVEN, FREE, STORE, RETURN],
    },
];

/// The calls that make and end buffers.
const ALLOCATORS: &[Program] = &[
    Program {
        title: "aligned_alloc of 32 bytes at 16",
        inputs: &[],
        outputs: &[],
        args: &[],
        lines: &[BYTES_16, BYTES_32, ALIGNED, RETURN],
    },
    Program {
        title: "aligned_alloc at 3",
        inputs: &[],
        outputs: &[],
        args: &[],
        lines: &[BYTES_3, BYTES_16, ALIGNED_3, RETURN],
    },
    Program {
        title: "aligned_alloc at 8192",
        inputs: &[],
        outputs: &[],
        args: &[],
        lines: &[BYTES_8192, ALIGNED_8192, RETURN],
    },
    Program {
        title: "aligned_alloc of a size that is no multiple",
        inputs: &[],
        outputs: &[],
        args: &[],
        lines: &[BYTES_16, BYTES_3, ALIGNED_PART, RETURN],
    },
    Program {
        title: "free",
        inputs: &[],
        outputs: &[],
        args: &[],
        lines: &[BYTES_16, MALLOC, FREE, RETURN],
    },
    Program {
        title: "free twice",
        inputs: &[],
        outputs: &[],
        args: &[],
        lines: &[BYTES_16, MALLOC, FREE, FREE, RETURN],
    },
    Program {
        title: "free of a pointer behind the start",
        inputs: &[],
        outputs: &[],
        args: &[],
        lines: &[BYTES_16, MALLOC, ONE_BYTE, MOVE_BYTE, FREE_MOVED, RETURN],
    },
    Program {
        title: "free of the last of two buffers",
        inputs: &[],
        outputs: &[I],
        args: &[],
        lines: &[
            BYTES_16,
            MALLOC,
            MALLOC_AGAIN,
            FREE_AGAIN,
            SEVEN,
            STORE,
            LOAD,
            RETURN_9,
        ],
    },
];

/// Operations without a meaning.
const WITHOUT_MEANING: &[Program] = &[
    Program {
        title: "an operation without a meaning",
        inputs: &[],
        outputs: &[],
        args: &[],
        lines: &[UNKNOWN, RETURN],
    },
    Program {
        title: "an operand without a value",
        inputs: &[],
        outputs: &[],
        args: &[],
        lines: &[NOWHERE, RETURN],
    },
    Program {
        title: "a result that is bound to no number",
        inputs: &[],
        outputs: &[],
        args: &[],
        lines: &[UNBOUND, RETURN],
    },
    Program {
        title: "llvm.extractvalue of a field that is not there",
        inputs: &[],
        outputs: &[],
        args: &[],
        lines: &[UNSET_FIELDS, TAKE_NOWHERE, RETURN],
    },
    Program {
        title: "an undefined operation behind one without a meaning",
        inputs: &[],
        outputs: &[],
        args: &[],
        lines: &[UNKNOWN, UNSET, UNSET_SUM, RETURN],
    },
];

/// Entries and their arguments.
const ENTRIES: &[Program] = &[
    Program {
        title: "a memref as a parameter of the entry",
        inputs: &[M],
        outputs: &[],
        args: &[1],
        lines: &[RETURN],
    },
    Program {
        title: "a memref as a result of the entry",
        inputs: &[N],
        outputs: &[M],
        args: &[1],
        lines: &[ALLOC, RETURN_MEMREF],
    },
    Program {
        title: "too few arguments",
        inputs: &[E],
        outputs: &[],
        args: &[],
        lines: &[RETURN],
    },
    Program {
        title: "too many arguments",
        inputs: &[],
        outputs: &[],
        args: &[1],
        lines: &[RETURN],
    },
    Program {
        title: "an i8 of -128",
        inputs: &[E],
        outputs: &[E],
        args: &[-128],
        lines: &[RETURN_ARGUMENT],
    },
    Program {
        title: "an i8 of 255",
        inputs: &[E],
        outputs: &[E],
        args: &[255],
        lines: &[RETURN_ARGUMENT],
    },
    Program {
        title: "an i8 of -129",
        inputs: &[E],
        outputs: &[E],
        args: &[-129],
        lines: &[RETURN_ARGUMENT],
    },
    Program {
        title: "an i8 of 256",
        inputs: &[E],
        outputs: &[E],
        args: &[256],
        lines: &[RETURN_ARGUMENT],
    },
];

fn tree_of(alloc: Global, program: &Program) -> Result<ModuleTree, NoMemory> {
    match program.inputs {
        [ty, ..] => {
            let args = [(0, *ty)];
            one_function(alloc, &args, program.inputs, program.outputs, program.lines)
        }
        [] => one_function(alloc, &[], &[], program.outputs, program.lines),
    }
}

fn write_program(alloc: Global, out: &mut String, program: &Program) -> Result<(), NoMemory> {
    let tree = tree_of(alloc, program)?;
    let end = ends(alloc, &tree, program.args);
    writeln!(out, "{}: {end}", program.title)
}

/// A size that is fixed by a type, and is none where an `index` has 32 bits.
fn write_fixed(alloc: Global, out: &mut String) -> Result<(), NoMemory> {
    let tree = one_function(alloc, &[], &[], &[], &[ALLOC_WIDE, RETURN])?;
    let end = by_s(alloc, &tree, &[], 32);
    writeln!(
        out,
        "memref.alloc of 2147483648 bytes by its type where an index has 32 bits: {end}"
    )
}

fn write_programs(alloc: Global, out: &mut String, programs: &[Program]) -> Result<(), NoMemory> {
    for program in programs {
        write_program(alloc, out, program)?;
    }
    Ok(())
}

fn write_new_memrefs(alloc: Global, out: &mut String) -> Result<(), NoMemory> {
    write_programs(alloc, out, NEW_MEMREFS)
}

fn write_elements(alloc: Global, out: &mut String) -> Result<(), NoMemory> {
    write_programs(alloc, out, ELEMENTS)
}

fn write_bytes(alloc: Global, out: &mut String) -> Result<(), NoMemory> {
    write_programs(alloc, out, BYTES)
}

fn write_sizes(alloc: Global, out: &mut String) -> Result<(), NoMemory> {
    write_programs(alloc, out, SIZES)
}

fn write_unset_values(alloc: Global, out: &mut String) -> Result<(), NoMemory> {
    write_programs(alloc, out, UNSET_VALUES)
}

fn write_unset_places(alloc: Global, out: &mut String) -> Result<(), NoMemory> {
    write_programs(alloc, out, UNSET_PLACES)
}

fn write_pointers(alloc: Global, out: &mut String) -> Result<(), NoMemory> {
    write_programs(alloc, out, POINTERS)
}

fn write_allocators(alloc: Global, out: &mut String) -> Result<(), NoMemory> {
    write_programs(alloc, out, ALLOCATORS)
}

fn write_without_meaning(alloc: Global, out: &mut String) -> Result<(), NoMemory> {
    write_programs(alloc, out, WITHOUT_MEANING)
}

fn write_entries(alloc: Global, out: &mut String) -> Result<(), NoMemory> {
    write_programs(alloc, out, ENTRIES)
}

/// All rows of this kind.
pub fn write_all(alloc: Global, out: &mut String) -> Result<(), NoMemory> {
    write_fixed(alloc, out)?;
    write_new_memrefs(alloc, out)?;
    write_elements(alloc, out)?;
    write_bytes(alloc, out)?;
    write_sizes(alloc, out)?;
    write_unset_values(alloc, out)?;
    write_unset_places(alloc, out)?;
    write_pointers(alloc, out)?;
    write_allocators(alloc, out)?;
    write_without_meaning(alloc, out)?;
    write_entries(alloc, out)?;
    Ok(())
}
