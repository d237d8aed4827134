//! The table of the rows.

ghost use Rattle.std.specs.Prelude.{◌≡◌, map};
ghost use Rattle.legal_graph.specs.Graphs.{info_of};
ghost use Rattle.pattern_model.specs.MemrefRows.{memref_set};
ghost use Rattle.memref_rows.specs.Table.{info_at, pattern_at};

/// The form of a row.
#[derive(Clone, Copy, Debug)]
pub enum Form {
    Alloc,
    AlignedAlloc,
    Dealloc,
    Load,
    Store,
    Dimension,
    Rank,
    Cast,
}

/// A pattern: its root, the names that it may make, and its row.
#[derive(Clone, Copy, Debug)]
pub struct Entry {
    pub root: &'static [u8],
    pub products: &'static [&'static [u8]],
    pub form: Form,
}

// The rows, in the order of the table.
const ROWS: &[Entry] = &[
    Entry {
        root: b"memref.alloc",
        products: &[
            b"llvm.mlir.constant",
            b"llvm.mul",
            b"llvm.zext",
            b"llvm.call",
            b"llvm.mlir.undef",
            b"llvm.insertvalue",
        ],
        form: Form::Alloc,
    },
    Entry {
        root: b"memref.alloc",
        products: &[
            b"llvm.mlir.constant",
            b"llvm.mul",
            b"llvm.add",
            b"llvm.udiv",
            b"llvm.zext",
            b"llvm.call",
            b"llvm.mlir.undef",
            b"llvm.insertvalue",
        ],
        form: Form::AlignedAlloc,
    },
    Entry {
        root: b"memref.dealloc",
        products: &[b"llvm.extractvalue", b"llvm.call"],
        form: Form::Dealloc,
    },
    Entry {
        root: b"memref.load",
        products: &[
            b"llvm.extractvalue",
            b"llvm.mul",
            b"llvm.add",
            b"llvm.sext",
            b"llvm.getelementptr",
            b"llvm.load",
        ],
        form: Form::Load,
    },
    Entry {
        root: b"memref.store",
        products: &[
            b"llvm.extractvalue",
            b"llvm.mul",
            b"llvm.add",
            b"llvm.sext",
            b"llvm.getelementptr",
            b"llvm.store",
        ],
        form: Form::Store,
    },
    Entry {
        root: b"memref.dim",
        products: &[
            b"llvm.extractvalue",
            b"llvm.mlir.constant",
            b"llvm.icmp",
            b"llvm.select",
        ],
        form: Form::Dimension,
    },
    Entry {
        root: b"memref.rank",
        products: &[b"llvm.mlir.constant"],
        form: Form::Rank,
    },
    Entry {
        root: b"memref.cast",
        products: &[],
        form: Form::Cast,
    },
];

/// The rows, in the order of the table.
pub fn entries() -> &'static [Entry]
    ensures patterns { map pattern_at result.now ≡ memref_set }
    ensures infos { map info_at result.now ≡ map info_of memref_set }
{
    ROWS
}
