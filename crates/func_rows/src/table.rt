//! The tables of the rows.

ghost use Rattle.std.specs.Prelude.{◌≡◌, ◌∷◌, [], map};
ghost use Rattle.legal_graph.specs.Graphs.{info_of};
ghost use Rattle.pattern_model.specs.FuncRows.{cast_pattern, func_set_without_cast};
ghost use Rattle.func_rows.specs.Table.{info_at, pattern_at};

/// The form of a row.
#[derive(Clone, Copy, Debug)]
pub enum Form {
    Function,
    Call,
    Return,
    Cast,
}

/// A pattern: its root, the names that it may make, and its row.
#[derive(Clone, Copy, Debug)]
pub struct Entry {
    pub root: &'static [u8],
    pub products: &'static [&'static [u8]],
    pub form: Form,
}

// The rows, in the order of the table.
const ROWS: &[Entry] = &[
    Entry {
        root: b"func.func",
        products: &[b"llvm.func", b"llvm.mlir.undef", b"llvm.insertvalue"],
        form: Form::Function,
    },
    Entry {
        root: b"func.call",
        products: &[b"llvm.extractvalue", b"llvm.call"],
        form: Form::Call,
    },
    Entry {
        root: b"func.return",
        products: &[b"llvm.mlir.undef", b"llvm.insertvalue", b"llvm.return"],
        form: Form::Return,
    },
];

const CASTS: &[Entry] = &[Entry {
    root: b"builtin.unrealized_conversion_cast",
    products: &[],
    form: Form::Cast,
}];

/// The rows of functions, in the order of the table.
pub fn entries() -> &'static [Entry]
    ensures patterns { map pattern_at result.now ≡ func_set_without_cast }
    ensures infos { map info_at result.now ≡ map info_of func_set_without_cast }
{
    ROWS
}

/// The row of casts.
pub fn cast_entries() -> &'static [Entry]
    ensures patterns { map pattern_at result.now ≡ cast_pattern ∷ [] }
    ensures infos { map info_at result.now ≡ map info_of (cast_pattern ∷ []) }
{
    CASTS
}
