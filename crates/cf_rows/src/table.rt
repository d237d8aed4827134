//! The table of the rows.

ghost use Rattle.std.specs.Prelude.{◌≡◌, map};
ghost use Rattle.legal_graph.specs.Graphs.{info_of};
ghost use Rattle.pattern_model.specs.CfRows.{cf_set};
ghost use Rattle.cf_rows.specs.Table.{info_at, pattern_at};

/// The form of a row.
#[derive(Clone, Copy, Debug)]
pub enum Form {
    Branch,
    BranchOn,
    LlvmBranch,
    LlvmBranchOn,
}

/// A pattern: its root, the names that it may make, and its row.
#[derive(Clone, Copy, Debug)]
pub struct Entry {
    pub root: &'static [u8],
    pub products: &'static [&'static [u8]],
    pub form: Form,
}

// The rows, in the order of the table.
const ROWS: &[Entry] = &[
    Entry {
        root: b"cf.br",
        products: &[b"llvm.br"],
        form: Form::Branch,
    },
    Entry {
        root: b"cf.cond_br",
        products: &[b"llvm.cond_br"],
        form: Form::BranchOn,
    },
    Entry {
        root: b"llvm.br",
        products: &[b"llvm.br"],
        form: Form::LlvmBranch,
    },
    Entry {
        root: b"llvm.cond_br",
        products: &[b"llvm.cond_br"],
        form: Form::LlvmBranchOn,
    },
];

/// The rows, in the order of the table.
pub fn entries() -> &'static [Entry]
    ensures patterns { map pattern_at result.now ≡ cf_set }
    ensures infos { map info_at result.now ≡ map info_of cf_set }
{
    ROWS
}
