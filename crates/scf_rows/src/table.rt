//! The table of the rows.

ghost use Rattle.std.specs.Prelude.{◌≡◌, map};
ghost use Rattle.legal_graph.specs.Graphs.{info_of};
ghost use Rattle.pattern_model.specs.ScfRows.{scf_set};
ghost use Rattle.scf_rows.specs.Table.{info_at, pattern_at};

/// The form of a row.
#[derive(Clone, Copy, Debug)]
pub enum Form {
    If,
    For,
    While,
    Switch,
    Execute,
}

/// A pattern: its root, the names that it may make, and its row.
#[derive(Clone, Copy, Debug)]
pub struct Entry {
    pub root: &'static [u8],
    pub products: &'static [&'static [u8]],
    pub form: Form,
}

// The rows, in the order of the table.
const ROWS: &[Entry] = &[
    Entry {
        root: b"scf.if",
        products: &[b"cf.br", b"cf.cond_br"],
        form: Form::If,
    },
    Entry {
        root: b"scf.for",
        products: &[b"arith.cmpi", b"arith.addi", b"cf.br", b"cf.cond_br"],
        form: Form::For,
    },
    Entry {
        root: b"scf.while",
        products: &[b"cf.br", b"cf.cond_br"],
        form: Form::While,
    },
    Entry {
        root: b"scf.index_switch",
        products: &[b"arith.constant", b"arith.cmpi", b"cf.br", b"cf.cond_br"],
        form: Form::Switch,
    },
    Entry {
        root: b"scf.execute_region",
        products: &[b"cf.br"],
        form: Form::Execute,
    },
];

/// The rows, in the order of the table.
pub fn entries() -> &'static [Entry]
    ensures patterns { map pattern_at result.now ≡ scf_set }
    ensures infos { map info_at result.now ≡ map info_of scf_set }
{
    ROWS
}
