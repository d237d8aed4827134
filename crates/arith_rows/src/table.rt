//! The table of the rows.

ghost use Rattle.std.specs.Prelude.{◌≡◌, map};
ghost use Rattle.legal_graph.specs.Graphs.{info_of};
ghost use Rattle.pattern_model.specs.ArithRows.{arith_set};
ghost use Rattle.arith_rows.specs.Table.{info_at, pattern_at};

/// The form of a row, with the names and numbers that it is for.
#[derive(Clone, Copy, Debug)]
pub enum Form {
    Constant,
    Flagged,
    Binary,
    Compare,
    Select,
    Extended,
    Truncated,
    IndexCast,
    Extreme(u32),
}

/// A pattern: its root, the names that it may make, and its row, which makes the first of these.
#[derive(Clone, Copy, Debug)]
pub struct Entry {
    pub root: &'static [u8],
    pub products: &'static [&'static [u8]],
    pub form: Form,
}

// The rows, in the order of the table.
const ROWS: &[Entry] = &[
    Entry {
        root: b"arith.constant",
        products: &[b"llvm.mlir.constant"],
        form: Form::Constant,
    },
    Entry {
        root: b"arith.addi",
        products: &[b"llvm.add"],
        form: Form::Flagged,
    },
    Entry {
        root: b"arith.subi",
        products: &[b"llvm.sub"],
        form: Form::Flagged,
    },
    Entry {
        root: b"arith.muli",
        products: &[b"llvm.mul"],
        form: Form::Flagged,
    },
    Entry {
        root: b"arith.divsi",
        products: &[b"llvm.sdiv"],
        form: Form::Binary,
    },
    Entry {
        root: b"arith.divui",
        products: &[b"llvm.udiv"],
        form: Form::Binary,
    },
    Entry {
        root: b"arith.remsi",
        products: &[b"llvm.srem"],
        form: Form::Binary,
    },
    Entry {
        root: b"arith.remui",
        products: &[b"llvm.urem"],
        form: Form::Binary,
    },
    Entry {
        root: b"arith.andi",
        products: &[b"llvm.and"],
        form: Form::Binary,
    },
    Entry {
        root: b"arith.ori",
        products: &[b"llvm.or"],
        form: Form::Binary,
    },
    Entry {
        root: b"arith.xori",
        products: &[b"llvm.xor"],
        form: Form::Binary,
    },
    Entry {
        root: b"arith.shli",
        products: &[b"llvm.shl"],
        form: Form::Flagged,
    },
    Entry {
        root: b"arith.shrsi",
        products: &[b"llvm.ashr"],
        form: Form::Binary,
    },
    Entry {
        root: b"arith.shrui",
        products: &[b"llvm.lshr"],
        form: Form::Binary,
    },
    Entry {
        root: b"arith.cmpi",
        products: &[b"llvm.icmp"],
        form: Form::Compare,
    },
    Entry {
        root: b"arith.select",
        products: &[b"llvm.select"],
        form: Form::Select,
    },
    Entry {
        root: b"arith.extsi",
        products: &[b"llvm.sext"],
        form: Form::Extended,
    },
    Entry {
        root: b"arith.extui",
        products: &[b"llvm.zext"],
        form: Form::Extended,
    },
    Entry {
        root: b"arith.trunci",
        products: &[b"llvm.trunc"],
        form: Form::Truncated,
    },
    Entry {
        root: b"arith.index_cast",
        products: &[b"llvm.sext", b"llvm.trunc"],
        form: Form::IndexCast,
    },
    Entry {
        root: b"arith.index_castui",
        products: &[b"llvm.zext", b"llvm.trunc"],
        form: Form::IndexCast,
    },
    Entry {
        root: b"arith.maxsi",
        products: &[b"llvm.icmp", b"llvm.select"],
        form: Form::Extreme(4),
    },
    Entry {
        root: b"arith.maxui",
        products: &[b"llvm.icmp", b"llvm.select"],
        form: Form::Extreme(8),
    },
    Entry {
        root: b"arith.minsi",
        products: &[b"llvm.icmp", b"llvm.select"],
        form: Form::Extreme(2),
    },
    Entry {
        root: b"arith.minui",
        products: &[b"llvm.icmp", b"llvm.select"],
        form: Form::Extreme(6),
    },
];

/// The rows, in the order of the table.
pub fn entries() -> &'static [Entry]
    ensures patterns { map pattern_at result.now ≡ arith_set }
    ensures infos { map info_at result.now ≡ map info_of arith_set }
{
    ROWS
}
