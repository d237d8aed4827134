//! The roots of the patterns, set by set.

ghost use Rattle.std.specs.Prelude.{◌≡◌};
ghost use Rattle.row_code.specs.Infos.{texts};
ghost use Rattle.pattern_model.specs.PassTable.{patterns_with, root_count};
ghost use Rattle.pass_rows.specs.Parts.{patterns_in};
ghost use Rattle.ready_passes.specs.Roots.{count_of, roots_in};

use pass_rows::{Part, parts_of};
use pipeline_text::PassName;

const SCF: &[&[u8]] = &[
    b"scf.if",
    b"scf.for",
    b"scf.while",
    b"scf.index_switch",
    b"scf.execute_region",
];

const EXPAND: &[&[u8]] = &[
    b"arith.ceildivsi",
    b"arith.ceildivui",
    b"arith.floordivsi",
    b"arith.maxsi",
    b"arith.minsi",
];

const ARITH: &[&[u8]] = &[
    b"arith.constant",
    b"arith.addi",
    b"arith.subi",
    b"arith.muli",
    b"arith.divsi",
    b"arith.divui",
    b"arith.remsi",
    b"arith.remui",
    b"arith.andi",
    b"arith.ori",
    b"arith.xori",
    b"arith.shli",
    b"arith.shrsi",
    b"arith.shrui",
    b"arith.cmpi",
    b"arith.select",
    b"arith.extsi",
    b"arith.extui",
    b"arith.trunci",
    b"arith.index_cast",
    b"arith.index_castui",
    b"arith.maxsi",
    b"arith.maxui",
    b"arith.minsi",
    b"arith.minui",
];

const CF: &[&[u8]] = &[b"cf.br", b"cf.cond_br", b"llvm.br", b"llvm.cond_br"];

const MEMREF: &[&[u8]] = &[
    b"memref.alloc",
    b"memref.alloc",
    b"memref.dealloc",
    b"memref.load",
    b"memref.store",
    b"memref.dim",
    b"memref.rank",
    b"memref.cast",
];

const FUNC: &[&[u8]] = &[b"func.func", b"func.call", b"func.return"];

const CAST: &[&[u8]] = &[b"builtin.unrealized_conversion_cast"];

/// The roots of a set's patterns, in the order of the set.
fn roots_of(part: Part) -> &'static [&'static [u8]]
    ensures { texts result.now ≡ roots_in (patterns_in part) }
{
    match part {
        Part::Scf => SCF,
        Part::Expand => EXPAND,
        Part::Arith => ARITH,
        Part::Cf => CF,
        Part::Memref => MEMREF,
        Part::Func => FUNC,
        Part::Cast => CAST,
    }
}

/// How many of these roots are that name.
fn count_roots(roots: &[&[u8]], name: &[u8]) -> usize
    ensures { result ≡ count_of name.now (texts roots.now) }
{
    let mut count = 0;
    'each: for root in roots {
        if *root == name {
            count += 1;
        }
    }
    count
}

/// How many patterns of a set have that root.
fn count_in(part: Part, name: &[u8]) -> usize
    ensures { result ≡ root_count name.now (patterns_in part) }
{
    count_roots(roots_of(part), name)
}

/// How many patterns of a pass have that root.
pub fn count_patterns(pass: PassName, name: &[u8]) -> usize
    ensures { result ≡ patterns_with pass name.now }
{
    let parts = parts_of(pass);
    let mut count = 0;
    'each: for part in parts {
        count += count_in(*part, name);
    }
    count
}
