//! The names of the operations that there are.

ghost use Rattle.std.specs.Prelude.{◌≡◌, ◌++◌};
ghost use Rattle.pattern_model.specs.OperationNames as names;
ghost use Rattle.pattern_model.specs.PassTable.{expand_roots as roots_of_expand};
ghost use Rattle.row_code.specs.Infos.{texts};
ghost use Rattle.pass_targets.specs.Known.{known_names};

const KNOWN: &[&[u8]] = &[
    b"builtin.module",
    b"builtin.unrealized_conversion_cast",
    b"func.func",
    b"func.call",
    b"func.return",
    b"arith.constant",
    b"arith.addi",
    b"arith.subi",
    b"arith.muli",
    b"arith.shli",
    b"arith.divsi",
    b"arith.divui",
    b"arith.remsi",
    b"arith.remui",
    b"arith.ceildivsi",
    b"arith.floordivsi",
    b"arith.ceildivui",
    b"arith.andi",
    b"arith.ori",
    b"arith.xori",
    b"arith.shrsi",
    b"arith.shrui",
    b"arith.maxsi",
    b"arith.maxui",
    b"arith.minsi",
    b"arith.minui",
    b"arith.cmpi",
    b"arith.select",
    b"arith.extsi",
    b"arith.extui",
    b"arith.trunci",
    b"arith.index_cast",
    b"arith.index_castui",
    b"cf.br",
    b"cf.cond_br",
    b"scf.if",
    b"scf.for",
    b"scf.while",
    b"scf.index_switch",
    b"scf.execute_region",
    b"scf.yield",
    b"scf.condition",
    b"memref.alloc",
    b"memref.dealloc",
    b"memref.load",
    b"memref.store",
    b"memref.dim",
    b"memref.rank",
    b"memref.cast",
    b"llvm.func",
    b"llvm.call",
    b"llvm.return",
    b"llvm.br",
    b"llvm.cond_br",
    b"llvm.mlir.constant",
    b"llvm.mlir.undef",
    b"llvm.add",
    b"llvm.sub",
    b"llvm.mul",
    b"llvm.shl",
    b"llvm.sdiv",
    b"llvm.udiv",
    b"llvm.srem",
    b"llvm.urem",
    b"llvm.and",
    b"llvm.or",
    b"llvm.xor",
    b"llvm.ashr",
    b"llvm.lshr",
    b"llvm.icmp",
    b"llvm.select",
    b"llvm.sext",
    b"llvm.zext",
    b"llvm.trunc",
    b"llvm.extractvalue",
    b"llvm.insertvalue",
    b"llvm.getelementptr",
    b"llvm.load",
    b"llvm.store",
];

/// All names, in the order of their table.
pub fn all() -> &'static [&'static [u8]]
    ensures { texts result.now ≡ known_names }
{
    KNOWN
}

const FUNC: &[&[u8]] = &[b"func.func", b"func.call", b"func.return"];

pub fn of_func() -> &'static [&'static [u8]]
    ensures { texts result.now ≡ names.func_names }
{
    FUNC
}

const ARITH: &[&[u8]] = &[
    b"arith.constant",
    b"arith.addi",
    b"arith.subi",
    b"arith.muli",
    b"arith.shli",
    b"arith.divsi",
    b"arith.divui",
    b"arith.remsi",
    b"arith.remui",
    b"arith.ceildivsi",
    b"arith.floordivsi",
    b"arith.ceildivui",
    b"arith.andi",
    b"arith.ori",
    b"arith.xori",
    b"arith.shrsi",
    b"arith.shrui",
    b"arith.maxsi",
    b"arith.maxui",
    b"arith.minsi",
    b"arith.minui",
    b"arith.cmpi",
    b"arith.select",
    b"arith.extsi",
    b"arith.extui",
    b"arith.trunci",
    b"arith.index_cast",
    b"arith.index_castui",
];

pub fn of_arith() -> &'static [&'static [u8]]
    ensures { texts result.now ≡ names.arith_names }
{
    ARITH
}

const EXPANDED: &[&[u8]] = &[
    b"arith.ceildivsi",
    b"arith.ceildivui",
    b"arith.floordivsi",
    b"arith.maxsi",
    b"arith.minsi",
];

/// The operations of arith that are expanded.
pub fn expanded() -> &'static [&'static [u8]]
    ensures { texts result.now ≡ roots_of_expand }
{
    EXPANDED
}

const CF: &[&[u8]] = &[b"cf.br", b"cf.cond_br"];

pub fn of_cf() -> &'static [&'static [u8]]
    ensures { texts result.now ≡ names.cf_names }
{
    CF
}

const SCF: &[&[u8]] = &[
    b"scf.if",
    b"scf.for",
    b"scf.while",
    b"scf.index_switch",
    b"scf.execute_region",
];

/// The operations of scf that hold regions.
pub fn of_scf() -> &'static [&'static [u8]]
    ensures { texts result.now ≡ names.scf_roots }
{
    SCF
}

const MEMREF: &[&[u8]] = &[
    b"memref.alloc",
    b"memref.dealloc",
    b"memref.load",
    b"memref.store",
    b"memref.dim",
    b"memref.rank",
    b"memref.cast",
];

pub fn of_memref() -> &'static [&'static [u8]]
    ensures { texts result.now ≡ names.memref_names }
{
    MEMREF
}

const BRANCHES: &[&[u8]] = &[b"llvm.br", b"llvm.cond_br"];

/// The branches of llvm.
pub fn branches() -> &'static [&'static [u8]]
    ensures { texts result.now ≡ names.llvm_branches }
{
    BRANCHES
}

const LLVM: &[&[u8]] = &[
    b"llvm.func",
    b"llvm.call",
    b"llvm.return",
    b"llvm.br",
    b"llvm.cond_br",
    b"llvm.mlir.constant",
    b"llvm.mlir.undef",
    b"llvm.add",
    b"llvm.sub",
    b"llvm.mul",
    b"llvm.shl",
    b"llvm.sdiv",
    b"llvm.udiv",
    b"llvm.srem",
    b"llvm.urem",
    b"llvm.and",
    b"llvm.or",
    b"llvm.xor",
    b"llvm.ashr",
    b"llvm.lshr",
    b"llvm.icmp",
    b"llvm.select",
    b"llvm.sext",
    b"llvm.zext",
    b"llvm.trunc",
    b"llvm.extractvalue",
    b"llvm.insertvalue",
    b"llvm.getelementptr",
    b"llvm.load",
    b"llvm.store",
];

pub fn of_llvm() -> &'static [&'static [u8]]
    ensures { texts result.now ≡ names.llvm_names }
{
    LLVM
}
