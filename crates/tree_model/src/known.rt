//! The names that cost no memory, and how one is found.

ghost use Rattle.std.specs.Prelude.{◌≡◌, ◌↔◌, IfNone, IfSome, IsTrue, get_or};
ghost use Rattle.tree_model.specs.Known.{StandsAt, known_text, text_in, mixed, slot_of, IsUnknown};

/// The known names: those of the operations in the order of the table of operations, then those of
/// properties, then those of attributes and the words that stand in them.
pub const KNOWN: &[&[u8]] = &[
    b"builtin.module",
    b"builtin.unrealized_conversion_cast",
    b"func.func",
    b"func.call",
    b"func.return",
    b"arith.constant",
    b"arith.addi",
    b"arith.subi",
    b"arith.muli",
    b"arith.shli",
    b"arith.divsi",
    b"arith.divui",
    b"arith.remsi",
    b"arith.remui",
    b"arith.ceildivsi",
    b"arith.floordivsi",
    b"arith.ceildivui",
    b"arith.andi",
    b"arith.ori",
    b"arith.xori",
    b"arith.shrsi",
    b"arith.shrui",
    b"arith.maxsi",
    b"arith.maxui",
    b"arith.minsi",
    b"arith.minui",
    b"arith.cmpi",
    b"arith.select",
    b"arith.extsi",
    b"arith.extui",
    b"arith.trunci",
    b"arith.index_cast",
    b"arith.index_castui",
    b"cf.br",
    b"cf.cond_br",
    b"scf.if",
    b"scf.for",
    b"scf.while",
    b"scf.index_switch",
    b"scf.execute_region",
    b"scf.yield",
    b"scf.condition",
    b"memref.alloc",
    b"memref.dealloc",
    b"memref.load",
    b"memref.store",
    b"memref.dim",
    b"memref.rank",
    b"memref.cast",
    b"llvm.func",
    b"llvm.call",
    b"llvm.return",
    b"llvm.br",
    b"llvm.cond_br",
    b"llvm.mlir.constant",
    b"llvm.mlir.undef",
    b"llvm.add",
    b"llvm.sub",
    b"llvm.mul",
    b"llvm.shl",
    b"llvm.sdiv",
    b"llvm.udiv",
    b"llvm.srem",
    b"llvm.urem",
    b"llvm.and",
    b"llvm.or",
    b"llvm.xor",
    b"llvm.ashr",
    b"llvm.lshr",
    b"llvm.icmp",
    b"llvm.select",
    b"llvm.sext",
    b"llvm.zext",
    b"llvm.trunc",
    b"llvm.extractvalue",
    b"llvm.insertvalue",
    b"llvm.getelementptr",
    b"llvm.load",
    b"llvm.store",
    b"sym_name",
    b"sym_visibility",
    b"function_type",
    b"arg_attrs",
    b"res_attrs",
    b"callee",
    b"value",
    b"overflowFlags",
    b"predicate",
    b"operandSegmentSizes",
    b"cases",
    b"no_inline",
    b"alignment",
    b"nontemporal",
    b"linkage",
    b"position",
    b"elem_type",
    b"rawConstantIndices",
    b"unsignedCmp",
    b"arith.overflow",
    b"llvm.overflow",
    b"llvm.linkage",
    b"none",
    b"nsw",
    b"nuw",
    b"external",
];

/// For each slot the number of the known name whose slot it is, or 0 where there is none.
pub const SLOTS: &[u8] = &[
    10, 0, 0, 0, 0, 11, 0, 38, 0, 0, 0, 0, 0, 0, 0, 0, 0, 0, 0, 0, 0, 0, 0, 0, 0, 0, 0, 102, 0, 0,
    0, 0, 103, 0, 0, 0, 0, 0, 0, 0, 0, 0, 0, 0, 54, 0, 0, 46, 0, 0, 0, 0, 0, 45, 12, 31, 0, 0, 0,
    13, 0, 0, 0, 0, 0, 0, 0, 0, 0, 0, 0, 51, 0, 0, 0, 0, 0, 101, 60, 0, 0, 0, 0, 0, 99, 0, 95, 49,
    0, 0, 0, 0, 0, 0, 0, 0, 63, 78, 0, 0, 0, 0, 0, 22, 0, 0, 0, 0, 0, 23, 0, 0, 0, 0, 0, 0, 0, 0,
    0, 0, 0, 0, 0, 0, 0, 0, 0, 0, 100, 0, 0, 0, 0, 0, 0, 0, 0, 55, 0, 0, 0, 0, 0, 7, 0, 0, 0, 0, 0,
    0, 0, 0, 0, 0, 0, 0, 0, 0, 0, 0, 0, 0, 0, 0, 0, 72, 0, 0, 0, 0, 0, 0, 0, 0, 0, 0, 0, 24, 0, 59,
    20, 0, 37, 25, 0, 0, 21, 0, 0, 0, 0, 0, 0, 9, 0, 0, 86, 0, 0, 0, 62, 0, 0, 0, 0, 30, 0, 0, 0,
    0, 75, 0, 0, 57, 0, 0, 79, 0, 0, 42, 0, 0, 0, 27, 35, 0, 0, 0, 0, 0, 0, 0, 0, 0, 0, 0, 0, 0, 0,
    0, 0, 0, 0, 0, 0, 0, 0, 0, 0, 0, 0, 0, 0, 0, 0, 0, 0, 0, 0, 0, 0, 36, 0, 0, 0, 0, 0, 0, 82, 39,
    19, 0, 0, 71, 0, 0, 67, 0, 0, 26, 0, 0, 0, 0, 0, 0, 0, 0, 0, 0, 0, 0, 0, 0, 96, 0, 0, 43, 0, 0,
    18, 0, 0, 58, 0, 0, 0, 40, 0, 0, 0, 3, 0, 91, 0, 87, 0, 0, 0, 0, 0, 52, 0, 0, 0, 0, 0, 0, 0, 0,
    0, 0, 0, 0, 104, 0, 0, 0, 0, 0, 0, 0, 77, 0, 0, 0, 41, 0, 74, 0, 0, 0, 0, 0, 0, 65, 0, 34, 0,
    0, 0, 0, 0, 1, 0, 15, 0, 33, 80, 4, 97, 0, 0, 73, 89, 0, 0, 44, 0, 94, 0, 70, 0, 0, 0, 0, 0, 0,
    0, 0, 0, 0, 0, 0, 0, 0, 0, 85, 0, 0, 0, 83, 0, 0, 0, 0, 0, 0, 0, 0, 0, 0, 0, 0, 0, 0, 0, 14, 0,
    0, 0, 84, 16, 0, 98, 0, 0, 0, 81, 0, 0, 0, 0, 0, 0, 0, 0, 56, 0, 0, 0, 0, 0, 0, 0, 0, 90, 0, 0,
    76, 0, 50, 0, 69, 0, 0, 0, 88, 0, 2, 28, 0, 0, 64, 66, 29, 93, 0, 0, 0, 0, 32, 68, 0, 0, 0, 0,
    0, 0, 47, 0, 92, 8, 0, 0, 6, 61, 0, 0, 53, 0, 0, 0, 5, 0, 0, 0, 0, 0, 0, 0, 0, 0, 0, 48, 0, 0,
    17, 0, 0, 0, 0,
];

// One byte more in the hash of a text.
fn mixed(hash: u32, byte: u8) -> u32
    ensures { result ≡ mixed hash byte }
{
    hash.wrapping_mul(172937).wrapping_add(u32::from(byte))
}

// The slot of a text, by the high bits of its hash.
#[tactic(auto, unfolding(crate::specs::Known::slot_of))]
fn slot_of(text: &[u8]) -> usize
    ensures { result ≡ slot_of text.now }
{
    let mut hash = 0;
    for byte in text {
        hash = mixed(hash, *byte);
    }
    (hash / 65536 % 512) as usize
}

fn number_in(slots: &[u8], slot: usize) -> u8
    ensures { result ≡ get_or slots.now slot 0 }
{
    match slots.get(slot) {
        Some(number) => *number,
        None => 0,
    }
}

fn text_in(table: &'static [&'static [u8]], number: u8) -> &'static [u8]
    ensures { result.now ≡ text_in table.now number }
{
    match table.get(usize::from(number)) {
        Some(text) => text,
        None => &[],
    }
}

/// The text of a known name.
pub fn known_text(number: u8) -> &'static [u8]
    ensures { result.now ≡ known_text number }
{
    text_in(KNOWN, number)
}

// Whether the known name at a number is the text.
fn stands_at(number: u8, text: &[u8]) -> bool
    ensures { IsTrue result ↔ StandsAt number text.now }
{
    usize::from(number) < KNOWN.len() && known_text(number) == text
}

/// The number of the known name with this text.
pub fn known_number(text: &[u8]) -> Option<u8>
    ensures known { IfSome result (λ number. StandsAt number text.now) }
    ensures unknown { IfNone result (IsUnknown text.now) }
{
    let number = number_in(SLOTS, slot_of(text));
    if stands_at(number, text) {
        Some(number)
    } else {
        None
    }
}
