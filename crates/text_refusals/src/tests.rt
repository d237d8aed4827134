//! Texts, with the byte and the kind of their refusals.

use crate::refusal;
use std::alloc::{AllocError, Global};
use std::process::Abort;
use std::test::Fail;
use text_kinds::kind_name;

/// The text is refused at this byte as of this kind; as no kind where it is read.
fn is(rt: &impl Abort, alloc: Global, text: &[u8], place: usize, kind: &str) -> Result<(), Fail> {
    assert!(rt; text.len() <= 16777216);
    match refusal(alloc, text, true)? {
        Some(found) => {
            assert_eq!(rt; kind_name(found.kind), kind);
            assert_eq!(rt; found.place, place);
        }
        None => assert_eq!(rt; kind, "none"),
    }
    Ok(())
}

/// In the body of a function.
fn inside(
    rt: &impl Abort,
    alloc: Global,
    body: &[u8],
    place: usize,
    kind: &str,
) -> Result<(), Fail> {
    let mut text = Vec::new(alloc);
    text.extend_from_slice(b"\"func.func\"() ({")?;
    text.extend_from_slice(body)?;
    text.extend_from_slice(b"}) : () -> ()")?;
    is(rt, alloc, &text, place, kind)
}

#[test]
fn modules(rt: HostRuntime) -> Result<(), Fail> {
    is(&rt, rt.alloc(), b"", 0, "none")?;
    is(
        &rt,
        rt.alloc(),
        b"\"builtin.module\"() ({}) : () -> ()",
        0,
        "none",
    )?;
    is(
        &rt,
        rt.alloc(),
        b"\"builtin.module\"() : () -> ()",
        0,
        "ModuleShape",
    )?;
    is(&rt, rt.alloc(), b"\"t.x\"(", 0, "ModuleShape")
}

#[test]
fn values(rt: HostRuntime) -> Result<(), Fail> {
    inside(
        &rt,
        rt.alloc(),
        b"%a = \"t.x\"() : () -> i1 \"t.y\"(%a) : (i1) -> ()",
        0,
        "none",
    )?;
    inside(
        &rt,
        rt.alloc(),
        b"\"t.y\"(%a) : (i1) -> ()",
        22,
        "UndefinedValue",
    )?;
    inside(
        &rt,
        rt.alloc(),
        b"%a, %a = \"t.x\"() : () -> (i1, i1)",
        20,
        "RedefinedValue",
    )?;
    inside(
        &rt,
        rt.alloc(),
        b"%a = \"t.x\"() : () -> (i1, i1)",
        31,
        "TypeCount",
    )
}

#[test]
fn blocks(rt: HostRuntime) -> Result<(), Fail> {
    inside(&rt, rt.alloc(), b"^a: \"t.x\"() [^a] : () -> ()", 0, "none")?;
    inside(
        &rt,
        rt.alloc(),
        b"\"t.x\"() [^a] : () -> ()",
        25,
        "UndefinedBlock",
    )?;
    inside(&rt, rt.alloc(), b"^a: ^a:", 20, "RedefinedBlock")
}

#[test]
fn numbers(rt: HostRuntime) -> Result<(), Fail> {
    is(&rt, rt.alloc(), b"#a = 255 : i8 #b = -128 : i8", 0, "none")?;
    is(&rt, rt.alloc(), b"#a = 256 : i8", 5, "IntegerRange")?;
    is(&rt, rt.alloc(), b"#a = -129 : i8", 6, "IntegerRange")?;
    is(
        &rt,
        rt.alloc(),
        b"!a = !llvm.array<4294967296 x i8>",
        17,
        "IntegerRange",
    )
}

#[test]
fn entries_and_aliases(rt: HostRuntime) -> Result<(), Fail> {
    is(&rt, rt.alloc(), b"#a = {x, y, \"x\"}", 12, "DuplicateAttr")?;
    is(&rt, rt.alloc(), b"!a = i1 !a = i2", 8, "RedefinedAlias")?;
    is(
        &rt,
        rt.alloc(),
        b"!a = i16 #x = 300 : !a !a = i8",
        23,
        "RedefinedAlias",
    )?;
    is(&rt, rt.alloc(), b"#a = [#b]", 6, "UnknownAlias")
}

/// Of several refusals the one at the least place, also where it is decided later.
#[test]
fn least_places(rt: HostRuntime) -> Result<(), Fail> {
    is(&rt, rt.alloc(), b"#a = 256 : i8 *", 5, "IntegerRange")?;
    is(
        &rt,
        rt.alloc(),
        b"#a = [memref<9223372036854775808xi8, 1>]",
        6,
        "UnsupportedType",
    )?;
    inside(
        &rt,
        rt.alloc(),
        b"\"t.y\"(%a) : (i1) -> () $",
        39,
        "BadByte",
    )
}

/// A use whose type isn't that of its definition.
#[test]
fn types_of_uses(rt: HostRuntime) -> Result<(), Fail> {
    inside(
        &rt,
        rt.alloc(),
        b"%a = \"t.x\"() : () -> i8 \"t.y\"(%a) : (i16) -> ()",
        52,
        "UseType",
    )?;
    inside(
        &rt,
        rt.alloc(),
        b"\"t.y\"(%a) : (i16) -> () %a = \"t.x\"() : () -> i8",
        55,
        "UseType",
    )?;
    inside(
        &rt,
        rt.alloc(),
        b"%a = \"t.x\"() ({ \"t.y\"(%a) : (i16) -> () }) : () -> i8",
        61,
        "UseType",
    )?;
    inside(
        &rt,
        rt.alloc(),
        b"%a = \"t.x\"() : () -> i8 \"t.y\"(%a) : (i8) -> ()",
        0,
        "none",
    )
}

/// Of a block argument the type is written behind its name.
#[test]
fn types_of_arguments(rt: HostRuntime) -> Result<(), Fail> {
    inside(
        &rt,
        rt.alloc(),
        b"^a(%a : i8): \"t.y\"(%a) : (i16) -> ()",
        41,
        "UseType",
    )?;
    inside(
        &rt,
        rt.alloc(),
        b"\"t.y\"(%a) : (i16) -> () ^a(%a : i8):",
        48,
        "UseType",
    )?;
    inside(
        &rt,
        rt.alloc(),
        b"\"t.y\"(%a) : (i8) -> () ^a(%a : i8):",
        0,
        "none",
    )
}

/// At one function type a wrong number of types comes first, then a wrong type.
#[test]
fn kinds_at_one_function_type(rt: HostRuntime) -> Result<(), Fail> {
    inside(
        &rt,
        rt.alloc(),
        b"%a = \"t.x\"() : () -> i8 \"t.y\"(%a) : (i16, i16) -> ()",
        52,
        "TypeCount",
    )?;
    inside(
        &rt,
        rt.alloc(),
        b"%a = \"t.x\"() : () -> i8 \"t.y\"(%a#1, %a) : (i8, i16) -> ()",
        58,
        "UseType",
    )?;
    inside(
        &rt,
        rt.alloc(),
        b"%a = \"t.x\"() : () -> i8 \"t.y\"(%a) : (i16) -> () $",
        52,
        "UseType",
    )?;
    inside(
        &rt,
        rt.alloc(),
        b"%a = \"t.x\"() : () -> i8 \"t.y\"(%a) : (i16) -> $",
        61,
        "BadByte",
    )
}

/// A use of a result that isn't there.
#[test]
fn indexes_of_uses(rt: HostRuntime) -> Result<(), Fail> {
    inside(
        &rt,
        rt.alloc(),
        b"%a:2 = \"t.x\"() : () -> (i8, i8) \"t.y\"(%a#2) : (i8) -> ()",
        62,
        "ResultIndex",
    )?;
    inside(
        &rt,
        rt.alloc(),
        b"\"t.y\"(%a#2) : (i8) -> () %a:2 = \"t.x\"() : () -> (i8, i8)",
        58,
        "ResultIndex",
    )?;
    inside(
        &rt,
        rt.alloc(),
        b"^a(%a : i8): \"t.y\"(%a#1) : (i8) -> ()",
        43,
        "ResultIndex",
    )?;
    inside(
        &rt,
        rt.alloc(),
        b"%a:2 = \"t.x\"() : () -> (i8, i16) \"t.y\"(%a#1) : (i16) -> ()",
        0,
        "none",
    )
}

/// A label is a name of one region.
#[test]
fn labels_of_regions(rt: HostRuntime) -> Result<(), Fail> {
    inside(
        &rt,
        rt.alloc(),
        b"^a: \"t.x\"() ({^a:}) : () -> () ^a:",
        47,
        "RedefinedBlock",
    )?;
    inside(
        &rt,
        rt.alloc(),
        b"\"t.x\"() ({^a: ^a:}) : () -> ()",
        30,
        "RedefinedBlock",
    )?;
    inside(
        &rt,
        rt.alloc(),
        b"^a: \"t.x\"() ({^a:}, {^a:}) : () -> ()",
        0,
        "none",
    )
}

/// A text of a beginning and a piece as many times.
fn repeated(
    alloc: Global,
    before: &[u8],
    piece: &[u8],
    times: usize,
) -> Result<Vec<u8>, AllocError> {
    let mut text = Vec::new(alloc);
    text.extend_from_slice(before)?;
    for _ in 0..times {
        text.extend_from_slice(piece)?;
    }
    Ok(text)
}

/// The last of so many pieces passes a limit.
fn passes(
    rt: &impl Abort,
    alloc: Global,
    before: &[u8],
    piece: &[u8],
    times: usize,
    place: usize,
    kind: &str,
) -> Result<(), Fail> {
    let text = repeated(alloc, before, piece, times)?;
    is(rt, alloc, &text, place, kind)
}

/// A function's region has depth 2, so that the one of depth 65 is the 63rd in it.
#[test]
fn depth_of_regions(rt: HostRuntime) -> Result<(), Fail> {
    let before = b"\"func.func\"() ({";
    let piece = b"\"t.x\"() ({";
    passes(&rt, rt.alloc(), before, piece, 63, 645, "RegionDepth")?;
    passes(&rt, rt.alloc(), before, piece, 62, 636, "Expected")
}

#[test]
fn depth_of_types(rt: HostRuntime) -> Result<(), Fail> {
    let piece = b"!llvm.struct<(";
    passes(&rt, rt.alloc(), b"!a = ", piece, 17, 229, "TypeDepth")?;
    passes(&rt, rt.alloc(), b"!a = ", piece, 16, 229, "Expected")
}

#[test]
fn depth_of_attributes(rt: HostRuntime) -> Result<(), Fail> {
    passes(&rt, rt.alloc(), b"#a = ", b"[", 17, 21, "AttrDepth")?;
    passes(&rt, rt.alloc(), b"#a = ", b"[", 16, 21, "Expected")
}

/// Each alias stands for eight times the one before it: with the sixth `!h` there are more than 2^24 parts.
#[test]
fn parts_of_aliases(rt: HostRuntime) -> Result<(), Fail> {
    let mut text = Vec::new(rt.alloc());
    text.extend_from_slice(b"!a=i1 ")?;
    for name in b"bcdefghi" {
        let inner = *name - 1;
        text.extend_from_slice(&[b'!', *name])?;
        text.extend_from_slice(b"=!llvm.struct<(")?;
        for _ in 0..7 {
            text.extend_from_slice(&[b'!', inner, b','])?;
        }
        text.extend_from_slice(&[b'!', inner])?;
        text.extend_from_slice(b")> ")?;
    }
    is(&rt, rt.alloc(), &text, 339, "Parts")
}

#[test]
fn number_of_functions(rt: HostRuntime) -> Result<(), Fail> {
    let piece = b"\"func.func\"():()->()";
    passes(&rt, rt.alloc(), b"", piece, 65537, 1310720, "Functions")
}

/// Labels of four digits: the 4,097th block.
#[test]
fn number_of_blocks(rt: HostRuntime) -> Result<(), Fail> {
    let mut text = Vec::new(rt.alloc());
    text.extend_from_slice(b"\"func.func\"() ({")?;
    for number in 0..4097u32 {
        text.extend_from_slice(b"^")?;
        for power in [1000, 100, 10, 1] {
            text.push(b'0' + (number / power % 10) as u8)?;
        }
        text.extend_from_slice(b":")?;
    }
    is(&rt, rt.alloc(), &text, 24592, "Blocks")
}

#[test]
fn number_of_operands(rt: HostRuntime) -> Result<(), Fail> {
    let before = b"\"func.func\"() ({\"t.x\"(%a";
    passes(&rt, rt.alloc(), before, b",%a", 4096, 12310, "Operands")?;
    passes(&rt, rt.alloc(), before, b",%a", 4095, 12309, "Expected")
}

/// The function is an operation itself.
#[test]
fn number_of_operations(rt: HostRuntime) -> Result<(), Fail> {
    let before = b"\"func.func\"() ({";
    let piece = b"\"t.x\"():()->()";
    passes(
        &rt,
        rt.alloc(),
        before,
        piece,
        262144,
        3670018,
        "Operations",
    )
}
