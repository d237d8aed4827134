//! Texts, with the byte and the kind at which looking ends.

use crate::{EndKind, Ending, Source, events, find_ending, look_at, names};
use std::alloc::Global;
use std::process::Abort;
use std::test::Fail;
use text_grammar::cut;

/// Where looking at the text ends.
fn ending(rt: &impl Abort, alloc: Global, text: &[u8]) -> Result<Option<Ending>, Fail> {
    assert!(rt; text.len() <= 16777216);
    let cut = cut(alloc, text)?;
    let names = names(alloc, text, &cut.words)?;
    assert!(rt; cut.words.len() == names.len());
    let look = look_at(alloc, &cut.words, &names)?;
    Ok(find_ending(text.len(), &cut.words, cut.fault, &look))
}

/// Looking at the text ends nowhere.
fn is_text(rt: &impl Abort, alloc: Global, text: &[u8]) -> Result<(), Fail> {
    let found = ending(rt, alloc, text)?;
    assert!(rt; found.is_none());
    Ok(())
}

/// Looking at the text ends at this byte, for this reason.
fn ends(
    rt: &impl Abort,
    alloc: Global,
    text: &[u8],
    place: usize,
    kind: EndKind,
) -> Result<(), Fail> {
    match ending(rt, alloc, text)? {
        Some(found) => {
            assert_eq!(rt; found.place, place);
            assert!(rt; found.kind == kind);
        }
        None => panic!(rt; "it is a text"),
    }
    Ok(())
}

#[test]
fn faults_of_the_lexer(rt: HostRuntime) -> Result<(), Fail> {
    ends(&rt, rt.alloc(), b"\"t.x\"() ?? $", 8, EndKind::Expected)?;
    ends(&rt, rt.alloc(), b"\"t.x\"() $", 8, EndKind::BadByte)?;
    ends(&rt, rt.alloc(), b"#a = @\"x", 6, EndKind::OpenString)?;
    ends(&rt, rt.alloc(), b"#a = \"\\4\"", 6, EndKind::BadEscape)?;
    ends(&rt, rt.alloc(), b"#a = 5 $", 7, EndKind::BadByte)
}

#[test]
fn long_numbers(rt: HostRuntime) -> Result<(), Fail> {
    is_text(
        &rt,
        rt.alloc(),
        b"#a = 340282366920938463463374607431768211455",
    )?;
    ends(
        &rt,
        rt.alloc(),
        b"#a = 340282366920938463463374607431768211456",
        5,
        EndKind::LongNumber,
    )?;
    ends(
        &rt,
        rt.alloc(),
        b"#a 340282366920938463463374607431768211456",
        3,
        EndKind::LongNumber,
    )?;
    ends(
        &rt,
        rt.alloc(),
        b"\"t.x\"(%a#340282366920938463463374607431768211456",
        9,
        EndKind::LongNumber,
    )?;
    ends(
        &rt,
        rt.alloc(),
        b"!a = memref<0x340282366920938463463374607431768211456xi32>",
        14,
        EndKind::LongNumber,
    )?;
    is_text(
        &rt,
        rt.alloc(),
        b"#340282366920938463463374607431768211456 = 5",
    )
}

#[test]
fn other_spellings_of_types(rt: HostRuntime) -> Result<(), Fail> {
    ends(&rt, rt.alloc(), b"!a = f32", 5, EndKind::UnsupportedType)?;
    ends(&rt, rt.alloc(), b"!a = !x.y", 5, EndKind::UnsupportedType)?;
    ends(&rt, rt.alloc(), b"!a = ptr", 5, EndKind::UnsupportedType)?;
    ends(
        &rt,
        rt.alloc(),
        b"!a = memref<0xf32>",
        14,
        EndKind::UnsupportedType,
    )
}

#[test]
fn other_spellings_of_memrefs(rt: HostRuntime) -> Result<(), Fail> {
    is_text(&rt, rt.alloc(), b"!a = memref<1x2x3x4x5x6x7x8xi32>")?;
    ends(
        &rt,
        rt.alloc(),
        b"!a = memref<1x2x3x4x5x6x7x8x9xi32>",
        5,
        EndKind::UnsupportedType,
    )?;
    ends(
        &rt,
        rt.alloc(),
        b"!a = (memref<i1>, memref<i8, 1>) -> ()",
        18,
        EndKind::UnsupportedType,
    )?;
    ends(
        &rt,
        rt.alloc(),
        b"!a = memref<2x0xFxi32>",
        16,
        EndKind::UnsupportedType,
    )
}

#[test]
fn other_spellings_of_attributes(rt: HostRuntime) -> Result<(), Fail> {
    ends(
        &rt,
        rt.alloc(),
        b"#a = [@f::@g]",
        6,
        EndKind::UnsupportedAttr,
    )?;
    ends(&rt, rt.alloc(), b"#a = none", 5, EndKind::UnsupportedAttr)?;
    ends(
        &rt,
        rt.alloc(),
        b"#a = {x = i65}",
        10,
        EndKind::UnsupportedAttr,
    )
}

#[test]
fn aliases(rt: HostRuntime) -> Result<(), Fail> {
    is_text(
        &rt,
        rt.alloc(),
        b"!a = index !b = !a #c = 5 : !b #d = [#c] !e = memref<2x!b>",
    )?;
    ends(
        &rt,
        rt.alloc(),
        b"!a = !llvm.struct<(!a)>",
        19,
        EndKind::UnknownAlias,
    )?;
    ends(&rt, rt.alloc(), b"#a = #b", 5, EndKind::UnknownAlias)?;
    ends(
        &rt,
        rt.alloc(),
        b"#a = loc(unknown) #b = [#a]",
        24,
        EndKind::UnsupportedAttr,
    )
}

#[test]
fn aliases_of_integers(rt: HostRuntime) -> Result<(), Fail> {
    ends(
        &rt,
        rt.alloc(),
        b"!a = !llvm.ptr #b = 5 : !a",
        24,
        EndKind::Expected,
    )?;
    ends(
        &rt,
        rt.alloc(),
        b"!a = !llvm.ptr !b = memref<!a>",
        27,
        EndKind::Expected,
    )?;
    ends(&rt, rt.alloc(), b"#b = 5 : !a", 9, EndKind::UnknownAlias)
}

#[test]
fn forms(rt: HostRuntime) -> Result<(), Fail> {
    ends(&rt, rt.alloc(), b"\"t.x\"() : () ->", 15, EndKind::Expected)?;
    ends(&rt, rt.alloc(), b"#a.b = 5", 0, EndKind::Expected)?;
    is_text(
        &rt,
        rt.alloc(),
        b"\"t.x\"() ({ ^a(%x: i1): \"t.y\"() [^a] : () -> () }) : () -> () loc(#z)",
    )
}

/// The events have the names, and what they spell can be had.
#[test]
fn events_with_their_names(rt: HostRuntime) -> Result<(), Fail> {
    let text: &[u8] = b"#a = \"x\\41\" #b = [-0x1F, #a]";
    let cut = cut(rt.alloc(), text)?;
    let names = names(rt.alloc(), text, &cut.words)?;
    assert!(&rt; cut.words.len() == names.len());
    let look = look_at(rt.alloc(), &cut.words, &names)?;
    let events = events(rt.alloc(), &look.places, &names)?;
    assert_eq!(&rt; events.len(), 11);
    let source = Source {
        text,
        words: &cut.words,
    };
    let spelled = source.spelled(rt.alloc(), 2)?;
    assert_eq!(&rt; spelled.len(), 2);
    assert_eq!(&rt; source.number(7), 31);
    assert!(&rt; events.last().map(|e| e.name) == Some(10));
    Ok(())
}
