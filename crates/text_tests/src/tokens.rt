//! The tokens of texts, and their first faults.

use mlir_lex::{LexKind, Lexer, TokenKind, tokens};
use std::alloc::{AllocError, Global};
use std::process::Abort;
use std::test::Fail;

/// A letter for each kind.
fn letter(kind: TokenKind) -> &'static str {
    match kind {
        TokenKind::Bare => "b",
        TokenKind::ValueName => "%",
        TokenKind::BlockName => "^",
        TokenKind::AttrName => "#",
        TokenKind::TypeName => "!",
        TokenKind::SymbolName => "@",
        TokenKind::Text => "t",
        TokenKind::Number => "n",
        TokenKind::Sign => "s",
    }
}

/// The tokens of a text as `%0-2 s3-4`, and its fault as `BadByte@7`.
fn shown(rt: &impl Abort, alloc: Global, text: &[u8]) -> Result<String, AllocError> {
    assert!(rt; text.len() < 1000);
    let lexed = tokens(alloc, text)?;
    let mut out = String::new(alloc);
    for token in &lexed.tokens {
        let kind = letter(token.kind);
        let start = token.start;
        let end = token.end;
        out.push_str(&format!(in alloc; "{kind}{start}-{end} ")?)?;
    }
    if let Some(fault) = lexed.fault {
        let kind = fault.kind;
        let place = fault.place;
        out.push_str(&format!(in alloc; "{kind:?}@{place}")?)?;
    }
    String::from_str(alloc, out.trim_end())
}

/// Each text is shown as wanted.
fn shows(rt: &impl Abort, alloc: Global, table: &[(&str, &str)]) -> Result<(), AllocError> {
    for (text, want) in table {
        let got = shown(rt, alloc, text.as_bytes())?;
        assert_eq!(rt; got.as_str(), *want, "at {text}");
    }
    Ok(())
}

// Each name, and a lone first byte.
#[test]
fn cuts_names(rt: HostRuntime) -> Result<(), Fail> {
    shows(
        &rt,
        rt.alloc(),
        &[
            ("%a", "%0-2"),
            ("%0", "%0-2"),
            ("%12ab", "%0-3 b3-5"),
            ("%a-b", "%0-4"),
            ("%a->b", "%0-3 s3-4 b4-5"),
            ("%-$._x", "%0-6"),
            ("%x#0", "%0-2 #2-4"),
            ("%", "BadByte@0"),
            ("% a", "BadByte@0"),
            ("^bb0", "^0-4"),
            ("^3:", "^0-2 s2-3"),
            ("^", "BadByte@0"),
            ("a ^,", "b0-1 BadByte@2"),
            ("#map", "#0-4"),
            ("#0x", "#0-2 b2-3"),
            ("#", "BadByte@0"),
            ("#)", "BadByte@0"),
            ("!llvm.ptr", "!0-9"),
            ("!7", "!0-2"),
            ("!", "BadByte@0"),
            ("i32 !", "b0-3 BadByte@4"),
            ("@f", "@0-2"),
            ("@0", "@0-2"),
            ("@\"a b\"", "@0-6"),
            ("@\"\"", "@0-3"),
            ("@a::@b", "@0-2 s2-4 @4-6"),
            ("@", "BadByte@0"),
            ("@ a", "BadByte@0"),
            ("@@a", "BadByte@0"),
        ],
    )?;
    Ok(())
}

// Strings, and both of their faults.
#[test]
fn cuts_strings(rt: HostRuntime) -> Result<(), Fail> {
    shows(
        &rt,
        rt.alloc(),
        &[
            ("\"\"", "t0-2"),
            ("\"a b\"", "t0-5"),
            ("\"\\n\\t\\\\\\\"\"", "t0-10"),
            ("\"\\41\\fF\"", "t0-8"),
            ("\"//\"", "t0-4"),
            ("\"é\"", "t0-4"),
            ("\"a\"\"b\"", "t0-3 t3-6"),
            ("\"a", "OpenString@0"),
            ("\"", "OpenString@0"),
            ("x \"a\n\"", "b0-1 OpenString@2"),
            ("\"a\\\"", "OpenString@0"),
            ("\"a\\", "OpenString@0"),
            ("\"\\q", "OpenString@0"),
            ("\"\\\n\"", "OpenString@0"),
            ("@\"a", "OpenString@1"),
            ("@\"a\nb\"", "OpenString@1"),
            ("%x @\"", "%0-2 OpenString@4"),
            ("\"\\q\"", "BadEscape@1"),
            ("\"ab\\q\"", "BadEscape@3"),
            ("\"\\4\"", "BadEscape@1"),
            ("\"\\4g\"", "BadEscape@1"),
            ("\"\\n\\x\\y\"", "BadEscape@3"),
            ("@\"\\z\"", "BadEscape@2"),
            ("\"\\q\\\"\"", "BadEscape@1"),
            ("\"\\q\" %", "BadEscape@1"),
        ],
    )?;
    Ok(())
}

// Numbers, signs and bare identifiers.
#[test]
fn cuts_numbers_and_signs(rt: HostRuntime) -> Result<(), Fail> {
    shows(
        &rt,
        rt.alloc(),
        &[
            ("0", "n0-1"),
            ("42", "n0-2"),
            ("007", "n0-3"),
            ("0x1F", "n0-4"),
            ("0xg", "n0-1 b1-3"),
            ("0x", "n0-1 b1-2"),
            ("0X1", "n0-1 b1-3"),
            ("10x2", "n0-2 b2-4"),
            ("-1", "s0-1 n1-2"),
            ("1.5", "n0-1 BadByte@1"),
            ("->", "s0-2"),
            ("-->", "s0-1 s1-3"),
            ("- >", "s0-1 s2-3"),
            ("::", "s0-2"),
            (":::", "s0-2 s2-3"),
            ("<{", "s0-1 s1-2"),
            ("}>", "s0-1 s1-2"),
            (
                "()[]{}<>,:=?-",
                "s0-1 s1-2 s2-3 s3-4 s4-5 s5-6 s6-7 s7-8 s8-9 s9-10 s10-11 s11-12 s12-13",
            ),
            ("a", "b0-1"),
            ("_a1.b$c", "b0-7"),
            ("ab.cd", "b0-5"),
            ("a-b", "b0-1 s1-2 b2-3"),
            ("$a", "BadByte@0"),
            (".a", "BadByte@0"),
        ],
    )?;
    Ok(())
}

// White space, comments, and bytes with which no token begins.
#[test]
fn passes_gaps(rt: HostRuntime) -> Result<(), Fail> {
    shows(
        &rt,
        rt.alloc(),
        &[
            ("", ""),
            (" \t\r\n", ""),
            ("//", ""),
            ("// a", ""),
            ("// %\nb", "b5-6"),
            ("a//b\nc", "b0-1 b5-6"),
            ("a // \"\n c", "b0-1 b8-9"),
            ("//a\r//b\n//c\n1", "n12-13"),
            ("/", "BadByte@0"),
            ("a / b", "b0-1 BadByte@2"),
            ("/ /", "BadByte@0"),
            ("a/", "b0-1 BadByte@1"),
            ("a\x0bb", "b0-1 BadByte@1"),
            ("é", "BadByte@0"),
            ("a é", "b0-1 BadByte@2"),
            ("// é\n;", "BadByte@6"),
            ("a+b", "b0-1 BadByte@1"),
            ("&", "BadByte@0"),
        ],
    )?;
    Ok(())
}

// A string may have bytes that are not UTF-8, and a comment too.
#[test]
fn takes_bytes_above_ascii(rt: HostRuntime) -> Result<(), Fail> {
    let in_string = shown(&rt, rt.alloc(), &[b'"', 0x80, 0xff, b'"'])?;
    assert_eq!(rt; in_string.as_str(), "t0-4");
    let in_comment = shown(&rt, rt.alloc(), &[b'/', b'/', 0xff, b'\n', b'x'])?;
    assert_eq!(rt; in_comment.as_str(), "b4-5");
    let outside = shown(&rt, rt.alloc(), &[b'x', b' ', 0xff])?;
    assert_eq!(rt; outside.as_str(), "b0-1 BadByte@2");
    Ok(())
}

// What each byte is alone, in rows of sixteen: white space, a bare identifier, a number, a sign, the quote of a string
// that is cut (`o`), or no token (`!`).
const ALONE: [&str; 8] = [
    "!!!!!!!!!  !! !!",
    "!!!!!!!!!!!!!!!!",
    " !o!!!!!ss!!ss!!",
    "nnnnnnnnnns!ssss",
    "!bbbbbbbbbbbbbbb",
    "bbbbbbbbbbbs!s!b",
    "!bbbbbbbbbbbbbbb",
    "bbbbbbbbbbbs!s!!",
];

#[test]
fn knows_each_byte(rt: HostRuntime) -> Result<(), Fail> {
    for byte in 0..=255u8 {
        let row = ALONE.get(usize::from(byte / 16)).copied().unwrap_or("");
        let want = match row.as_bytes().get(usize::from(byte % 16)) {
            Some(b' ') => "",
            Some(b'b') => "b0-1",
            Some(b'n') => "n0-1",
            Some(b's') => "s0-1",
            Some(b'o') => "OpenString@0",
            _ => "BadByte@0",
        };
        let got = shown(&rt, rt.alloc(), &[byte])?;
        assert_eq!(rt; got.as_str(), want, "at {byte}");
    }
    Ok(())
}

// Three hundred bytes with every kind.
const WHOLE: &str =
    "#map = affine // an alias\n!pair = !llvm.struct<(i32, i64)>\nfunc.func @\"main one\"(%arg0: i32, %arg1: !pair) -> i32 {\n^bb0:\n  %0:2 = \"arith.addi\"(%arg0, %x#1) <{note = \"a\\n\\41\", n = -0x1F : i64}> : (i32, i32) -> i32\n  \"cf.br\"()[^bb1, ^7] {a.b = @f::@g, c = ?} : () -> () loc(#map)\n}\n//xxxxxxxxxxxxxxxx\n";

// Where the text is cut anywhere, it has no more tokens.
#[test]
fn cuts_each_prefix(rt: HostRuntime) -> Result<(), Fail> {
    let whole = WHOLE.as_bytes();
    assert_eq!(rt; whole.len(), 300);
    let count = tokens(rt.alloc(), whole)?.tokens.len();
    for end in 0..whole.len() {
        let cut = tokens(rt.alloc(), &whole[..end])?;
        assert!(rt; cut.tokens.len() <= count, "at {end}");
    }
    Ok(())
}

// One by one, and from a fault on the same.
#[test]
fn gives_one_by_one(rt: HostRuntime) {
    let mut lexer = Lexer::new(b"%a \"");
    assert!(rt;
        matches!(lexer.next(), Ok(Some(token)) if token.kind == TokenKind::ValueName && token.start == 0 && token.end == 2)
    );
    for _ in 0..3 {
        assert!(rt;
            matches!(lexer.next(), Err(fault) if fault.kind == LexKind::OpenString && fault.place == 3)
        );
    }
    let mut empty = Lexer::new(b" ");
    for _ in 0..3 {
        assert!(rt; matches!(empty.next(), Ok(None)));
    }
}
