//! The kind of a token by its bytes.

ghost use Rattle.std.specs.Prelude.{◌≡◌, ◌*◌, ◌+◌, ◌∷◌, ◌^◌, [], length};
ghost use Rattle.std.specs.List.{list_all, list_any};
ghost use Rattle.std.specs.Str.{bytes_eq};
ghost use Rattle.mlir_lex.specs.Bytes.{is_digit};
ghost use Rattle.text_grammar.specs.TokenKinds.{bare_kind, bracket_kind, has_dot, hash_kind, is_integer_type, is_width, sign_kind, token_kind, type_kind, type_word};

use crate::kinds::Kind;
use mlir_lex::{TokenKind, is_digit};

/// The kind of a token with these bytes.
#[tactic(auto, unfolding(crate::specs::TokenKinds::token_kind))]
pub fn token_kind(kind: TokenKind, piece: &[u8]) -> Kind
    ensures { result ≡ token_kind kind piece.now }
{
    match kind {
        TokenKind::Bare => bare_kind(piece),
        TokenKind::ValueName => Kind::Value,
        TokenKind::BlockName => Kind::Label,
        TokenKind::AttrName => hash_kind(piece),
        TokenKind::TypeName => type_kind(piece),
        TokenKind::SymbolName => Kind::SymbolName,
        TokenKind::Text => Kind::Text,
        TokenKind::Number => Kind::Number,
        TokenKind::Sign => sign_kind(piece),
    }
}

/// Whether two texts have the same bytes.
fn same(one: &[u8], other: &[u8]) -> bool
    ensures { result ≡ bytes_eq one.now other.now }
{
    one == other
}

#[tactic(auto, unfolding(crate::specs::TokenKinds::bare_kind))]
fn bare_kind(piece: &[u8]) -> Kind
    ensures { result ≡ bare_kind piece.now }
{
    if same(piece, b"x") {
        Kind::WordX
    } else if same(piece, b"loc") {
        Kind::WordLoc
    } else if same(piece, b"unknown") {
        Kind::WordUnknown
    } else if same(piece, b"true") || same(piece, b"false") {
        Kind::WordBool
    } else {
        type_word(piece)
    }
}

#[tactic(auto, unfolding(crate::specs::TokenKinds::type_word))]
fn type_word(piece: &[u8]) -> Kind
    ensures { result ≡ type_word piece.now }
{
    if same(piece, b"i8") || same(piece, b"i16") || same(piece, b"i32") || same(piece, b"i64") {
        Kind::WordWidth
    } else if same(piece, b"index") || is_integer_type(piece) {
        Kind::WordInteger
    } else if same(piece, b"memref") {
        Kind::WordMemref
    } else if same(piece, b"array") {
        Kind::WordArray
    } else if same(piece, b"ptr") || same(piece, b"void") {
        Kind::WordPlain
    } else if same(piece, b"struct") {
        Kind::WordStruct
    } else if same(piece, b"func") {
        Kind::WordFunction
    } else {
        Kind::Word
    }
}

/// Whether this is `i` and a width from 1 to 64.
fn is_integer_type(piece: &[u8]) -> bool
    ensures { result ≡ is_integer_type piece.now }
{
    match piece {
        [first, digits @ ..] => *first == b'i' && is_width(digits),
        [] => false,
    }
}

fn is_width(digits: &[u8]) -> bool
    ensures { result ≡ is_width digits.now }
{
    match digits {
        [a] => b'1' <= *a && *a <= b'9',
        [a, b] => is_two_digit_width(*a, *b),
        _ => false,
    }
}

fn is_two_digit_width(a: u8, b: u8) -> bool
    ensures { result ≡ is_width (a ∷ b ∷ []) }
{
    is_digit(b) && ((b'1' <= a && a <= b'5') || (a == b'6' && b <= b'4'))
}

#[tactic(auto, unfolding(crate::specs::TokenKinds::hash_kind))]
fn hash_kind(piece: &[u8]) -> Kind
    ensures { result ≡ hash_kind piece.now }
{
    let (_, suffix) = piece.split_at(piece.len().min(1));
    if are_digits(suffix) {
        Kind::HashNumber
    } else if has_dot(piece) {
        Kind::HashDotted
    } else {
        Kind::HashName
    }
}

fn are_digits(bytes: &[u8]) -> bool
    ensures { result ≡ list_all is_digit bytes.now }
{
    bytes.iter().all(|b| is_digit(*b))
}

fn has_dot(name: &[u8]) -> bool
    ensures { result ≡ has_dot name.now }
{
    name.iter().any(|b| *b == b'.')
}

#[tactic(auto, unfolding(crate::specs::TokenKinds::type_kind))]
fn type_kind(piece: &[u8]) -> Kind
    ensures { result ≡ type_kind piece.now }
{
    if same(piece, b"!llvm.ptr") || same(piece, b"!llvm.void") {
        Kind::TypePlain
    } else if same(piece, b"!llvm.struct") {
        Kind::TypeStruct
    } else if same(piece, b"!llvm.array") {
        Kind::TypeArray
    } else if same(piece, b"!llvm.func") {
        Kind::TypeFunction
    } else if has_dot(piece) {
        Kind::TypeDotted
    } else {
        Kind::TypeName
    }
}

#[tactic(auto, unfolding(crate::specs::TokenKinds::sign_kind))]
fn sign_kind(piece: &[u8]) -> Kind
    ensures { result ≡ sign_kind piece.now }
{
    if same(piece, b",") {
        Kind::Comma
    } else if same(piece, b":") {
        Kind::Colon
    } else if same(piece, b"=") {
        Kind::Equals
    } else if same(piece, b"?") {
        Kind::Question
    } else if same(piece, b"-") {
        Kind::Minus
    } else if same(piece, b"->") {
        Kind::Arrow
    } else if same(piece, b"::") {
        Kind::DoubleColon
    } else {
        bracket_kind(piece)
    }
}

#[tactic(auto, unfolding(crate::specs::TokenKinds::bracket_kind))]
fn bracket_kind(piece: &[u8]) -> Kind
    ensures { result ≡ bracket_kind piece.now }
{
    if same(piece, b"(") {
        Kind::OpenParen
    } else if same(piece, b")") {
        Kind::CloseParen
    } else if same(piece, b"[") {
        Kind::OpenSquare
    } else if same(piece, b"]") {
        Kind::CloseSquare
    } else if same(piece, b"{") {
        Kind::OpenBrace
    } else if same(piece, b"}") {
        Kind::CloseBrace
    } else if same(piece, b"<") {
        Kind::Less
    } else {
        Kind::Greater
    }
}
