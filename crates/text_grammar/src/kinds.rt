//! The kinds of tokens of the generic text.

ghost use Rattle.std.specs.Prelude.{◌≡◌};
ghost use Rattle.std.specs.List.{list_any};
ghost use Rattle.text_grammar.specs.Kinds.{number, is_kind};

/// The kind of a token, by its bytes alone; only dimensions depend on the tokens before them.
#[derive(Clone, Copy, Drop)]
pub enum Kind {
    /// `%` and a suffix.
    Value,
    /// `^` and a suffix.
    Label,
    /// `@` and a suffix or a string.
    SymbolName,
    /// A string.
    Text,
    /// Digits, or `0x` and hexadecimal digits.
    Number,
    /// `#` and a name without a dot.
    HashName,
    /// `#` and digits.
    HashNumber,
    /// `#` and a name with a dot.
    HashDotted,
    /// `!` and a name without a dot.
    TypeName,
    /// `!llvm.ptr` or `!llvm.void`.
    TypePlain,
    /// `!llvm.struct`.
    TypeStruct,
    /// `!llvm.array`.
    TypeArray,
    /// `!llvm.func`.
    TypeFunction,
    /// `!` and another name with a dot.
    TypeDotted,
    /// `x`.
    WordX,
    /// `loc`.
    WordLoc,
    /// `unknown`.
    WordUnknown,
    /// `true` or `false`.
    WordBool,
    /// `i8`, `i16`, `i32` or `i64`.
    WordWidth,
    /// Another `iN` with N from 1 to 64, or `index`.
    WordInteger,
    /// `memref`.
    WordMemref,
    /// `array`.
    WordArray,
    /// `ptr` or `void`.
    WordPlain,
    /// `struct`.
    WordStruct,
    /// `func`.
    WordFunction,
    /// Another bare identifier.
    Word,
    /// A dimension of a memref: digits or `?`.
    Dimension,
    /// The `x` behind a dimension.
    DimensionX,
    /// `(`.
    OpenParen,
    /// `)`.
    CloseParen,
    /// `[`.
    OpenSquare,
    /// `]`.
    CloseSquare,
    /// `{`.
    OpenBrace,
    /// `}`.
    CloseBrace,
    /// `<`.
    Less,
    /// `>`.
    Greater,
    /// `,`.
    Comma,
    /// `:`.
    Colon,
    /// `=`.
    Equals,
    /// `?`.
    Question,
    /// `-`.
    Minus,
    /// `->`.
    Arrow,
    /// `::`.
    DoubleColon,
}

fn code(kind: Kind) -> u8
    ensures { result ≡ number kind }
{
    kind as u8
}

/// Whether the kind is one of these.
pub fn has(kinds: &[Kind], kind: Kind) -> bool
    ensures { result ≡ list_any (is_kind kind) kinds.now }
{
    let wanted = code(kind);
    kinds.iter().any(|one| wanted == code(*one))
}
