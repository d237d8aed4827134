//! The places of the grammar, and which tokens may stand at each.

ghost use Rattle.std.specs.Prelude.{◌≡◌};
ghost use Rattle.text_grammar.specs.Places.{fits_at, kinds_at};

use crate::kinds::{Kind, has};

/// A place of a token in a line of the grammar, with a name of its own.
#[derive(Clone, Copy, Drop)]
pub enum Place {
    // files and operations
    OpName,
    ResultName,
    ResultColon,
    ResultNumber,
    ResultComma,
    ResultsEquals,
    TypeAliasName,
    TypeAliasEquals,
    AttrAliasName,
    AttrAliasEquals,
    OperandsOpen,
    OperandsClose,
    SignatureColon,
    SignatureOpen,
    SignatureClose,
    SignatureArrow,
    // operands and successors
    UseName,
    UseNumber,
    UseComma,
    SuccessorsOpen,
    SuccessorName,
    SuccessorComma,
    SuccessorsClose,
    // properties, attributes and their entries
    PropsLess,
    PropsOpen,
    PropsClose,
    PropsGreater,
    DictOpen,
    DictClose,
    EntryName,
    EntryEquals,
    EntryComma,
    // regions and blocks
    RegionsOpen,
    RegionComma,
    RegionsClose,
    RegionOpen,
    RegionClose,
    BlockLabel,
    BlockColon,
    ArgsOpen,
    ArgName,
    ArgColon,
    ArgComma,
    ArgsClose,
    // locations
    LocWord,
    LocOpen,
    LocUnknown,
    LocFile,
    LocLineColon,
    LocLine,
    LocColumnColon,
    LocColumn,
    LocAlias,
    LocClose,
    // types
    IntegerWord,
    TypeAlias,
    LlvmPlain,
    LlvmStruct,
    LlvmArray,
    LlvmFunction,
    InnerPlain,
    InnerStruct,
    InnerArray,
    InnerFunction,
    StructLess,
    StructOpen,
    StructClose,
    StructGreater,
    ArrayLess,
    ArrayNumber,
    ArrayX,
    ArrayGreater,
    LlvmFunctionLess,
    ParametersOpen,
    ParametersClose,
    LlvmFunctionGreater,
    MemrefWord,
    MemrefLess,
    DimensionSize,
    DimensionBy,
    MemrefGreater,
    ElementWord,
    ElementAlias,
    FunctionOpen,
    FunctionClose,
    FunctionArrow,
    TypeComma,
    ResultsOpen,
    ResultsClose,
    // attributes
    TextAttr,
    IntegerNumber,
    IntegerMinus,
    NumberColon,
    BoolWord,
    ItemsOpen,
    ItemComma,
    ItemsClose,
    AttrDictOpen,
    AttrDictClose,
    Symbol,
    DialectName,
    DialectLess,
    DialectWord,
    DialectComma,
    DialectGreater,
    AttrAlias,
    NumbersWord,
    NumbersLess,
    NumbersWidth,
    NumbersColon,
    ListedNumber,
    ListedMinus,
    NumbersComma,
    NumbersGreater,
    // refusals
    DottedType,
    UnsupportedTypeWord,
    UnsupportedInnerWord,
    UnsupportedAttrWord,
    UnsupportedAliasWord,
    RefusedLayout,
    RefusedColons,
}

/// Whether a token of the kind may stand at the place.
pub fn fits(place: Place, kind: Kind) -> bool
    ensures { result ≡ fits_at place kind }
{
    has(kinds_at(place), kind)
}

/// The kinds of the tokens that may stand at the place.
fn kinds_at(place: Place) -> &'static [Kind]
    ensures { result.now ≡ kinds_at place }
{
    match place {
        Place::OpName | Place::LocFile | Place::TextAttr => &[Kind::Text],
        Place::ResultName | Place::UseName | Place::ArgName => &[Kind::Value],
        Place::ResultColon
        | Place::SignatureColon
        | Place::BlockColon
        | Place::ArgColon
        | Place::LocLineColon
        | Place::LocColumnColon
        | Place::NumberColon
        | Place::NumbersColon => &[Kind::Colon],
        Place::ResultNumber
        | Place::LocLine
        | Place::LocColumn
        | Place::ArrayNumber
        | Place::IntegerNumber
        | Place::ListedNumber => &[Kind::Number],
        Place::ResultComma
        | Place::UseComma
        | Place::SuccessorComma
        | Place::EntryComma
        | Place::RegionComma
        | Place::ArgComma
        | Place::TypeComma
        | Place::ItemComma
        | Place::DialectComma
        | Place::NumbersComma
        | Place::RefusedLayout => &[Kind::Comma],
        Place::ResultsEquals
        | Place::TypeAliasEquals
        | Place::AttrAliasEquals
        | Place::EntryEquals => &[Kind::Equals],
        Place::TypeAliasName | Place::TypeAlias | Place::ElementAlias => &[Kind::TypeName],
        Place::AttrAliasName | Place::AttrAlias => &[Kind::HashName, Kind::HashNumber],
        Place::OperandsOpen
        | Place::SignatureOpen
        | Place::RegionsOpen
        | Place::ArgsOpen
        | Place::LocOpen
        | Place::StructOpen
        | Place::ParametersOpen
        | Place::FunctionOpen
        | Place::ResultsOpen => &[Kind::OpenParen],
        Place::OperandsClose
        | Place::SignatureClose
        | Place::RegionsClose
        | Place::ArgsClose
        | Place::LocClose
        | Place::StructClose
        | Place::ParametersClose
        | Place::FunctionClose
        | Place::ResultsClose => &[Kind::CloseParen],
        Place::SignatureArrow | Place::FunctionArrow => &[Kind::Arrow],
        Place::UseNumber => &[Kind::HashNumber],
        Place::SuccessorsOpen | Place::ItemsOpen => &[Kind::OpenSquare],
        Place::SuccessorName | Place::BlockLabel => &[Kind::Label],
        Place::SuccessorsClose | Place::ItemsClose => &[Kind::CloseSquare],
        Place::PropsLess
        | Place::StructLess
        | Place::ArrayLess
        | Place::LlvmFunctionLess
        | Place::MemrefLess
        | Place::DialectLess
        | Place::NumbersLess => &[Kind::Less],
        Place::PropsOpen | Place::DictOpen | Place::RegionOpen | Place::AttrDictOpen => &[
            Kind::OpenBrace,
        ],
        Place::PropsClose | Place::DictClose | Place::RegionClose | Place::AttrDictClose => &[
            Kind::CloseBrace,
        ],
        Place::PropsGreater
        | Place::StructGreater
        | Place::ArrayGreater
        | Place::LlvmFunctionGreater
        | Place::MemrefGreater
        | Place::DialectGreater
        | Place::NumbersGreater => &[Kind::Greater],
        Place::EntryName => &[
            Kind::Text,
            Kind::WordX,
            Kind::WordLoc,
            Kind::WordUnknown,
            Kind::WordBool,
            Kind::WordWidth,
            Kind::WordInteger,
            Kind::WordMemref,
            Kind::WordArray,
            Kind::WordPlain,
            Kind::WordStruct,
            Kind::WordFunction,
            Kind::Word,
        ],
        Place::LocWord => &[Kind::WordLoc],
        Place::LocUnknown => &[Kind::WordUnknown],
        Place::LocAlias => &[Kind::HashName, Kind::HashNumber, Kind::HashDotted],
        Place::IntegerWord | Place::ElementWord => &[Kind::WordWidth, Kind::WordInteger],
        Place::LlvmPlain => &[Kind::TypePlain],
        Place::LlvmStruct => &[Kind::TypeStruct],
        Place::LlvmArray => &[Kind::TypeArray],
        Place::LlvmFunction => &[Kind::TypeFunction],
        Place::InnerPlain => &[Kind::WordPlain],
        Place::InnerStruct => &[Kind::WordStruct],
        Place::InnerArray | Place::NumbersWord => &[Kind::WordArray],
        Place::InnerFunction => &[Kind::WordFunction],
        Place::ArrayX => &[Kind::WordX],
        Place::MemrefWord => &[Kind::WordMemref],
        Place::DimensionSize => &[Kind::Dimension],
        Place::DimensionBy => &[Kind::DimensionX],
        Place::IntegerMinus | Place::ListedMinus => &[Kind::Minus],
        Place::BoolWord => &[Kind::WordBool],
        Place::Symbol => &[Kind::SymbolName],
        Place::DialectName => &[Kind::HashDotted],
        Place::DialectWord => &[
            Kind::WordX,
            Kind::WordLoc,
            Kind::WordUnknown,
            Kind::WordBool,
            Kind::WordWidth,
            Kind::WordInteger,
            Kind::WordMemref,
            Kind::WordArray,
            Kind::WordPlain,
            Kind::WordStruct,
            Kind::WordFunction,
            Kind::Word,
        ],
        Place::NumbersWidth => &[Kind::WordWidth],
        Place::DottedType => &[Kind::TypeDotted],
        Place::UnsupportedTypeWord => &[
            Kind::WordX,
            Kind::WordLoc,
            Kind::WordUnknown,
            Kind::WordBool,
            Kind::WordArray,
            Kind::WordPlain,
            Kind::WordStruct,
            Kind::WordFunction,
            Kind::Word,
        ],
        Place::UnsupportedInnerWord => &[
            Kind::WordX,
            Kind::WordLoc,
            Kind::WordUnknown,
            Kind::WordBool,
            Kind::Word,
        ],
        Place::UnsupportedAttrWord => &[
            Kind::WordX,
            Kind::WordLoc,
            Kind::WordUnknown,
            Kind::WordPlain,
            Kind::WordStruct,
            Kind::WordFunction,
            Kind::Word,
        ],
        Place::UnsupportedAliasWord => &[
            Kind::WordX,
            Kind::WordUnknown,
            Kind::WordPlain,
            Kind::WordStruct,
            Kind::WordFunction,
            Kind::Word,
        ],
        Place::RefusedColons => &[Kind::DoubleColon],
    }
}
