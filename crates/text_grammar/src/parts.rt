//! The parts of the grammar, and the lines of each.

ghost use Rattle.std.specs.Prelude.{◌≡◌, map};
ghost use Rattle.text_grammar.specs.Table.{empty_at, lines_of, seen};

use crate::places::Place;
use line_grammar::Symbol;

/// A part of the grammar.
#[derive(Clone, Copy, Drop)]
pub enum Part {
    File,
    ResultCount,
    MoreResults,
    OpBody,
    Uses,
    MoreUses,
    UseIndex,
    Successors,
    MoreSuccessors,
    Props,
    Dict,
    Regions,
    MoreRegions,
    Region,
    Ops,
    Blocks,
    BlockArgs,
    MoreArgs,
    Entries,
    MoreEntries,
    EntryValue,
    Loc,
    LocBody,
    OneType,
    Types,
    MoreTypes,
    Results,
    AfterResults,
    InnerType,
    InnerTypes,
    MoreInnerTypes,
    InnerResults,
    AfterInnerResults,
    Dimensions,
    MemrefEnd,
    IntegerType,
    InnerIntegerType,
    Attr,
    Items,
    MoreItems,
    AliasValue,
    NumberType,
    SymbolEnd,
    DialectWords,
    MoreWords,
    Numbers,
    MoreNumbers,
    ListNumber,
}

/// What is wanted: a token at a place, or a part.
pub type Wanted = Symbol<Place, Part>;

/// A line: the place of its first token, and what stands behind it.
#[derive(Clone, Copy, Drop)]
pub struct Row {
    pub place: Place,
    pub rest: &'static [Wanted],
}

macro_rules! symbol {
    (at $name:ident) => {
        Symbol::At(Place::$name)
    };
    (part $name:ident) => {
        Symbol::Part(Part::$name)
    };
}

macro_rules! row {
    ($first:ident $(, $form:ident $name:ident)*) => {
        Row { place: Place::$first, rest: &[$(symbol!($form $name)),*] }
    };
}

static FILE: [Row; 4] = [
    row!(OpName, part OpBody, part File),
    row!(ResultName, part ResultCount, part MoreResults, at OpName, part OpBody, part File),
    row!(TypeAliasName, at TypeAliasEquals, part OneType, part File),
    row!(AttrAliasName, at AttrAliasEquals, part AliasValue, part File),
];

static RESULT_COUNT: [Row; 1] = [row!(ResultColon, at ResultNumber)];

static MORE_RESULTS: [Row; 2] = [
    row!(ResultsEquals),
    row!(ResultComma, at ResultName, part ResultCount, part MoreResults),
];

static OP_BODY: [Row; 1] = [
    row!(OperandsOpen, part Uses, at OperandsClose, part Successors, part Props, part Regions, part Dict, at SignatureColon, at SignatureOpen, part Types, at SignatureClose, at SignatureArrow, part Results, part Loc),
];

static USES: [Row; 1] = [row!(UseName, part UseIndex, part MoreUses)];

static MORE_USES: [Row; 1] = [row!(UseComma, at UseName, part UseIndex, part MoreUses)];

static USE_INDEX: [Row; 1] = [row!(UseNumber)];

static SUCCESSORS: [Row; 1] = [
    row!(SuccessorsOpen, at SuccessorName, part MoreSuccessors, at SuccessorsClose),
];

static MORE_SUCCESSORS: [Row; 1] = [row!(SuccessorComma, at SuccessorName, part MoreSuccessors)];

static PROPS: [Row; 1] = [
    row!(PropsLess, at PropsOpen, part Entries, at PropsClose, at PropsGreater),
];

static DICT: [Row; 1] = [row!(DictOpen, part Entries, at DictClose)];

static REGIONS: [Row; 1] = [row!(RegionsOpen, part Region, part MoreRegions, at RegionsClose)];

static MORE_REGIONS: [Row; 1] = [row!(RegionComma, part Region, part MoreRegions)];

static REGION: [Row; 1] = [row!(RegionOpen, part Ops, part Blocks, at RegionClose)];

static OPS: [Row; 2] = [
    row!(OpName, part OpBody, part Ops),
    row!(ResultName, part ResultCount, part MoreResults, at OpName, part OpBody, part Ops),
];

static BLOCKS: [Row; 1] = [row!(BlockLabel, part BlockArgs, at BlockColon, part Ops, part Blocks)];

static BLOCK_ARGS: [Row; 1] = [
    row!(ArgsOpen, at ArgName, at ArgColon, part OneType, part Loc, part MoreArgs, at ArgsClose),
];

static MORE_ARGS: [Row; 1] = [
    row!(ArgComma, at ArgName, at ArgColon, part OneType, part Loc, part MoreArgs),
];

static ENTRIES: [Row; 1] = [row!(EntryName, part EntryValue, part MoreEntries)];

static MORE_ENTRIES: [Row; 1] = [row!(EntryComma, at EntryName, part EntryValue, part MoreEntries)];

static ENTRY_VALUE: [Row; 1] = [row!(EntryEquals, part Attr)];

static LOC: [Row; 1] = [row!(LocWord, at LocOpen, part LocBody, at LocClose)];

static LOC_BODY: [Row; 3] = [
    row!(LocUnknown),
    row!(LocFile, at LocLineColon, at LocLine, at LocColumnColon, at LocColumn),
    row!(LocAlias),
];

static ONE_TYPE: [Row; 10] = [
    row!(IntegerWord),
    row!(TypeAlias),
    row!(DottedType),
    row!(LlvmPlain),
    row!(LlvmStruct, at StructLess, at StructOpen, part InnerTypes, at StructClose, at StructGreater),
    row!(LlvmArray, at ArrayLess, at ArrayNumber, at ArrayX, part InnerType, at ArrayGreater),
    row!(LlvmFunction, at LlvmFunctionLess, part InnerType, at ParametersOpen, part InnerTypes, at ParametersClose, at LlvmFunctionGreater),
    row!(MemrefWord, at MemrefLess, part Dimensions, part IntegerType, part MemrefEnd),
    row!(UnsupportedTypeWord),
    row!(FunctionOpen, part Types, at FunctionClose, at FunctionArrow, part Results),
];

static TYPES: [Row; 10] = [
    row!(IntegerWord, part MoreTypes),
    row!(TypeAlias, part MoreTypes),
    row!(DottedType, part MoreTypes),
    row!(LlvmPlain, part MoreTypes),
    row!(LlvmStruct, at StructLess, at StructOpen, part InnerTypes, at StructClose, at StructGreater, part MoreTypes),
    row!(LlvmArray, at ArrayLess, at ArrayNumber, at ArrayX, part InnerType, at ArrayGreater, part MoreTypes),
    row!(LlvmFunction, at LlvmFunctionLess, part InnerType, at ParametersOpen, part InnerTypes, at ParametersClose, at LlvmFunctionGreater, part MoreTypes),
    row!(MemrefWord, at MemrefLess, part Dimensions, part IntegerType, part MemrefEnd, part MoreTypes),
    row!(UnsupportedTypeWord, part MoreTypes),
    row!(FunctionOpen, part Types, at FunctionClose, at FunctionArrow, part Results, part MoreTypes),
];

static MORE_TYPES: [Row; 1] = [row!(TypeComma, part OneType, part MoreTypes)];

static RESULTS: [Row; 10] = [
    row!(IntegerWord),
    row!(TypeAlias),
    row!(DottedType),
    row!(LlvmPlain),
    row!(LlvmStruct, at StructLess, at StructOpen, part InnerTypes, at StructClose, at StructGreater),
    row!(LlvmArray, at ArrayLess, at ArrayNumber, at ArrayX, part InnerType, at ArrayGreater),
    row!(LlvmFunction, at LlvmFunctionLess, part InnerType, at ParametersOpen, part InnerTypes, at ParametersClose, at LlvmFunctionGreater),
    row!(MemrefWord, at MemrefLess, part Dimensions, part IntegerType, part MemrefEnd),
    row!(UnsupportedTypeWord),
    row!(ResultsOpen, part Types, at ResultsClose, part AfterResults),
];

static AFTER_RESULTS: [Row; 1] = [row!(FunctionArrow, part Results)];

static INNER_TYPE: [Row; 14] = [
    row!(IntegerWord),
    row!(TypeAlias),
    row!(DottedType),
    row!(LlvmPlain),
    row!(LlvmStruct, at StructLess, at StructOpen, part InnerTypes, at StructClose, at StructGreater),
    row!(LlvmArray, at ArrayLess, at ArrayNumber, at ArrayX, part InnerType, at ArrayGreater),
    row!(LlvmFunction, at LlvmFunctionLess, part InnerType, at ParametersOpen, part InnerTypes, at ParametersClose, at LlvmFunctionGreater),
    row!(MemrefWord, at MemrefLess, part Dimensions, part InnerIntegerType, part MemrefEnd),
    row!(InnerPlain),
    row!(InnerStruct, at StructLess, at StructOpen, part InnerTypes, at StructClose, at StructGreater),
    row!(InnerArray, at ArrayLess, at ArrayNumber, at ArrayX, part InnerType, at ArrayGreater),
    row!(InnerFunction, at LlvmFunctionLess, part InnerType, at ParametersOpen, part InnerTypes, at ParametersClose, at LlvmFunctionGreater),
    row!(UnsupportedInnerWord),
    row!(FunctionOpen, part InnerTypes, at FunctionClose, at FunctionArrow, part InnerResults),
];

static INNER_TYPES: [Row; 14] = [
    row!(IntegerWord, part MoreInnerTypes),
    row!(TypeAlias, part MoreInnerTypes),
    row!(DottedType, part MoreInnerTypes),
    row!(LlvmPlain, part MoreInnerTypes),
    row!(LlvmStruct, at StructLess, at StructOpen, part InnerTypes, at StructClose, at StructGreater, part MoreInnerTypes),
    row!(LlvmArray, at ArrayLess, at ArrayNumber, at ArrayX, part InnerType, at ArrayGreater, part MoreInnerTypes),
    row!(LlvmFunction, at LlvmFunctionLess, part InnerType, at ParametersOpen, part InnerTypes, at ParametersClose, at LlvmFunctionGreater, part MoreInnerTypes),
    row!(MemrefWord, at MemrefLess, part Dimensions, part InnerIntegerType, part MemrefEnd, part MoreInnerTypes),
    row!(InnerPlain, part MoreInnerTypes),
    row!(InnerStruct, at StructLess, at StructOpen, part InnerTypes, at StructClose, at StructGreater, part MoreInnerTypes),
    row!(InnerArray, at ArrayLess, at ArrayNumber, at ArrayX, part InnerType, at ArrayGreater, part MoreInnerTypes),
    row!(InnerFunction, at LlvmFunctionLess, part InnerType, at ParametersOpen, part InnerTypes, at ParametersClose, at LlvmFunctionGreater, part MoreInnerTypes),
    row!(UnsupportedInnerWord, part MoreInnerTypes),
    row!(FunctionOpen, part InnerTypes, at FunctionClose, at FunctionArrow, part InnerResults, part MoreInnerTypes),
];

static MORE_INNER_TYPES: [Row; 1] = [row!(TypeComma, part InnerType, part MoreInnerTypes)];

static INNER_RESULTS: [Row; 14] = [
    row!(IntegerWord),
    row!(TypeAlias),
    row!(DottedType),
    row!(LlvmPlain),
    row!(LlvmStruct, at StructLess, at StructOpen, part InnerTypes, at StructClose, at StructGreater),
    row!(LlvmArray, at ArrayLess, at ArrayNumber, at ArrayX, part InnerType, at ArrayGreater),
    row!(LlvmFunction, at LlvmFunctionLess, part InnerType, at ParametersOpen, part InnerTypes, at ParametersClose, at LlvmFunctionGreater),
    row!(MemrefWord, at MemrefLess, part Dimensions, part InnerIntegerType, part MemrefEnd),
    row!(InnerPlain),
    row!(InnerStruct, at StructLess, at StructOpen, part InnerTypes, at StructClose, at StructGreater),
    row!(InnerArray, at ArrayLess, at ArrayNumber, at ArrayX, part InnerType, at ArrayGreater),
    row!(InnerFunction, at LlvmFunctionLess, part InnerType, at ParametersOpen, part InnerTypes, at ParametersClose, at LlvmFunctionGreater),
    row!(UnsupportedInnerWord),
    row!(ResultsOpen, part InnerTypes, at ResultsClose, part AfterInnerResults),
];

static AFTER_INNER_RESULTS: [Row; 1] = [row!(FunctionArrow, part InnerResults)];

static DIMENSIONS: [Row; 1] = [row!(DimensionSize, at DimensionBy, part Dimensions)];

static MEMREF_END: [Row; 2] = [row!(MemrefGreater), row!(RefusedLayout)];

static INTEGER_TYPE: [Row; 4] = [
    row!(ElementWord),
    row!(ElementAlias),
    row!(DottedType),
    row!(UnsupportedTypeWord),
];

static INNER_INTEGER_TYPE: [Row; 4] = [
    row!(ElementWord),
    row!(ElementAlias),
    row!(DottedType),
    row!(UnsupportedInnerWord),
];

static ATTR: [Row; 20] = [
    row!(TextAttr),
    row!(IntegerNumber, part NumberType),
    row!(IntegerMinus, at IntegerNumber, part NumberType),
    row!(BoolWord),
    row!(ItemsOpen, part Items, at ItemsClose),
    row!(AttrDictOpen, part Entries, at AttrDictClose),
    row!(Symbol, part SymbolEnd),
    row!(DialectName, part DialectWords),
    row!(AttrAlias),
    row!(NumbersWord, at NumbersLess, at NumbersWidth, part Numbers, at NumbersGreater),
    row!(IntegerWord),
    row!(TypeAlias),
    row!(DottedType),
    row!(LlvmPlain),
    row!(LlvmStruct, at StructLess, at StructOpen, part InnerTypes, at StructClose, at StructGreater),
    row!(LlvmArray, at ArrayLess, at ArrayNumber, at ArrayX, part InnerType, at ArrayGreater),
    row!(LlvmFunction, at LlvmFunctionLess, part InnerType, at ParametersOpen, part InnerTypes, at ParametersClose, at LlvmFunctionGreater),
    row!(MemrefWord, at MemrefLess, part Dimensions, part IntegerType, part MemrefEnd),
    row!(FunctionOpen, part Types, at FunctionClose, at FunctionArrow, part Results),
    row!(UnsupportedAttrWord),
];

static ITEMS: [Row; 20] = [
    row!(TextAttr, part MoreItems),
    row!(IntegerNumber, part NumberType, part MoreItems),
    row!(IntegerMinus, at IntegerNumber, part NumberType, part MoreItems),
    row!(BoolWord, part MoreItems),
    row!(ItemsOpen, part Items, at ItemsClose, part MoreItems),
    row!(AttrDictOpen, part Entries, at AttrDictClose, part MoreItems),
    row!(Symbol, part SymbolEnd, part MoreItems),
    row!(DialectName, part DialectWords, part MoreItems),
    row!(AttrAlias, part MoreItems),
    row!(NumbersWord, at NumbersLess, at NumbersWidth, part Numbers, at NumbersGreater, part MoreItems),
    row!(IntegerWord, part MoreItems),
    row!(TypeAlias, part MoreItems),
    row!(DottedType, part MoreItems),
    row!(LlvmPlain, part MoreItems),
    row!(LlvmStruct, at StructLess, at StructOpen, part InnerTypes, at StructClose, at StructGreater, part MoreItems),
    row!(LlvmArray, at ArrayLess, at ArrayNumber, at ArrayX, part InnerType, at ArrayGreater, part MoreItems),
    row!(LlvmFunction, at LlvmFunctionLess, part InnerType, at ParametersOpen, part InnerTypes, at ParametersClose, at LlvmFunctionGreater, part MoreItems),
    row!(MemrefWord, at MemrefLess, part Dimensions, part IntegerType, part MemrefEnd, part MoreItems),
    row!(FunctionOpen, part Types, at FunctionClose, at FunctionArrow, part Results, part MoreItems),
    row!(UnsupportedAttrWord, part MoreItems),
];

static MORE_ITEMS: [Row; 1] = [row!(ItemComma, part Attr, part MoreItems)];

static ALIAS_VALUE: [Row; 21] = [
    row!(TextAttr),
    row!(IntegerNumber, part NumberType),
    row!(IntegerMinus, at IntegerNumber, part NumberType),
    row!(BoolWord),
    row!(ItemsOpen, part Items, at ItemsClose),
    row!(AttrDictOpen, part Entries, at AttrDictClose),
    row!(Symbol, part SymbolEnd),
    row!(DialectName, part DialectWords),
    row!(AttrAlias),
    row!(NumbersWord, at NumbersLess, at NumbersWidth, part Numbers, at NumbersGreater),
    row!(IntegerWord),
    row!(TypeAlias),
    row!(DottedType),
    row!(LlvmPlain),
    row!(LlvmStruct, at StructLess, at StructOpen, part InnerTypes, at StructClose, at StructGreater),
    row!(LlvmArray, at ArrayLess, at ArrayNumber, at ArrayX, part InnerType, at ArrayGreater),
    row!(LlvmFunction, at LlvmFunctionLess, part InnerType, at ParametersOpen, part InnerTypes, at ParametersClose, at LlvmFunctionGreater),
    row!(MemrefWord, at MemrefLess, part Dimensions, part IntegerType, part MemrefEnd),
    row!(FunctionOpen, part Types, at FunctionClose, at FunctionArrow, part Results),
    row!(UnsupportedAliasWord),
    row!(LocWord, at LocOpen, part LocBody, at LocClose),
];

static NUMBER_TYPE: [Row; 1] = [row!(NumberColon, part IntegerType)];

static SYMBOL_END: [Row; 1] = [row!(RefusedColons)];

static DIALECT_WORDS: [Row; 1] = [
    row!(DialectLess, at DialectWord, part MoreWords, at DialectGreater),
];

static MORE_WORDS: [Row; 1] = [row!(DialectComma, at DialectWord, part MoreWords)];

static NUMBERS: [Row; 1] = [row!(NumbersColon, part ListNumber, part MoreNumbers)];

static MORE_NUMBERS: [Row; 1] = [row!(NumbersComma, part ListNumber, part MoreNumbers)];

static LIST_NUMBER: [Row; 2] = [row!(ListedNumber), row!(ListedMinus, at ListedNumber)];

/// The lines of the part.
pub fn lines(part: Part) -> &'static [Row]
    ensures { map seen result.now ≡ lines_of part }
{
    match part {
        Part::File => &FILE,
        Part::ResultCount => &RESULT_COUNT,
        Part::MoreResults => &MORE_RESULTS,
        Part::OpBody => &OP_BODY,
        Part::Uses => &USES,
        Part::MoreUses => &MORE_USES,
        Part::UseIndex => &USE_INDEX,
        Part::Successors => &SUCCESSORS,
        Part::MoreSuccessors => &MORE_SUCCESSORS,
        Part::Props => &PROPS,
        Part::Dict => &DICT,
        Part::Regions => &REGIONS,
        Part::MoreRegions => &MORE_REGIONS,
        Part::Region => &REGION,
        Part::Ops => &OPS,
        Part::Blocks => &BLOCKS,
        Part::BlockArgs => &BLOCK_ARGS,
        Part::MoreArgs => &MORE_ARGS,
        Part::Entries => &ENTRIES,
        Part::MoreEntries => &MORE_ENTRIES,
        Part::EntryValue => &ENTRY_VALUE,
        Part::Loc => &LOC,
        Part::LocBody => &LOC_BODY,
        Part::OneType => &ONE_TYPE,
        Part::Types => &TYPES,
        Part::MoreTypes => &MORE_TYPES,
        Part::Results => &RESULTS,
        Part::AfterResults => &AFTER_RESULTS,
        Part::InnerType => &INNER_TYPE,
        Part::InnerTypes => &INNER_TYPES,
        Part::MoreInnerTypes => &MORE_INNER_TYPES,
        Part::InnerResults => &INNER_RESULTS,
        Part::AfterInnerResults => &AFTER_INNER_RESULTS,
        Part::Dimensions => &DIMENSIONS,
        Part::MemrefEnd => &MEMREF_END,
        Part::IntegerType => &INTEGER_TYPE,
        Part::InnerIntegerType => &INNER_INTEGER_TYPE,
        Part::Attr => &ATTR,
        Part::Items => &ITEMS,
        Part::MoreItems => &MORE_ITEMS,
        Part::AliasValue => &ALIAS_VALUE,
        Part::NumberType => &NUMBER_TYPE,
        Part::SymbolEnd => &SYMBOL_END,
        Part::DialectWords => &DIALECT_WORDS,
        Part::MoreWords => &MORE_WORDS,
        Part::Numbers => &NUMBERS,
        Part::MoreNumbers => &MORE_NUMBERS,
        Part::ListNumber => &LIST_NUMBER,
    }
}

/// Whether the part may be left out.
pub fn may_be_left_out(part: Part) -> bool
    ensures { result ≡ empty_at part }
{
    match part {
        Part::MoreResults
        | Part::OpBody
        | Part::Region
        | Part::LocBody
        | Part::OneType
        | Part::Results
        | Part::InnerType
        | Part::InnerResults
        | Part::MemrefEnd
        | Part::IntegerType
        | Part::InnerIntegerType
        | Part::Attr
        | Part::AliasValue
        | Part::ListNumber => false,
        _ => true,
    }
}
