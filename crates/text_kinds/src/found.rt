//! The refusals of a text, and which of them is answered.

ghost use Rattle.std.specs.Prelude.{◌≡◌};
ghost use Rattle.text_kinds.specs.Kinds.{FindsLeast, is_sooner, least, least_of, rank, sooner};

/// The kinds of refusals, in the order that decides at one place.
#[derive(Clone, Copy, Drop)]
pub enum Kind {
    BadByte,
    OpenString,
    BadEscape,
    LongNumber,
    Expected,
    ModuleShape,
    UnknownOperation,
    RedefinedValue,
    RedefinedBlock,
    RedefinedAlias,
    UnknownAlias,
    UnsupportedType,
    UnsupportedAttr,
    IntegerRange,
    DuplicateAttr,
    TypeCount,
    UseType,
    ResultIndex,
    UndefinedValue,
    UndefinedBlock,
    RegionDepth,
    TypeDepth,
    AttrDepth,
    Parts,
    Functions,
    Blocks,
    Operands,
    Operations,
    ShardFull,
}

/// A refusal, and its place.
#[derive(Clone, Copy, Drop)]
pub struct Found {
    pub place: usize,
    pub kind: Kind,
}

fn rank(kind: Kind) -> u8
    ensures { result ≡ rank kind }
{
    kind as u8
}

/// Whether the one comes before the other, or they are the same.
fn is_sooner(one: Found, other: Found) -> bool
    ensures { result ≡ is_sooner one other }
{
    if one.place == other.place {
        rank(one.kind) <= rank(other.kind)
    } else {
        one.place < other.place
    }
}

fn sooner(one: Option<Found>, other: Option<Found>) -> Option<Found>
    ensures { result ≡ sooner one other }
{
    match (one, other) {
        (Some(a), Some(b)) => { if is_sooner(a, b) { Some(a) } else { Some(b) } }
        (Some(a), None) => Some(a),
        (None, b) => b,
    }
}

/// The first of them by its place, and at one place by its kind; `uses` are those that stand only where no other does.
pub fn least(others: &[Option<Found>], uses: &[Option<Found>]) -> Option<Found>
    ensures { result ≡ least others.now uses.now }
{
    match least_of(others) {
        Some(found) => Some(found),
        None => least_of(uses),
    }
}

fn least_of(all: &[Option<Found>]) -> Option<Found>
    ensures { result ≡ least_of all.now }
{
    let mut first = None;
    for one in all {
        first = sooner(first, *one);
    }
    first
}

/// What is answered is one of those that were found, and none comes before it.
pub fn law_least()
    ensures { FindsLeast }
{}
