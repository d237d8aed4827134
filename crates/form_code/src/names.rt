//! The names of properties and words that forms are told by.
#![tactic(auto, unfolding(tree_model::specs::Known::known_text, tree_model::specs::Known::known))]

ghost use Rattle.std.specs.Prelude.{◌≡◌, codes};

use tree_model::Name;

pub(crate) fn callee() -> Name
    ensures { result ≡ codes "callee" }
{
    Name::known(84)
}

pub(crate) fn value() -> Name
    ensures { result ≡ codes "value" }
{
    Name::known(85)
}

pub(crate) fn overflow_flags() -> Name
    ensures { result ≡ codes "overflowFlags" }
{
    Name::known(86)
}

pub(crate) fn predicate() -> Name
    ensures { result ≡ codes "predicate" }
{
    Name::known(87)
}

pub(crate) fn segment_sizes() -> Name
    ensures { result ≡ codes "operandSegmentSizes" }
{
    Name::known(88)
}

pub(crate) fn cases() -> Name
    ensures { result ≡ codes "cases" }
{
    Name::known(89)
}

pub(crate) fn alignment() -> Name
    ensures { result ≡ codes "alignment" }
{
    Name::known(91)
}

pub(crate) fn position() -> Name
    ensures { result ≡ codes "position" }
{
    Name::known(94)
}

pub(crate) fn element_type() -> Name
    ensures { result ≡ codes "elem_type" }
{
    Name::known(95)
}

pub(crate) fn no_signed_wrap() -> Name
    ensures { result ≡ codes "nsw" }
{
    Name::known(102)
}

pub(crate) fn no_unsigned_wrap() -> Name
    ensures { result ≡ codes "nuw" }
{
    Name::known(103)
}
