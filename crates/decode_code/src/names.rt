//! The names of properties of functions.
#![tactic(auto, unfolding(tree_model::specs::Known::known_text, tree_model::specs::Known::known))]

ghost use Rattle.std.specs.Prelude.{◌≡◌, codes};

use tree_model::Name;

pub(crate) fn symbol_name() -> Name
    ensures { result ≡ codes "sym_name" }
{
    Name::known(79)
}

pub(crate) fn function_type() -> Name
    ensures { result ≡ codes "function_type" }
{
    Name::known(81)
}
