//! The soonest of rules that are broken.

ghost use Rattle.std.specs.Prelude.{◌≡◌};
ghost use Rattle.ir_verifier.specs.Sooner.{at_place, sooner};

use rule_model::Rule;

/// A rule at the operation with this number.
pub fn at_place(rule: Rule, number: Option<usize>) -> Option<(usize, Rule)>
    ensures { result ≡ at_place rule number }
{
    match number {
        Some(number) => Some((number, rule)),
        None => None,
    }
}

/// The one of two that is broken at the operation in front; at one operation the first of the two.
pub fn sooner(a: Option<(usize, Rule)>, b: Option<(usize, Rule)>) -> Option<(usize, Rule)>
    ensures { result ≡ sooner a b }
{
    match (a, b) {
        (Some(a), Some(b)) => { if b.0 < a.0 { Some(b) } else { Some(a) } }
        (Some(a), None) => Some(a),
        (None, b) => b,
    }
}
