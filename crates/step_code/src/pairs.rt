//! Operations of two integers, and branches that hand over no values: of their operands no list is made.

ghost use Rattle.std.specs.Prelude.{◌≡◌, ℕ, ⊤, true, List, [], ◌∷◌, Some, MatchOption, if◌then◌else◌};
ghost use Rattle.std.specs.Option.{option_copied, option_map};
ghost use Rattle.number_model.specs.Answers.{with_answer};
ghost use Rattle.operation_model.specs.Doings as doings;
ghost use Rattle.operation_model.specs.Forms as forms;
ghost use Rattle.operation_model.specs.Pures as pures;
ghost use Rattle.form_model.specs.Codes.{Env, lookups};
ghost use Rattle.value_code.specs.Models.{integer_of, looked_of, value_of};
ghost use Rattle.run_code.specs.Views.{form_of, pure_of};
ghost use Rattle.table_code.specs.Agreement.{Agrees, value_at};
ghost use Rattle.step_code.specs.Turns.{Paired};

use run_code::{Form, Operation, Pure};
use sqlite_items::at;
use table_code::Table;
use value_code::{Looked, Value, compared, truth, two_numbers};

/// Two operands where they stand.
#[derive(Clone, Copy)]
struct Two<'a> {
    first: &'a Value,
    second: &'a Value,
}

/// The value of a number.
fn value_in(table: &Table, n: u32) -> Option<&Value>
    ensures { option_map value_of (option_copied result) ≡ value_at n table.now }
{
    match at(table.as_slice(), n as usize) {
        Some(Some(v)) => Some(v),
        _ => None,
    }
}

/// The values of two numbers. None where they aren't two or one has none.
fn two_values<'a>(table: &'a Table, ids: &[u32]) -> Option<Two<'a>>
    ensures { MatchOption result ⊤ (λ t. (env : Env) → Agrees table.now env → Some (value_of t.first.now ∷ value_of t.second.now ∷ []) ≡ lookups ids.now env) }
{
    match ids {
        [a, b] => match value_in(table, *a) {
            Some(first) => match value_in(table, *b) {
                Some(second) => Some(Two { first, second }),
                None => None,
            },
            None => None,
        },
        _ => None,
    }
}

/// What an operation of two integers gives. None for another one.
fn given_by(p: &Pure, t: Two<'_>) -> Option<Looked<u64>>
    ensures { MatchOption result ⊤ (λ l. integer_of l ≡ pures.gives (pure_of p.now) (value_of t.entry.first.now ∷ value_of t.entry.second.now ∷ [])) }
{
    match p {
        Pure::TwoNumbers(o, w) => Some(two_numbers(*o, w.bits, t.first, t.second)),
        Pure::Compares(c, w) => Some(compared(*c, w.bits, t.first, t.second)),
        _ => None,
    }
}

/// What an operation of two integers gives. None for another one.
pub fn pair_gives(table: &Table, op: &Operation) -> Option<Looked<u64>>
    ensures { MatchOption result ⊤ (λ l. (env : Env) → Agrees table.now env → Paired (doings.on (integer_of l) doings.Ends) op.now env) }
{
    match &op.form {
        Form::Computes(p) => match two_values(table, op.operands.as_slice()) {
            Some(t) => given_by(p, t),
            None => None,
        },
        _ => None,
    }
}

/// The value of the one number. None where it isn't one or has none.
fn one_value<'a>(table: &'a Table, ids: &[u32]) -> Option<&'a Value>
    ensures { MatchOption result ⊤ (λ r. (env : Env) → Agrees table.now env → Some (value_of r.now ∷ []) ≡ lookups ids.now env) }
{
    match ids {
        [n] => value_in(table, *n),
        _ => None,
    }
}

/// The two labels. None where they aren't two.
fn two_labels(labels: &[u32]) -> Option<(u32, u32)>
    ensures { MatchOption result ⊤ (λ two. labels.now ≡ two.0 ∷ two.1 ∷ []) }
{
    match labels {
        [first, second] => Some((*first, *second)),
        _ => None,
    }
}

/// The first or the second label, by a condition.
fn chosen(c: &Value, two: (u32, u32)) -> Looked<u32>
    ensures { looked_of result ≡ with_answer (λ holds. if holds then two.0 else two.1) (pures.truth (value_of c.now)) }
{
    match truth(c) {
        Looked::Gives(holds) => Looked::Gives(if holds { two.0 } else { two.1 }),
        Looked::Undefined => Looked::Undefined,
        Looked::Outside => Looked::Outside,
    }
}

/// Whether it is a branch by a condition that hands over no values.
fn is_bare(form: &Form) -> bool
    ensures { result ≡ true → form_of form.now ≡ forms.BranchOn 0 0 }
{
    match form {
        Form::BranchOn(a, b) => *a == 0 && *b == 0,
        _ => false,
    }
}

/// The label to which a branch by a condition goes that hands over no values. None for another operation.
pub fn branch_to(table: &Table, op: &Operation) -> Option<Looked<u32>>
    ensures { MatchOption result ⊤ (λ l. (env : Env) → Agrees table.now env → Paired (doings.on (looked_of l) (λ n. doings.Jumps n [])) op.now env) }
{
    if is_bare(&op.form) {
        match two_labels(op.successors.as_slice()) {
            Some(two) => match one_value(table, op.operands.as_slice()) {
                Some(c) => Some(chosen(c, two)),
                None => None,
            },
            None => None,
        }
    } else {
        None
    }
}
