//! The next node of a list.

ghost use Rattle.std.specs.Prelude.{◌≡◌, ◌<◌, ◌≤◌, ℕ, IfSome, IfNone, length};
ghost use Rattle.term_table.specs.Terms.{Term, made_of, node, term_at};

use term_table::{Form, Node, Terms};

/// The node of a number, where it has this form.
pub fn item(terms: &Terms, number: u32, form: Form) -> Option<Node>
    requires { number ≤ length terms.now.nodes.keys }
    ensures some { IfSome result (λ n. term_at terms.now.nodes.keys number ≡ made_of terms.now.nodes.keys n) }
    ensures form { IfSome result (λ n. n.form ≡ form) }
    ensures parts { IfSome result (λ n. (n.left < number) × (n.right < number)) }
    ensures none { IfNone result ((value : ℕ) (left right : Term) → term_at terms.now.nodes.keys number ≡ node form value left right → ⊥) }
{
    let Some(node) = terms.get(number) else {
        return None;
    };
    if node.form == form { Some(node) } else { None }
}
