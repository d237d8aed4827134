//! The stack of the numbers of terms, the first one last.

ghost use Rattle.std.specs.Prelude.{◌≡◌, ◌≤◌, ◌∷◌, IfOk, OnOk, length, map, reverse};
ghost use Rattle.term_table.specs.Terms.{Grows, made_of, term_at};
ghost use Rattle.text_types.specs.Items.{acted, acted_both, joined, wrapped};
ghost use Rattle.text_types.specs.Stack.{Stands, Within};

use crate::action::{Action, Actions};
use std::alloc::AllocError;
use term_table::{Form, Node, Terms};

/// Puts a node on the stack.
fn put(terms: &mut Terms, stack: &mut Vec<u32>, node: Node) -> Result<(), AllocError>
    requires left { node.left ≤ length terms.old.nodes.keys }
    requires right { node.right ≤ length terms.old.nodes.keys }
    requires stack { Within (length terms.old.nodes.keys) (reverse stack.old.items) }
    ensures grows { Grows terms.old.nodes.keys terms.new.nodes.keys }
    ensures stands { OnOk result (Stands terms.new.nodes.keys (reverse stack.new.items) (made_of terms.old.nodes.keys node ∷ map (term_at terms.old.nodes.keys) (reverse stack.old.items))) }
{
    let number = terms.put(node)?;
    stack.push(number)?;
    Ok(())
}

/// The first term becomes the part of a node.
fn wrap(terms: &mut Terms, stack: &mut Vec<u32>, form: Form, value: u64) -> Result<(), AllocError>
    requires { Within (length terms.old.nodes.keys) (reverse stack.old.items) }
    ensures grows { Grows terms.old.nodes.keys terms.new.nodes.keys }
    ensures stands { OnOk result (Stands terms.new.nodes.keys (reverse stack.new.items) (wrapped form value (map (term_at terms.old.nodes.keys) (reverse stack.old.items)))) }
{
    let Some(left) = stack.pop() else {
        return Ok(());
    };
    put(
        terms,
        stack,
        Node {
            form,
            value,
            left,
            right: 0,
        },
    )
}

/// The first two terms become the parts of a node.
fn join(terms: &mut Terms, stack: &mut Vec<u32>, form: Form, value: u64) -> Result<(), AllocError>
    requires { Within (length terms.old.nodes.keys) (reverse stack.old.items) }
    ensures grows { Grows terms.old.nodes.keys terms.new.nodes.keys }
    ensures stands { OnOk result (Stands terms.new.nodes.keys (reverse stack.new.items) (joined form value (map (term_at terms.old.nodes.keys) (reverse stack.old.items)))) }
{
    let Some(left) = stack.pop() else {
        return Ok(());
    };
    let Some(right) = stack.pop() else {
        return Ok(());
    };
    put(
        terms,
        stack,
        Node {
            form,
            value,
            left,
            right,
        },
    )
}

/// Does this to the terms on the stack, where the alias of the event has this number.
#[inline(always)]
pub fn act(
    terms: &mut Terms,
    stack: &mut Vec<u32>,
    action: Action,
    alias: u32,
) -> Result<(), AllocError>
    requires alias { alias ≤ length terms.old.nodes.keys }
    requires stack { Within (length terms.old.nodes.keys) (reverse stack.old.items) }
    ensures grows { Grows terms.old.nodes.keys terms.new.nodes.keys }
    ensures stands { OnOk result (Stands terms.new.nodes.keys (reverse stack.new.items) (acted (term_at terms.old.nodes.keys alias) action (map (term_at terms.old.nodes.keys) (reverse stack.old.items)))) }
{
    match action {
        Action::Keep => Ok(()),
        Action::End => {
            stack.push(0)?;
            Ok(())
        }
        Action::Alias => {
            stack.push(alias)?;
            Ok(())
        }
        Action::Put(form, value) => put(
            terms,
            stack,
            Node {
                form,
                value,
                left: 0,
                right: 0,
            },
        ),
        Action::Wrap(form, value) => wrap(terms, stack, form, value),
        Action::Join(form, value) => join(terms, stack, form, value),
    }
}

/// Does both actions of an event.
pub fn act_both(
    terms: &mut Terms,
    stack: &mut Vec<u32>,
    actions: Actions,
    alias: u32,
) -> Result<(), AllocError>
    requires alias { alias ≤ length terms.old.nodes.keys }
    requires stack { Within (length terms.old.nodes.keys) (reverse stack.old.items) }
    ensures grows { Grows terms.old.nodes.keys terms.new.nodes.keys }
    ensures stands { OnOk result (Stands terms.new.nodes.keys (reverse stack.new.items) (acted_both (term_at terms.old.nodes.keys alias) actions (map (term_at terms.old.nodes.keys) (reverse stack.old.items)))) }
{
    act(terms, stack, actions.first, alias)?;
    act(terms, stack, actions.second, alias)
}
