//! The machine: a stack of what is wanted, with what comes next at its end.

ghost use Rattle.std.specs.Prelude.{◌≡◌, ◌++◌, IfOk, map, option_map, reverse};
ghost use Rattle.line_grammar.specs.Machine.{ends, line_for, next};
ghost use Rattle.text_grammar.specs.Steps.{Takes};
ghost use Rattle.text_grammar.specs.Table.{generic, seen};

use crate::kinds::Kind;
use crate::parts::{Row, Wanted, lines, may_be_left_out};
use crate::places::{Place, fits};
use line_grammar::Symbol;
use std::alloc::AllocError;

/// The first row that begins with the kind.
fn find(rows: &[Row], kind: Kind) -> Option<Row>
    ensures { option_map seen result ≡ line_for generic kind (map seen rows.now) }
{
    for row in rows {
        if fits(row.place, kind) {
            return Some(*row);
        }
    }
    None
}

/// Puts what stands behind a token on the stack, its first symbol last.
fn want(stack: &mut Vec<Wanted>, rest: &[Wanted]) -> Result<(), AllocError>
    ensures { IfOk result (λ u. reverse stack.new.items ≡ rest.now ++ reverse stack.old.items) }
{
    for symbol in rest.iter().rev() {
        stack.push(*symbol)?;
    }
    Ok(())
}

/// The place at which a token of the kind is taken, if it is.
#[tactic(auto, unfolding(line_grammar::specs::Machine::next))]
pub fn take(stack: &mut Vec<Wanted>, kind: Kind) -> Result<Option<Place>, AllocError>
    ensures { IfOk result (λ o. Takes o (reverse stack.new.items) (next generic (reverse stack.old.items) kind)) }
{
    while let Some(symbol) = stack.pop() {
        match symbol {
            Symbol::At(place) => {
                return Ok(if fits(place, kind) { Some(place) } else { None });
            }
            Symbol::Part(part) => match find(lines(part), kind) {
                Some(row) => {
                    want(stack, row.rest)?;
                    return Ok(Some(row.place));
                }
                None => {
                    if !may_be_left_out(part) {
                        return Ok(None);
                    }
                }
            },
        }
    }
    Ok(None)
}

/// Whether all that is wanted may be left out.
pub fn ends_here(stack: &[Wanted]) -> bool
    ensures { result ≡ ends generic (reverse stack.now) }
{
    for symbol in stack.iter().rev() {
        match symbol {
            Symbol::At(_) => return false,
            Symbol::Part(part) => {
                if !may_be_left_out(*part) {
                    return false;
                }
            }
        }
    }
    true
}
