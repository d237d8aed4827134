//! The lines of the last shapes: operations of one shape share what they become.

ghost use Rattle.std.specs.Prelude.{◌≡◌, IfOk, IfSome, OnOk};
ghost use Rattle.plain_tree.specs.Ops.{plain_op};
ghost use Rattle.conversion_model.specs.Targets.{demanded, shape_of as shape_in};
ghost use Rattle.conversion_target.specs.Targets.{target_of};
ghost use Rattle.row_code.specs.Shapes.{shape_of};
ghost use Rattle.value_types.specs.Views.{type_at};
ghost use Rattle.choice_code.specs.Plain.{plain_template};
ghost use Rattle.unit_views.specs.Modes.{mode_of};
ghost use Rattle.unit_choices.specs.Memos.{Becomes, LineOf, Remembers};
ghost use Rattle.unit_choices.specs.Orders.{InOrder};

use crate::fitting::fits;
use choice_code::{Pass, row_leaves};
use conversion_model::TemplateTree;
use row_code::{Rows, ShapeTree};
use std::alloc::Global;
use std::rc::Rc;
use tree_model::{NoMemory, OpTree};
use unit_views::Mode;
use value_types::ValueTypes;

/// A shape, and what each operation of that shape becomes.
#[derive(Drop)]
pub struct ShapeLine {
    pub shape: ShapeTree,
    pub line: Rc<TemplateTree>,
}

// So many shapes are remembered: each operation is compared with all of them.
const ROOM: usize = 64;

/// What an operation becomes, where it has a shape that is remembered.
pub fn remembered<'m, R: Rows>(
    pass: &Pass<'_, R>,
    mode: Mode,
    types: &ValueTypes<'_>,
    op: &OpTree,
    memo: &'m [ShapeLine],
) -> Option<&'m Rc<TemplateTree>>
    requires { Remembers pass.now.bits (target_of pass.now.target.now) (R.table pass.now.set.now) (mode_of mode) memo.now }
    ensures { IfSome result (λ line. LineOf pass.now.bits (target_of pass.now.target.now) (R.table pass.now.set.now) (mode_of mode) (shape_in (type_at types.now) (plain_op op.now)) (plain_template line.now.value)) }
{
    let _pass = pass;
    let _mode = mode;
    'each: for known in memo {
        if fits(types, op, &known.shape) {
            return Some(&known.line);
        }
    }
    None
}

/// What each operation of a shape becomes, where the first pattern gives a line: then nothing else of an operation is looked at.
pub fn shape_line<R: Rows>(
    alloc: Global,
    pass: &Pass<'_, R>,
    shape: &ShapeTree,
) -> Result<Option<TemplateTree>, NoMemory>
    requires { InOrder pass.now.graph.now (target_of pass.now.target.now) (R.table pass.now.set.now) }
    ensures { IfOk result (λ l. IfSome l (λ line. Becomes pass.now.bits (target_of pass.now.target.now) (R.table pass.now.set.now) (shape_of shape.now) (plain_template line))) }
{
    if pass.target.is_legal(shape) {
        return Ok(None);
    }
    let [place, ..] = pass.graph.order(&shape.name) else {
        return Ok(None);
    };
    let line = row_leaves(alloc, pass, *place, shape)?;
    Ok(line)
}

/// A shape is remembered with its line. Where there is no room, all others are forgotten.
pub fn remember<R: Rows>(
    pass: &Pass<'_, R>,
    mode: Mode,
    shape: ShapeTree,
    line: Rc<TemplateTree>,
    memo: &mut Vec<ShapeLine>,
) -> Result<(), NoMemory>
    requires memo { Remembers pass.now.bits (target_of pass.now.target.now) (R.table pass.now.set.now) (mode_of mode) memo.old.items }
    requires line { LineOf pass.now.bits (target_of pass.now.target.now) (R.table pass.now.set.now) (mode_of mode) (shape_of shape) (plain_template line.value) }
    ensures { OnOk result (Remembers pass.now.bits (target_of pass.now.target.now) (R.table pass.now.set.now) (mode_of mode) memo.new.items) }
{
    let _pass = pass;
    let _mode = mode;
    if memo.len() < ROOM {
        memo.push(ShapeLine { shape, line })?;
        return Ok(());
    }
    memo.clear();
    memo.push(ShapeLine { shape, line })?;
    Ok(())
}
