//! The form of each operation.
#![tactic(auto, using(crate::proofs::FormLemmas::forms), unfolding(form_model::specs::Classes::form_of))]

ghost use Rattle.std.specs.Prelude.{◌≡◌, IfOk};
ghost use Rattle.std.specs.Option.{option_map};
ghost use Rattle.run_code.specs.Views.{form_of as stands_for_form};
ghost use Rattle.form_model.specs.Classes as model;
ghost use Rattle.form_model.specs.Properties.{if_some};
ghost use Rattle.form_code.specs.ClassViews.{class_view, plain_form};
ghost use Rattle.form_code.specs.SeenViews.{seen_view};

use crate::classes::{Class, Plain, class_of};
use crate::flow::flow_form;
use crate::memory::memory_form;
use crate::numeric::numeric_form;
use crate::seen::Seen;
use run_code::{Form, Packing, Pure};
use std::alloc::Global;
use tree_model::{Name, NoMemory};

/// A form that the name alone tells.
fn always(plain: Plain) -> Form
    ensures { stands_for_form result ≡ plain_form plain }
{
    match plain {
        Plain::Select => Form::Computes(Pure::Selects),
        Plain::Branch => Form::Branch,
        Plain::ReturnBare => Form::Return(Packing::Bare),
        Plain::EndMemref => Form::EndMemref,
        Plain::If => Form::If,
        Plain::While => Form::While,
        Plain::Execute => Form::Execute,
        Plain::Yield => Form::Yield,
        Plain::Condition => Form::Condition,
    }
}

/// The form that a class tells, where it tells one.
fn told(alloc: Global, class: Class, seen: &Seen<'_>) -> Result<Option<Form>, NoMemory>
    ensures { IfOk result (λ f. option_map stands_for_form f ≡ if_some (class_view class) (λ c. c (seen_view seen.now))) }
{
    match class {
        Class::Nothing => Ok(None),
        Class::Always(plain) => Ok(Some(always(plain))),
        Class::Numbers(numeric) => Ok(numeric_form(numeric, seen)),
        Class::Flow(flow) => flow_form(alloc, flow, seen),
        Class::Memory(memory) => memory_form(alloc, memory, seen),
    }
}

/// The form of the operation of this name. One without a meaning has the form `Unknown`.
pub fn form_of(alloc: Global, name: &Name, seen: &Seen<'_>) -> Result<Form, NoMemory>
    ensures { IfOk result (λ f. stands_for_form f ≡ model.form_of name.now (seen_view seen.now)) }
{
    match told(alloc, class_of(name), seen)? {
        Some(form) => Ok(form),
        None => Ok(Form::Unknown),
    }
}
