//! The chosen derivation.

ghost use Rattle.std.specs.Prelude.{◌≡◌, ◌∷◌, ◌+◌, ℕ, List, None, Option, Some, IfOk, [], length, map, slice_get, if◌then◌else◌};
ghost use Rattle.conversion_model.specs.Chosen.{Ending, Ranked, by_template as by_row_template, change_of, chosen as chosen_leaves, order, products as all_products};
ghost use Rattle.conversion_target.specs.Targets.{target_of};
ghost use Rattle.legal_graph.specs.Graphs.{order_in_graph};
ghost use Rattle.choice_code.specs.Choosing.{by_place, by_places, chosen_by};
ghost use Rattle.choice_code.specs.Drafts.{behind, done_of, going_on, one_product, state_of};
ghost use Rattle.choice_code.specs.Infos.{converted_in};
ghost use Rattle.choice_code.specs.Plain.{plain_or_none, plain_step, plain_template};
ghost use Rattle.row_code.specs.Shapes.{shape_of};
ghost use Rattle.row_code.specs.Straight.{straight_at};

use crate::draft::Draft;
use crate::given::finish;
use crate::own::itself;
use conversion_model::{StepTree, TemplateTree};
use conversion_target::Target;
use legal_graph::{Graph, PatternInfo};
use row_code::{Rows, ShapeTree};
use std::alloc::{AllocError, Global};
use tree_model::NoMemory;

/// What a choice looks at: the patterns, the target, its graph of legality, and how many bits an index has.
#[derive(Clone, Copy)]
pub struct Pass<'a, R: Rows> {
    pub set: &'a R,
    pub target: &'a Target,
    pub graph: &'a Graph,
    pub bits: u32,
}

/// Whether the pattern at a place takes operands and results in their converted types.
pub fn is_converted(infos: &[PatternInfo], place: u32) -> bool
    ensures { result ≡ converted_in infos.now place }
{
    match infos.get(place as usize) {
        Some(info) => info.converted,
        None => false,
    }
}

fn with_place(alloc: Global, place: u32, path: &[u32]) -> Result<Vec<u32>, NoMemory>
    ensures { IfOk result (λ v. v.items ≡ place ∷ path.now) }
{
    let mut longer = Vec::with_capacity(alloc, 1)?;
    longer.push(place)?;
    longer.extend_from_slice(path)?;
    Ok(longer)
}

/// The leaves of the chosen derivation of at most so many levels, by patterns that are not on the path.
#[cycle(choose)]
pub(crate) fn chosen_within<R: Rows>(
    alloc: Global,
    pass: &Pass<'_, R>,
    room: u32,
    path: &[u32],
    shape: &ShapeTree,
) -> Result<Option<TemplateTree>, NoMemory>
    ensures { IfOk result (λ t. plain_or_none t ≡ chosen_by pass.now.bits (target_of pass.now.target.now) (R.table pass.now.set.now) (order_in_graph pass.now.graph.now) room path.now (shape_of shape.now)) }
{
    if room == 0 {
        return Ok(None);
    }
    if pass.target.is_legal(shape) {
        let own = itself(alloc, shape)?;
        return Ok(Some(own));
    }
    let places = pass.graph.order(&shape.name);
    let found = first_of(alloc, pass, room - 1, path, shape, places)?;
    Ok(found)
}

/// By the first pattern in order that isn't on the path and all of whose products are legalised on the path with it.
#[cycle(choose)]
fn first_of<R: Rows>(
    alloc: Global,
    pass: &Pass<'_, R>,
    room: u32,
    path: &[u32],
    shape: &ShapeTree,
    places: &[u32],
) -> Result<Option<TemplateTree>, NoMemory>
    ensures { IfOk result (λ t. plain_or_none t ≡ by_places pass.now.bits (R.table pass.now.set.now) (chosen_by pass.now.bits (target_of pass.now.target.now) (R.table pass.now.set.now) (order_in_graph pass.now.graph.now) room) path.now (shape_of shape.now) places.now) }
{
    'each: for place in places {
        if let Some(found) = by_pattern(alloc, pass, room, path, shape, *place)? {
            return Ok(Some(found));
        }
    }
    Ok(None)
}

/// By the pattern at a place.
#[cycle(choose)]
pub(crate) fn by_pattern<R: Rows>(
    alloc: Global,
    pass: &Pass<'_, R>,
    room: u32,
    path: &[u32],
    shape: &ShapeTree,
    place: u32,
) -> Result<Option<TemplateTree>, NoMemory>
    ensures { IfOk result (λ t. plain_or_none t ≡ by_place pass.now.bits (R.table pass.now.set.now) (chosen_by pass.now.bits (target_of pass.now.target.now) (R.table pass.now.set.now) (order_in_graph pass.now.graph.now) room) path.now (shape_of shape.now) place) }
{
    if path.contains(&place) {
        return Ok(None);
    }
    let Some(row) = pass.set.line(alloc, pass.bits, place, shape)? else {
        return Ok(None);
    };
    let path = with_place(alloc, place, path)?;
    let converted = is_converted(pass.set.infos(), place);
    let found = by_template(alloc, pass, room, path.as_slice(), converted, shape, &row)?;
    Ok(found)
}

/// By a template: casts of the operands, the leaves of the products, casts of the results.
#[cycle(choose)]
fn by_template<R: Rows>(
    alloc: Global,
    pass: &Pass<'_, R>,
    room: u32,
    path: &[u32],
    converted: bool,
    shape: &ShapeTree,
    row: &TemplateTree,
) -> Result<Option<TemplateTree>, NoMemory>
    ensures { IfOk result (λ t. plain_or_none t ≡ by_row_template (change_of pass.now.bits converted) (chosen_by pass.now.bits (target_of pass.now.target.now) (R.table pass.now.set.now) (order_in_graph pass.now.graph.now) room path.now) (shape_of shape.now) (plain_template row.now)) }
{
    let mut draft = Draft::new(alloc);
    draft.take_operands(alloc, pass.bits, converted, shape.operands.as_slice())?;
    if !products(alloc, pass, room, path, row.steps.as_slice(), &mut draft)? {
        return Ok(None);
    }
    let results = shape.results.as_slice();
    let whole = finish(
        alloc,
        pass.bits,
        converted,
        results,
        row.results.as_slice(),
        draft,
    )?;
    Ok(Some(whole))
}

/// The leaves of each product in order, as far as all are legalised.
#[cycle(choose)]
pub(crate) fn products<R: Rows>(
    alloc: Global,
    pass: &Pass<'_, R>,
    room: u32,
    path: &[u32],
    steps: &[StepTree],
    draft: &mut Draft,
) -> Result<bool, NoMemory>
    ensures { IfOk result (λ good. (last : Ending) → behind (done_of draft.old) (all_products (chosen_by pass.now.bits (target_of pass.now.target.now) (R.table pass.now.set.now) (order_in_graph pass.now.graph.now) room path.now) last (map plain_step steps.now) (state_of draft.old)) ≡ (if good then going_on draft.new last else None)) }
{
    'each: for step in steps {
        if !product(alloc, pass, room, path, step, draft)? {
            return Ok(false);
        }
    }
    Ok(true)
}

/// The leaves of one product.
#[cycle(choose)]
fn product<R: Rows>(
    alloc: Global,
    pass: &Pass<'_, R>,
    room: u32,
    path: &[u32],
    step: &StepTree,
    draft: &mut Draft,
) -> Result<bool, NoMemory>
    ensures { IfOk result (λ good. (rest : Ending) → behind (done_of draft.old) (one_product (chosen_by pass.now.bits (target_of pass.now.target.now) (R.table pass.now.set.now) (order_in_graph pass.now.graph.now) room path.now) rest (plain_step step.now) (state_of draft.old)) ≡ (if good then going_on draft.new rest else None)) }
{
    let shape = draft.product(alloc, step)?;
    match chosen_within(alloc, pass, room, path, &shape)? {
        None => Ok(false),
        Some(inner) => {
            draft.put(alloc, step, &inner)?;
            Ok(true)
        }
    }
}

/// How many levels a derivation has at most.
pub(crate) fn levels(infos: &[PatternInfo]) -> Result<u32, NoMemory>
    ensures { IfOk result (λ n. n ≡ length infos.now + 1) }
{
    match u32::try_from(infos.len()) {
        Ok(count) => match count.checked_add(1) {
            Some(levels) => Ok(levels),
            None => Err(AllocError),
        },
        Err(_) => Err(AllocError),
    }
}

/// The leaves of the chosen derivation of an operation, with its casts, as one template; none where it has none.
pub fn chosen<R: Rows>(
    alloc: Global,
    pass: &Pass<'_, R>,
    shape: &ShapeTree,
) -> Result<Option<TemplateTree>, NoMemory>
    requires { (name : List ℕ) → order_in_graph pass.now.graph.now name ≡ map (λ (r : Ranked). r.place) (order (target_of pass.now.target.now) (R.table pass.now.set.now) name) }
    ensures { IfOk result (λ t. plain_or_none t ≡ chosen_leaves pass.now.bits (target_of pass.now.target.now) (R.table pass.now.set.now) [] (shape_of shape.now)) }
{
    let room = levels(pass.set.infos())?;
    let found = chosen_within(alloc, pass, room, &[], shape)?;
    Ok(found)
}
