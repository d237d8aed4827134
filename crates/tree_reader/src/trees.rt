//! The module that a text denotes.

ghost use Rattle.std.specs.Prelude.{◌≡◌, ◌<◌, ◌^◌, IfOk, List, length, map};
ghost use Rattle.event_trees.specs.Modules.{denoted};
ghost use Rattle.event_trees.specs.Roles.{meant, numbers_at, terms_at};
ghost use Rattle.event_trees.specs.Wording.{wording_of};
ghost use Rattle.term_table.specs.Terms.{term_at};
ghost use Rattle.text_refusals.specs.Spelling.{spelling_of};
ghost use Rattle.text_scopes.specs.Bodies.{class_in};
ghost use Rattle.text_scopes.specs.declared.tables.Names.TheVariants.{Labels, Values};
ghost use Rattle.text_scopes.specs.Tables.{definitions};
ghost use Rattle.text_types.specs.Stack.{Stands, Within};
ghost use Rattle.tree_reader.specs.Found.{Unrefused};
ghost use Rattle.tree_reading.specs.Reading.{Denotes};

use module_trees::{Definitions, meant_at, module_of, numbers_at, ops_at, result_counts};
use std::alloc::{AllocError, Global};
use text_events::{Event, Source};
use text_refusals::Findings;
use tree_model::ModuleTree;

/// Lists of as many numbers as there are events, as all of them are.
fn as_many(events: &[Event], numbers: &[u32]) -> Result<(), AllocError>
    ensures { IfOk result (λ u. length events.now ≡ length numbers.now) }
{
    if events.len() == numbers.len() {
        Ok(())
    } else {
        Err(AllocError)
    }
}

/// The number of what is defined or used at each event.
fn meant(alloc: Global, source: &Source<'_>, found: &Findings) -> Result<Vec<u32>, AllocError>
    requires same { length found.now.events.items ≡ length found.now.begun.items }
    requires within { Within (length found.now.terms.nodes.keys) found.now.begun.items }
    requires values { found.now.values.items ≡ definitions Values (class_in found.now.classes.items) found.now.events.items }
    requires labels { found.now.labels.items ≡ definitions Labels (class_in found.now.classes.items) found.now.events.items }
    ensures { IfOk result (λ v. v.items ≡ meant (wording_of source.now.text.now source.now.words.now) (class_in found.now.classes.items) found.now.events.items
        (numbers_at (wording_of source.now.text.now source.now.words.now) (class_in found.now.classes.items) found.now.events.items (map (term_at found.now.terms.nodes.keys) found.now.begun.items))) }
{
    let counts = result_counts(alloc, &found.terms, &found.events, &found.begun)?;
    as_many(&found.events, &counts)?;
    let numbers = numbers_at(alloc, source, &found.classes, &found.events, &counts)?;
    as_many(&found.events, &numbers)?;
    let definitions = Definitions {
        values: &found.values,
        labels: &found.labels,
    };
    meant_at(alloc, source, &found.events, &numbers, definitions)
}

/// The module that the events denote.
fn denoted(alloc: Global, source: &Source<'_>, found: &Findings) -> Result<ModuleTree, AllocError>
    requires begun { Stands found.now.terms.nodes.keys found.now.begun.items (terms_at (spelling_of source.now.text.now source.now.words.now) found.now.events.items) }
    requires values { found.now.values.items ≡ definitions Values (class_in found.now.classes.items) found.now.events.items }
    requires labels { found.now.labels.items ≡ definitions Labels (class_in found.now.classes.items) found.now.events.items }
    ensures { IfOk result (λ m. m ≡ denoted (spelling_of source.now.text.now source.now.words.now) (wording_of source.now.text.now source.now.words.now) (class_in found.now.classes.items) found.now.events.items) }
{
    as_many(&found.events, &found.begun)?;
    let meant = meant(alloc, source, found)?;
    as_many(&found.events, &meant)?;
    let ops = ops_at(
        alloc,
        source,
        &found.terms,
        &found.events,
        &meant,
        &found.begun,
    )?;
    module_of(alloc, ops)
}

/// The module that a text denotes of which this was found.
pub fn tree_of(alloc: Global, text: &[u8], found: &Findings) -> Result<ModuleTree, AllocError>
    requires { Unrefused text.now found.now }
    ensures { IfOk result (Denotes text.now) }
{
    let source = Source {
        text,
        words: &found.words,
    };
    denoted(alloc, &source, found)
}
