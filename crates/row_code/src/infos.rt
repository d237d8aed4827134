//! What patterns say of themselves, from texts.

ghost use Rattle.std.specs.Prelude.{◌≡◌, IfOk, map};
ghost use Rattle.row_code.specs.Infos.{says, texts};

use legal_graph::PatternInfo;
use sqlite_items::Items;
use std::alloc::Global;
use tree_model::{Name, NameList, NoMemory};

fn names(alloc: Global, all: &[&[u8]]) -> Result<NameList, NoMemory>
    ensures { IfOk result (λ ns. ns ≡ texts all.now) }
{
    let mut names = Items::new(alloc);
    'each: for text in all {
        names.push(Name::from_slice(alloc, text)?)?;
    }
    Ok(names)
}

/// What a pattern of benefit 1 says of itself.
pub fn pattern_info(
    alloc: Global,
    root: &[u8],
    products: &[&[u8]],
    converted: bool,
) -> Result<PatternInfo, NoMemory>
    ensures { IfOk result (λ i. i ≡ says root.now (texts products.now) converted) }
{
    let root = Name::from_slice(alloc, root)?;
    let products = names(alloc, products)?;
    Ok(PatternInfo {
        root,
        benefit: 1,
        products,
        converted,
    })
}
