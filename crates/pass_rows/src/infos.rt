//! Copies of what patterns say of themselves.

ghost use Rattle.std.specs.Prelude.{◌≡◌, ◌++◌, IfOk, OnOk};

use legal_graph::PatternInfo;
use std::alloc::Global;
use tree_model::{NoMemory, copy_names};

fn copied(alloc: Global, info: &PatternInfo) -> Result<PatternInfo, NoMemory>
    ensures { IfOk result (λ i. i ≡ info.now) }
{
    let root = info.root.copy(alloc)?;
    let products = copy_names(alloc, info.products.as_slice())?;
    Ok(PatternInfo {
        root,
        benefit: info.benefit,
        products,
        converted: info.converted,
    })
}

/// Copies go behind those that stand.
pub fn put_infos(
    all: &mut Vec<PatternInfo>,
    alloc: Global,
    infos: &[PatternInfo],
) -> Result<(), NoMemory>
    ensures { OnOk result (all.new.items ≡ all.old.items ++ infos.now) }
{
    'each: for info in infos {
        all.push(copied(alloc, info)?)?;
    }
    Ok(())
}
